//! A plain and slow test whether the paths of a shape are those of a tree.
ghost use Rattle.std.specs.Prelude.{◌≡◌, ℕ, ◌+◌, ◌<◌, ◌≤◌, ◌↔◌, [], length, slice_index_or, IsTrue};
ghost use Rattle.keep_local.specs.Shapes.{HasNode, IsWellFormed, top_of, callers_of, node_of};

use crate::shape::Shape;

impl Shape {
    /// Whether a trail can be reserved for it: at most 32 levels below the top, paths with a node for each level, nodes that are
    /// numbered from 0 without gaps at each level, one node at the top, and callers that stay under one node once they are.
    pub fn is_well_formed(&self) -> bool
        ensures { IsTrue result ↔ IsWellFormed self.now }
    {
        if self.keeps.as_slice().len() > 32 {
            return false;
        }
        if !has_whole_paths(self) {
            return false;
        }
        if !has_one_top(self) {
            return false;
        }
        if !has_no_gaps(self) {
            return false;
        }
        is_nested(self)
    }
}

// Whether every path has an entry for each level.
fn has_whole_paths(shape: &Shape) -> bool
    requires { top_of shape.now ≤ 32 }
    ensures { IsTrue result ↔ ((w : ℕ) → w < callers_of shape.now → length (slice_index_or shape.now.paths w []) ≡ top_of shape.now + 1) }
{
    let levels = shape.top() as usize + 1;
    for path in shape.paths.as_slice() {
        if path.as_slice().len() != levels {
            return false;
        }
    }
    true
}

// Whether the one node at the top is 0.
fn has_one_top(shape: &Shape) -> bool
    requires { top_of shape.now ≤ 32 }
    ensures { IsTrue result ↔ ((w : ℕ) → w < callers_of shape.now → node_of shape.now w (top_of shape.now) ≡ 0) }
{
    let top = shape.top() as usize;
    for w in 0..shape.callers() {
        if shape.node(w, top) != 0 {
            return false;
        }
    }
    true
}

// Whether no level has a gap in the numbers of its nodes.
fn has_no_gaps(shape: &Shape) -> bool
    requires { top_of shape.now ≤ 32 }
    ensures { IsTrue result ↔ ((w : ℕ) → w < callers_of shape.now → (k : ℕ) → k ≤ top_of shape.now → (n : ℕ)
        → n < node_of shape.now w k → HasNode shape.now k n) }
{
    for w in 0..shape.callers() {
        if !has_no_gaps_beside(shape, w) {
            return false;
        }
    }
    true
}

// Whether at each level each node below a caller's is some caller's.
fn has_no_gaps_beside(shape: &Shape, w: usize) -> bool
    requires { top_of shape.now ≤ 32 }
    ensures { IsTrue result ↔ ((k : ℕ) → k ≤ top_of shape.now → (n : ℕ) → n < node_of shape.now w k → HasNode shape.now k n) }
{
    for k in 0..shape.top() as usize + 1 {
        if !has_no_gap_below(shape, k, shape.node(w, k)) {
            return false;
        }
    }
    true
}

// Whether at a level each node below this number is some caller's.
fn has_no_gap_below(shape: &Shape, k: usize, limit: u32) -> bool
    ensures { IsTrue result ↔ ((n : ℕ) → n < limit → HasNode shape.now k n) }
{
    for n in 0..limit {
        if !has_node(shape, k, n) {
            return false;
        }
    }
    true
}

// Whether a node at a level is some caller's.
fn has_node(shape: &Shape, k: usize, n: u32) -> bool
    ensures { IsTrue result ↔ HasNode shape.now k n }
{
    for v in 0..shape.callers() {
        if shape.node(v, k) == n {
            return true;
        }
    }
    false
}

// Whether any two callers under one node stay so at every higher level.
fn is_nested(shape: &Shape) -> bool
    requires { top_of shape.now ≤ 32 }
    ensures { IsTrue result ↔ ((v w j k : ℕ) → v < callers_of shape.now → w < callers_of shape.now → j < k → k ≤ top_of shape.now
        → node_of shape.now v j ≡ node_of shape.now w j → node_of shape.now v k ≡ node_of shape.now w k) }
{
    for v in 0..shape.callers() {
        if !is_nested_with(shape, v) {
            return false;
        }
    }
    true
}

// The same of one caller and any other.
fn is_nested_with(shape: &Shape, v: usize) -> bool
    requires { top_of shape.now ≤ 32 }
    ensures { IsTrue result ↔ ((w j k : ℕ) → w < callers_of shape.now → j < k → k ≤ top_of shape.now
        → node_of shape.now v j ≡ node_of shape.now w j → node_of shape.now v k ≡ node_of shape.now w k) }
{
    for w in 0..shape.callers() {
        if !are_nested(shape, v, w) {
            return false;
        }
    }
    true
}

// The same of two callers.
fn are_nested(shape: &Shape, v: usize, w: usize) -> bool
    requires { top_of shape.now ≤ 32 }
    ensures { IsTrue result ↔ ((j k : ℕ) → j < k → k ≤ top_of shape.now → node_of shape.now v j ≡ node_of shape.now w j
        → node_of shape.now v k ≡ node_of shape.now w k) }
{
    for k in 0..shape.top() as usize + 1 {
        if shape.node(v, k) != shape.node(w, k) && has_met_below(shape, v, w, k) {
            return false;
        }
    }
    true
}

// Whether two callers are under one node at some level below this one.
fn has_met_below(shape: &Shape, v: usize, w: usize, k: usize) -> bool
    ensures { IsTrue result ↔ ((j : ℕ) × (j < k) × (node_of shape.now v j ≡ node_of shape.now w j)) }
{
    for j in 0..k {
        if shape.node(v, j) == shape.node(w, j) {
            return true;
        }
    }
    false
}

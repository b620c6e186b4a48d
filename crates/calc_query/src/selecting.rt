//! The set that terms select.
ghost use Rattle.std.specs.Prelude.{◌≡◌, ◌+◌, ◌<◌, ◌≤◌, ◌∷◌, [], ℕ, true, false};
ghost use Rattle.std.specs.List.{range_with_len, AllByRecursion};
ghost use Rattle.cpu_set.specs.Sets.{has, numbers_where};
ghost use Rattle.synth_text.specs.Limits.{pu_limit};
ghost use Rattle.topo_tree.specs.declared.layer.Layer.TheVariants as layers;
ghost use Rattle.topo_tree.specs.Objects.{count_of, IsLayer};
ghost use Rattle.calc_query.specs.Candidates.{number_of};
ghost use Rattle.calc_query.specs.Selection.{is_picked_among, selected_inside, union_of, selected_from, located, operated, selected};
ghost use Rattle.calc_query.specs.Selection.{HasLayers, HaveLayers};

use crate::candidates::row_inside;
use crate::query::{Location, Numbering, Op, Part, Term};
use cpu_set::CpuSet;
use topo_tree::{AsTree, Layer, MACHINE, Object, Row, Tree};

/// The set that terms select, each done in its turn to what those before it gave, beginning with the empty set.
pub fn select<T: AsTree>(topology: &T, terms: &[Term], numbering: Numbering) -> CpuSet
    requires { HaveLayers (T.described topology.now) terms.now }
    ensures { result ≡ selected (T.described topology.now) numbering terms.now }
{
    let tree = topology.as_tree();
    let mut set = CpuSet::empty();
    for term in terms {
        let other = located(tree, &term.location, numbering);
        set = operated(term.op, &set, &other);
    }
    set
}

// One set operation.
fn operated(op: Op, set: &CpuSet, other: &CpuSet) -> CpuSet
    ensures { result ≡ operated op set.now other.now }
{
    match op {
        Op::Join => set.union(other),
        Op::Remove => set.minus(other),
        Op::Meet => set.meet(other),
        Op::Differ => set.xor(other),
    }
}

// The set of a location.
fn located(tree: &Tree, location: &Location, numbering: Numbering) -> CpuSet
    requires { HasLayers tree.now location.now }
    ensures { result ≡ located tree.now numbering location.now }
{
    match location {
        Location::All => tree.set_of(MACHINE),
        Location::Numbers(numbers) => *numbers,
        Location::Parts(parts) => selected_by(tree, parts.as_slice(), numbering),
    }
}

// The set that parts select.
fn selected_by(tree: &Tree, parts: &[Part], numbering: Numbering) -> CpuSet
    requires { AllByRecursion (λ part. IsLayer tree.now part.layer) parts.now }
    ensures { result ≡ selected_from tree.now numbering (layers.Depth 0) (0 ∷ []) parts.now }
{
    let mut layer = Layer::Depth(0);
    let mut chosen = CpuSet::empty();
    chosen.with(0);
    for part in parts {
        chosen = selected_inside(tree, layer, &chosen, *part, numbering);
        layer = part.layer;
    }
    union_of(tree, layer, &chosen)
}

// The objects that a part selects inside objects of a layer, all by their indexes.
fn selected_inside(
    tree: &Tree,
    layer: Layer,
    before: &CpuSet,
    part: Part,
    numbering: Numbering,
) -> CpuSet
    requires layer { IsLayer tree.now layer }
    requires part { IsLayer tree.now part.layer }
    ensures { result ≡ selected_inside tree.now numbering layer before.now part }
{
    let count = tree.count(layer);
    let mut chosen = CpuSet::empty();
    let mut index = next_index(before, 0, count);
    while index < count {
        let row = row_inside(tree, Object { layer, index }, part.layer);
        chosen = chosen.union(&picked(tree, row, part, numbering));
        index = next_index(before, index + 1, count);
    }
    chosen
}

// The lowest of these indexes from `from` on, or the end where none is below it.
fn next_index(indexes: &CpuSet, from: u32, end: u32) -> u32
    requires { from ≤ end }
    ensures within { result ≤ end }
    ensures found { result < end → has indexes.now result ≡ true }
    ensures none { (index : ℕ) → from ≤ index → index < result → has indexes.now index ≡ false }
    ensures from { from ≤ result }
{
    match indexes.next(from) {
        Some(index) => index.min(end),
        None => end,
    }
}

// The objects that a part picks among candidates that stand side by side.
fn picked(tree: &Tree, row: Row, part: Part, numbering: Numbering) -> CpuSet
    requires layer { IsLayer tree.now part.layer }
    requires within { row.first + row.count ≤ count_of tree.now part.layer }
    requires few { row.first + row.count ≤ pu_limit }
    ensures { result ≡ numbers_where (is_picked_among tree.now numbering part (range_with_len row.first row.count)) }
{
    let (from, to) = part.pick.reach(numbering, row.count);
    let mut chosen = CpuSet::empty();
    for place in from..to {
        let index = row.first + place;
        let number = number_of(tree, numbering, part.layer, index, place);
        if part.pick.picks(numbering, row.count, number) {
            chosen.with(index);
        }
    }
    chosen
}

// The number of an object that is the candidate at a place.
fn number_of(tree: &Tree, numbering: Numbering, layer: Layer, index: u32, place: u32) -> u32
    requires layer { IsLayer tree.now layer }
    requires index { index < count_of tree.now layer }
    ensures { result ≡ number_of tree.now numbering layer index place }
{
    match numbering {
        Numbering::Logical => place,
        Numbering::Physical => tree.physical(Object { layer, index }),
    }
}

// The union of the sets of objects of a layer.
fn union_of(tree: &Tree, layer: Layer, indexes: &CpuSet) -> CpuSet
    requires { IsLayer tree.now layer }
    ensures { result ≡ union_of tree.now layer indexes.now }
{
    let count = tree.count(layer);
    let mut set = CpuSet::empty();
    let mut index = next_index(indexes, 0, count);
    while index < count {
        set = set.union(&tree.set_of(Object { layer, index }));
        index = next_index(indexes, index + 1, count);
    }
    set
}

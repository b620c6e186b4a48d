//! How many objects a description has.
ghost use Rattle.std.specs.Prelude.{◌≡◌, ◌+◌, ◌*◌, ◌<◌, ◌≤◌, length, MatchOption};
ghost use Rattle.std.specs.List.{AllByRecursion};
ghost use Rattle.synth_text.specs.Limits.{level_limit, pu_limit};
ghost use Rattle.synth_text.specs.Rules.{arities, product, tree_size, node_count, is_large};

use crate::description::{Description, Level, Memory};

// How many PUs a description may have.
const PU_LIMIT: u64 = 4096;

// How many objects a description may have, Machine and the nodes of memory included.
const OBJECT_LIMIT: u64 = 16_384;

/// Whether a description has too many PUs or objects.
pub fn is_large(description: &Description) -> bool
    requires few { length description.now.levels ≤ level_limit }
    requires some_each { AllByRecursion (λ level. 1 ≤ level.arity) description.now.levels }
    ensures { result ≡ is_large description.now }
{
    let levels = description.levels.as_slice();
    match count_objects(levels) {
        None => true,
        Some(counts) => counts.objects + nodes(levels, &description.memory) > OBJECT_LIMIT,
    }
}

// The numbers of a description's objects.
#[derive(Clone, Copy, Debug)]
struct Counts {
    // At the last level.
    last: u64,
    // At all levels, Machine included.
    objects: u64,
}

// The numbers of objects, where the last level has as many as there may be PUs at most.
fn count_objects(levels: &[Level]) -> Option<Counts>
    requires few { length levels.now ≤ level_limit }
    requires some_each { AllByRecursion (λ level. 1 ≤ level.arity) levels.now }
    ensures { MatchOption result (pu_limit < product (arities levels.now))
        (λ counts. (counts.last ≡ product (arities levels.now)) × (counts.objects ≡ tree_size (arities levels.now))
        × (counts.last ≤ pu_limit)
        × (counts.objects ≤ pu_limit * (level_limit + 1))) }
{
    let mut last: u64 = 1;
    let mut objects: u64 = 1;
    for level in levels {
        last *= u64::from(level.arity);
        if last > PU_LIMIT {
            return None;
        }
        objects += last;
    }
    Some(Counts { last, objects })
}

// How many nodes of memory there are.
fn nodes(levels: &[Level], memory: &Option<Memory>) -> u64
    requires few { length levels.now ≤ level_limit }
    requires some_each { AllByRecursion (λ level. 1 ≤ level.arity) levels.now }
    requires pus { product (arities levels.now) ≤ pu_limit }
    ensures node_count { result ≡ node_count levels.now memory.now }
    ensures bound { result ≤ pu_limit }
{
    match memory {
        None => 0,
        Some(memory) => {
            let above = (memory.above as usize).min(levels.len());
            match count_objects(&levels[..above]) {
                Some(counts) => counts.last,
                None => unreachable!(),
            }
        }
    }
}

//! How many objects there are.
ghost use Rattle.std.specs.Prelude.{◌≡◌, ◌≤◌, length, take, IfOk};
ghost use Rattle.std.specs.List.{AllByRecursion};
ghost use Rattle.synth_text.specs.Limits.{pu_limit};
ghost use Rattle.synth_text.specs.Rules.{arities, product};
ghost use Rattle.topo_tree.specs.TableLists.{depth_counts};

use std::alloc::{AllocError, Global};
use synth_text::Level;

/// How many objects the last of so many levels has, counted from the first.
pub fn count_down_to(levels: &[Level], depth: usize) -> u32
    requires within { depth ≤ length levels.now }
    requires some_each { AllByRecursion (λ level. 1 ≤ level.arity) levels.now }
    requires pus { product (arities levels.now) ≤ pu_limit }
    ensures count { result ≡ product (take depth (arities levels.now)) }
{
    let mut count = 1;
    for level in &levels[..depth] {
        count *= level.arity;
    }
    count
}

/// How many objects each depth has, from Machine on.
pub fn depth_counts(alloc: Global, levels: &[Level]) -> Result<Vec<u32>, AllocError>
    requires some_each { AllByRecursion (λ level. 1 ≤ level.arity) levels.now }
    requires pus { product (arities levels.now) ≤ pu_limit }
    ensures { IfOk result (λ counts. counts.items ≡ depth_counts levels.now) }
{
    let mut count = 1;
    let mut counts = Vec::new(alloc);
    counts.push(count)?;
    for level in levels {
        count *= level.arity;
        counts.push(count)?;
    }
    Ok(counts)
}

//! What `--single` leaves of a set.
ghost use Rattle.std.specs.Prelude.{◌≡◌, take};
ghost use Rattle.command_texts.specs.Chosen.{chosen};

use cpu_set::CpuSet;

/// A set, or its first number alone.
pub fn chosen(single: bool, set: &CpuSet) -> CpuSet
    ensures { result ≡ chosen single set.now }
{
    if single { first_alone(set) } else { *set }
}

// The set of a set's first number alone.
fn first_alone(set: &CpuSet) -> CpuSet
    ensures { result ≡ take 1 set.now }
{
    let mut alone = CpuSet::empty();
    if let Some(number) = set.first() {
        alone.with(number);
    }
    alone
}

//! The codes of composed locks, and the numbers that tell the place of a fault.
ghost use Rattle.std.specs.Prelude.{◌≡◌};
ghost use Rattle.clof_c.specs.Composed.{composed_code, composed_made_code, fault_code, fault_numbers, numbers_by};
ghost use Rattle.clof_c.specs.Composed.{description_code, description_numbers, numbers_code, numbers_numbers, plan_code, plan_numbers};

use level_callers::Reply;
use level_handles::Made;
use lock_plan::PlanFault;
use lock_setting::SettingFault;
use synth_text::SynthFault;
use topo_tree::BuildFault;

/// The numbers that a fault tells, as `clof run` prints them behind its name; 0 where it tells none.
#[derive(Clone, Copy, PartialEq, Eq, Debug, Drop)]
#[repr(C)]
pub struct ClofNumbers {
    pub first: u64,
    pub second: u64,
}

impl ClofNumbers {
    /// These two.
    fn of(first: u64, second: u64) -> ClofNumbers
        ensures { result ≡ numbers_by first second }
    {
        ClofNumbers { first, second }
    }
}

/// No numbers.
pub const NO_NUMBERS: ClofNumbers = ClofNumbers {
    first: 0,
    second: 0,
};

/// The code of what a call answered.
pub fn composed_code(answer: Option<Reply>) -> u32
    ensures code { result ≡ composed_code answer }
{
    match answer {
        Some(Reply::Done) => 0,
        Some(Reply::NotYet) => 1,
        Some(Reply::Elsewhere) => 2,
        None => 3,
        Some(Reply::NoTurn) => 7,
    }
}

/// The code of what making answered.
pub fn composed_made_code(made: Made) -> u32
    ensures code { result ≡ composed_made_code made }
{
    match made {
        Made::Done => 0,
        Made::NoMemory => 4,
        Made::InUse => 5,
        Made::Refused => 6,
        Made::TooDeep => 8,
    }
}

/// The code of a fault, and its numbers.
pub fn fault_answer(fault: SettingFault) -> (u32, ClofNumbers)
    ensures code { result.0 ≡ fault_code fault }
    ensures numbers { result.1 ≡ fault_numbers fault }
{
    match fault {
        SettingFault::TooLong => (9, NO_NUMBERS),
        SettingFault::Description(fault) => description_answer(fault),
        SettingFault::Numbers(fault) => numbers_answer(fault),
        SettingFault::Plan(fault) => plan_answer(fault),
        SettingFault::NoPu { place } => (10, ClofNumbers::of(place as u64, 0)),
        SettingFault::OutOfMemory => (4, NO_NUMBERS),
    }
}

fn description_answer(fault: SynthFault) -> (u32, ClofNumbers)
    ensures code { result.0 ≡ description_code fault }
    ensures numbers { result.1 ≡ description_numbers fault }
{
    match fault {
        SynthFault::Empty => (21, NO_NUMBERS),
        SynthFault::BadType { at } => (22, ClofNumbers::of(at as u64, 0)),
        SynthFault::BadArity { at } => (23, ClofNumbers::of(at as u64, 0)),
        SynthFault::BadAttr { at } => (24, ClofNumbers::of(at as u64, 0)),
        SynthFault::BadIndexes { at } => (25, ClofNumbers::of(at as u64, 0)),
        SynthFault::LastNotPu { at } => (26, ClofNumbers::of(at as u64, 0)),
        SynthFault::RepeatedType { at } => (27, ClofNumbers::of(at as u64, 0)),
        SynthFault::TooManyLevels => (28, NO_NUMBERS),
        SynthFault::TooManyObjects => (29, NO_NUMBERS),
        SynthFault::OutOfMemory => (4, NO_NUMBERS),
    }
}

fn numbers_answer(fault: BuildFault) -> (u32, ClofNumbers)
    ensures code { result.0 ≡ numbers_code fault }
    ensures numbers { result.1 ≡ numbers_numbers fault }
{
    match fault {
        BuildFault::IndexCount { found, wanted } => {
            (31, ClofNumbers::of(u64::from(found), u64::from(wanted)))
        }
        BuildFault::IndexRange { number } => (32, ClofNumbers::of(u64::from(number), 0)),
        BuildFault::IndexTwice { number } => (33, ClofNumbers::of(u64::from(number), 0)),
        BuildFault::OutOfMemory => (4, NO_NUMBERS),
    }
}

fn plan_answer(fault: PlanFault) -> (u32, ClofNumbers)
    ensures code { result.0 ≡ plan_code fault }
    ensures numbers { result.1 ≡ plan_numbers fault }
{
    match fault {
        PlanFault::LevelUnknown { place } => (41, ClofNumbers::of(u64::from(place), 0)),
        PlanFault::TooDeep => (42, NO_NUMBERS),
        PlanFault::LevelOrder { place } => (43, ClofNumbers::of(u64::from(place), 0)),
        PlanFault::LockUnknown { place } => (44, ClofNumbers::of(u64::from(place), 0)),
        PlanFault::Lengths { levels, given } => {
            (45, ClofNumbers::of(u64::from(levels), u64::from(given)))
        }
        PlanFault::KeepRange { place } => (46, ClofNumbers::of(u64::from(place), 0)),
        PlanFault::OutOfMemory => (4, NO_NUMBERS),
    }
}

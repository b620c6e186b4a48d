//! How a call of the program ends.
ghost use Rattle.std.specs.Prelude.{◌≡◌};

use calc_query::CalcFault;
use cpu_set::SetFault;
use distrib_rules::DistribFault;
use run_faults::{CheckFault, PlanFault, SectionFault, SelectFault};
use synth_text::SynthFault;
use thiserror::Error;
use topo_tree::BuildFault;

/// An option whose value is a type.
#[derive(Clone, Copy, Debug, PartialEq, Eq)]
pub enum OptionName {
    /// `-I`
    Intersect,
    /// `-N`
    NumberOf,
    /// `-H`
    Hierarchical,
    /// `--from`
    From,
    /// `--to`
    To,
    /// `--at`
    At,
}

/// Why a well-formed command line is refused.
#[derive(Clone, Copy, Debug, PartialEq, Eq, Error)]
pub enum Fault {
    /// The text of a set.
    #[error("the set: {0}")]
    Set(SetFault),
    /// The text of a description.
    #[error("the description: {0}")]
    Synth(SynthFault),
    /// The physical numbers of a description.
    #[error("the topology: {0}")]
    Build(BuildFault),
    /// The locations of a calculation.
    #[error("the locations: {0}")]
    Calc(CalcFault),
    /// The type of an option names no layer.
    #[error("the type of an option")]
    TypeOf(OptionName),
    /// The numbers of a distribution.
    #[error("the distribution: {0}")]
    Distrib(DistribFault),
    /// The levels, the locks or the keeps of a plan.
    #[error("the plan: {0}")]
    Plan(PlanFault),
    /// The sections of the input.
    #[error("the sections: {0}")]
    Section(SectionFault),
    /// The weights, the keep or the trace of a choice.
    #[error("the choice: {0}")]
    Select(SelectFault),
    /// The input is longer than its command allows: 67,108,864 bytes for `check`, and 16,777,216 for the others.
    #[error("the input is too long")]
    Input,
    /// The input and the printed text of a check.
    #[error("the check: {0}")]
    Check(CheckFault),
}

/// How a call of the program ends.
#[derive(Clone, Copy, Debug, PartialEq, Eq)]
pub enum Status {
    /// The whole text was written.
    Ok,
    /// The words are no command line of the program.
    Usage,
    /// What the words or the input say is refused.
    Malformed(Fault),
    /// A quantity is over its limit.
    Limit(Fault),
    /// A read of the input failed.
    ReadFault,
    /// A write failed, or the output took no more; the first `written` bytes of the text were written.
    WriteFault {
        /// How many bytes of the text were written.
        written: usize,
    },
    /// There was not enough memory.
    OutOfMemory,
}

impl Status {
    ghost use Rattle.command_texts.specs.Status.{code_of};

    /// The exit status of the process: 0 for Ok, and 2 to 7 for the others in their order.
    pub fn code(&self) -> u8
        ensures { result ≡ code_of self.now }
    {
        match self {
            Status::Ok => 0,
            Status::Usage => 2,
            Status::Malformed(_) => 3,
            Status::Limit(_) => 4,
            Status::ReadFault => 5,
            Status::WriteFault { .. } => 6,
            Status::OutOfMemory => 7,
        }
    }
}

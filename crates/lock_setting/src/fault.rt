//! Why texts are refused.
use lock_plan::PlanFault;
use synth_text::SynthFault;
use topo_tree::BuildFault;

/// Why the texts of a composed lock are refused: the first of these, but that want of memory may come in the place of any.
#[derive(Clone, Copy, Debug, PartialEq, Eq, Drop)]
pub enum SettingFault {
    /// The levels, the locks or the keeps are a text of 2^32 bytes or more.
    TooLong,
    /// The description describes nothing.
    Description(SynthFault),
    /// The physical numbers of the description are wrong.
    Numbers(BuildFault),
    /// The levels, the locks and the keeps are no plan on the machine.
    Plan(PlanFault),
    /// The machine has no PU with the number at this place, counted from 0.
    NoPu {
        /// The place of the number.
        place: usize,
    },
    /// There was not enough memory.
    OutOfMemory,
}

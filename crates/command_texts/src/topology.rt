//! The tree of the topology that a description stands for.
ghost use Rattle.std.specs.Prelude.{◌≡◌, None, IfOk, IfErr, IsOk, OnOk};
ghost use Rattle.out_of_memory.specs.Memory.{UnlessMemory};
ghost use Rattle.synth_text.specs.declared.description.Description.{Description as Described};
ghost use Rattle.synth_text.specs.Descriptions.{Describes};
ghost use Rattle.topo_tree.specs.Building.{build_fault};
ghost use Rattle.command_texts.specs.declared.status.Status.{Status as AnyStatus};
ghost use Rattle.command_texts.specs.TopoText.{synth_status, build_status, DescribesBuilt, TopoRefuses};
ghost use Rattle.command_texts.specs.Ends.{EndsEarly};

use crate::{Fault, Status};
use std::alloc::Global;
use synth_text::{SynthFault, read};
use topo_tree::{BuildFault, Tree};

/// The tree of the topology that a text describes, or the status with which the text is refused.
pub fn tree(alloc: Global, text: &[u8]) -> Result<Tree, Status>
    ensures ok { IfOk result (DescribesBuilt text.now) }
    ensures only { IfOk result (λ tree. (described : Described) → Describes text.now described → described ≡ tree) }
    ensures err { IfErr result (λ status. UnlessMemory Status.OutOfMemory status (TopoRefuses text.now status)) }
    ensures refused { (status : AnyStatus) → TopoRefuses text.now status →
        UnlessMemory (Err Status.OutOfMemory) result (result ≡ Err status) }
    ensures complete { (described : Described) → DescribesBuilt text.now described →
        UnlessMemory (Err Status.OutOfMemory) result (IsOk result) }
    ensures early { IfErr result EndsEarly }
{
    let description = match read(alloc, text) {
        Ok(description) => description,
        Err(fault) => return Err(synth_status(fault)),
    };
    match Tree::build(alloc, description) {
        Ok(tree) => Ok(tree),
        Err(fault) => Err(build_status(fault)),
    }
}

// The status of a fault of reading: two of them are limits.
fn synth_status(fault: SynthFault) -> Status
    ensures status { result ≡ synth_status fault }
    ensures early { EndsEarly result }
{
    match fault {
        SynthFault::TooManyLevels | SynthFault::TooManyObjects => {
            Status::Limit(Fault::Synth(fault))
        }
        SynthFault::OutOfMemory => Status::OutOfMemory,
        _ => Status::Malformed(Fault::Synth(fault)),
    }
}

// The status of a fault of building.
fn build_status(fault: BuildFault) -> Status
    ensures status { result ≡ build_status fault }
    ensures early { EndsEarly result }
{
    match fault {
        BuildFault::OutOfMemory => Status::OutOfMemory,
        _ => Status::Malformed(Fault::Build(fault)),
    }
}

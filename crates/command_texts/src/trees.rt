//! What `topo` prints.
ghost use Rattle.std.specs.Prelude.{◌≡◌, List, ℕ, IfErr, IfOk, IsOk};
ghost use Rattle.out_of_memory.specs.Memory.{UnlessMemory};
ghost use Rattle.command_texts.specs.declared.status.Status.{Status as AnyStatus};
ghost use Rattle.command_texts.specs.TopoText.{text_of, PrintsTopo, TopoRefuses};

use crate::Status;
use crate::topology::tree;
use out_of_memory::OutOfMemory;
use std::alloc::Global;
use topo_tree::Tree;

/// The tree of the description that a text tells, or its canonical text, or the status with which it is refused.
pub fn topo_output(alloc: Global, export: bool, text: &[u8]) -> Result<Vec<u8>, Status>
    ensures ok { IfOk result (λ printed. PrintsTopo export text.now printed.items) }
    ensures err { IfErr result (λ status. UnlessMemory Status.OutOfMemory status (TopoRefuses text.now status)) }
    ensures refused { (status : AnyStatus) → TopoRefuses text.now status →
        UnlessMemory (Err Status.OutOfMemory) result (result ≡ Err status) }
    ensures complete { (printed : List ℕ) → PrintsTopo export text.now printed →
        UnlessMemory (Err Status.OutOfMemory) result (IsOk result) }
{
    match tree(alloc, text) {
        Ok(tree) => match text_of(alloc, export, &tree) {
            Ok(printed) => Ok(printed),
            Err(OutOfMemory) => Err(Status::OutOfMemory),
        },
        Err(status) => Err(status),
    }
}

// A tree as its lines, or as its canonical text.
fn text_of(alloc: Global, export: bool, tree: &Tree) -> Result<Vec<u8>, OutOfMemory>
    ensures { IfOk result (λ printed. printed.items ≡ text_of export tree.now) }
{
    if export {
        tree.export(alloc)
    } else {
        tree.show(alloc)
    }
}

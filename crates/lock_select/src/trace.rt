//! The lines of a trace.
ghost use Rattle.std.specs.Prelude.{◌≡◌, ◌≤◌, ◌<◌, ◌^◌, ℕ, List, [], All, IfOk, IfErr, vec_len};
ghost use Rattle.out_of_memory.specs.Memory.{UnlessMemory};
ghost use Rattle.synth_text.specs.Rules.{pu_count};
ghost use Rattle.lock_select.specs.Traces.{line_number, BeginsWith, FrontBreaks, IsRefused, IsTrace, Visits};

use byte_text::{cut_at, number_up_to};
use run_faults::SelectFault;
use std::alloc::Global;
use topo_tree::{AsTree, Layer};

// How many turns a trace may have.
const TURN_LIMIT: usize = 16384;

/// Reads a trace: the logical number of a PU on each line, 1 to 10 digits and a line end. It is refused for the first rule that is broken,
/// line by line: at most 16,384 lines, the form of a line, a PU of the topology.
pub fn read_trace<T: AsTree>(
    alloc: Global,
    topology: &T,
    bytes: &[u8],
) -> Result<Vec<u32>, SelectFault>
    ensures trace { IfOk result (λ trace. IsTrace (T.described topology.now) bytes.now trace.items) }
    ensures usable { IfOk result (λ trace. Visits (T.described topology.now) trace.items) }
    ensures refused { IfErr result (λ fault. UnlessMemory SelectFault.OutOfMemory fault
        (IsRefused (T.described topology.now) bytes.now fault)) }
{
    let tree = topology.as_tree();
    let pus = tree.count(Layer::Depth(tree.depths() - 1));
    let mut trace = Vec::new(alloc);
    let mut rest = bytes;
    while !rest.is_empty() {
        if trace.len() >= TURN_LIMIT {
            return Err(SelectFault::TooManyTurns);
        }
        let (pu, behind) = read_front(pus, rest, bytes.len() - rest.len())?;
        trace.push(pu)?;
        rest = behind;
    }
    Ok(trace)
}

// The PU of the line with which a text begins that stands at an offset of the trace, and what stands behind it.
fn read_front(pus: u32, text: &[u8], at: usize) -> Result<(u32, &[u8]), SelectFault>
    ensures begins { IfOk result (λ found. BeginsWith pus text.now found.0 found.1.now) }
    ensures refused { IfErr result (λ fault. FrontBreaks pus at text.now fault) }
{
    let Some((line, behind)) = cut_at(text, b'\n') else {
        return Err(SelectFault::Line { at });
    };
    let Some(number) = read_line(line) else {
        return Err(SelectFault::Line { at });
    };
    if number < u64::from(pus) {
        Ok((number as u32, behind))
    } else {
        Err(SelectFault::Place { at })
    }
}

// The number of a line of 1 to 10 digits.
#[tactic(auto, unfolding(crate::specs::Traces::line_number))]
fn read_line(line: &[u8]) -> Option<u64>
    ensures { result ≡ line_number line.now }
{
    if line.len() <= 10 {
        number_up_to(u64::MAX, line)
    } else {
        None
    }
}

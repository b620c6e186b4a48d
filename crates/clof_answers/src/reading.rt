//! The reading of an input, all of it at once.
ghost use Rattle.std.specs.Prelude.{◌≡◌, ◌≢◌, ◌≤◌, ◌<◌, ◌⊎◌, length, IfErr, IfOk, OnOk};
ghost use Rattle.edge_io.specs.Counts.{Rose};
ghost use Rattle.edge_io.specs.Contents.{IsDrained};
ghost use Rattle.edge_io.specs.Reading.{HasGiven};
ghost use Rattle.command_texts.specs.declared.status.Fault.TheVariants.{Input as InputOf};
ghost use Rattle.run_check.specs.Pairs.{input_limit};
ghost use Rattle.clof_answers.specs.Outcome.{WasRead, WasTooLong};

use crate::{Fault, Status};
use edge_io::{ReadAllFault, Source, read_all};
use std::alloc::Global;

// The greatest length of an input.
const INPUT_LIMIT: usize = 16_777_216;

/// All that the source has left, at most the limit of an input.
pub fn read_input<S: Source>(alloc: Global, source: &mut S) -> Result<Vec<u8>, Status>
    ensures read { IfOk result (λ input. WasRead (S.left source.old) (S.given source.old) (S.given source.new) input.items) }
    ensures within { IfOk result (λ input. length input.items ≤ input_limit) }
    ensures at_end { OnOk result (IsDrained (S.left source.old) (S.left source.new)) }
    ensures refused { IfErr result (λ status.
        (status ≡ Status.ReadFault) ⊎ (status ≡ Status.Limit InputOf) ⊎ (status ≡ Status.OutOfMemory)) }
    ensures too_long { result ≡ Err (Status.Limit InputOf) →
        WasTooLong input_limit (S.left source.old) (S.given source.old) (S.given source.new) }
    ensures read_fault { result ≡ Err Status.ReadFault → Rose (S.faults source.old) (S.faults source.new) }
    ensures read_in_part { result ≡ Err Status.ReadFault →
        HasGiven input_limit (S.left source.old) (S.left source.new) (S.given source.old) (S.given source.new) }
    ensures read_calm { result ≢ Err Status.ReadFault → S.faults source.new ≡ S.faults source.old }
{
    read_up_to(alloc, source, INPUT_LIMIT)
}

/// All that the source has left, at most `limit` bytes.
pub(crate) fn read_up_to<S: Source>(
    alloc: Global,
    source: &mut S,
    limit: usize,
) -> Result<Vec<u8>, Status>
    requires { limit < usize.MAX }
    ensures read { IfOk result (λ input. WasRead (S.left source.old) (S.given source.old) (S.given source.new) input.items) }
    ensures within { IfOk result (λ input. length input.items ≤ limit) }
    ensures at_end { OnOk result (IsDrained (S.left source.old) (S.left source.new)) }
    ensures refused { IfErr result (λ status.
        (status ≡ Status.ReadFault) ⊎ (status ≡ Status.Limit InputOf) ⊎ (status ≡ Status.OutOfMemory)) }
    ensures too_long { result ≡ Err (Status.Limit InputOf) →
        WasTooLong limit (S.left source.old) (S.given source.old) (S.given source.new) }
    ensures read_fault { result ≡ Err Status.ReadFault → Rose (S.faults source.old) (S.faults source.new) }
    ensures read_in_part { result ≡ Err Status.ReadFault →
        HasGiven limit (S.left source.old) (S.left source.new) (S.given source.old) (S.given source.new) }
    ensures read_calm { result ≢ Err Status.ReadFault → S.faults source.new ≡ S.faults source.old }
{
    read_all(alloc, source, limit).map_err(|fault| match fault {
        ReadAllFault::Fault => Status::ReadFault,
        ReadAllFault::TooLong => Status::Limit(Fault::Input),
        ReadAllFault::OutOfMemory => Status::OutOfMemory,
    })
}

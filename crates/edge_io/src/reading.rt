//! Reading a source to its end.
ghost use Rattle.std.specs.Prelude.{◌≡◌, ◌≢◌, ◌≤◌, ◌<◌, ◌+◌, ◌-◌, length, vec_len, IfErr, IfOk, IfSome, OnOk, OnErr};
ghost use Rattle.edge_io.specs.Counts.{Rose, RisesBy};
ghost use Rattle.edge_io.specs.Contents.{Loses, IsAtEnd, IsDrained};
ghost use Rattle.edge_io.specs.Reading.{HasGiven, ReadsMore};

use crate::{ReadAllFault, Source};
use std::alloc::Global;

// How many bytes one read asks for at most.
const PIECE: usize = 65_536;

/// Reads a source to its end and answers its bytes, at most `limit` of them. It asks for at most one byte more.
/// `Fault` where a read failed, `TooLong` where the source had more than `limit` bytes. A source that refused has
/// given what the reads before took.
pub fn read_all<S: Source>(
    alloc: Global,
    source: &mut S,
    limit: usize,
) -> Result<Vec<u8>, ReadAllFault>
    requires { limit < usize.MAX }
    ensures all { IfOk result (λ bytes. IfSome (S.left source.old) (λ left. bytes.items ≡ left)) }
    ensures end { OnOk result (IsDrained (S.left source.old) (S.left source.new)) }
    ensures within { IfOk result (λ bytes. vec_len bytes ≤ limit) }
    ensures given { IfOk result (λ bytes. RisesBy (vec_len bytes) (S.given source.old) (S.given source.new)) }
    ensures too_long { result ≡ Err ReadAllFault.TooLong → RisesBy (limit + 1) (S.given source.old) (S.given source.new) }
    ensures longer { result ≡ Err ReadAllFault.TooLong → IfSome (S.left source.old) (λ left. limit < length left) }
    ensures fault { result ≡ Err ReadAllFault.Fault → Rose (S.faults source.old) (S.faults source.new) }
    ensures calm { result ≢ Err ReadAllFault.Fault → S.faults source.new ≡ S.faults source.old }
    ensures dropped { OnErr result (HasGiven limit (S.left source.old) (S.left source.new) (S.given source.old) (S.given source.new)) }
    ensures never_falls { S.faults source.old ≤ S.faults source.new }
{
    let mut buffer = piece_buffer(alloc)?;
    let mut bytes = Vec::new(alloc);
    while bytes.len() <= limit {
        let count = read_piece(source, &mut buffer, &mut bytes, limit)?;
        if count == 0 {
            return Ok(bytes);
        }
    }
    Err(ReadAllFault::TooLong)
}

// Room for one read.
fn piece_buffer(alloc: Global) -> Result<Vec<u8>, ReadAllFault>
    ensures ok { IfOk result (λ buffer. 0 < vec_len buffer) }
    ensures err { IfErr result (λ fault. fault ≡ ReadAllFault.OutOfMemory) }
{
    vec![in alloc; 0; PIECE].map_err(|_| ReadAllFault::OutOfMemory)
}

// Reads the next piece behind the bytes so far, up to one byte over the limit, and answers how long it is: 0 at
// the end.
fn read_piece<S: Source>(
    source: &mut S,
    buffer: &mut [u8],
    bytes: &mut Vec<u8>,
    limit: usize,
) -> Result<usize, ReadAllFault>
    requires limited { limit < usize.MAX }
    requires within { vec_len bytes.old ≤ limit }
    requires roomy { 0 < length buffer.old }
    ensures ok { IfOk result (λ count. ReadsMore count (S.left source.old) (S.left source.new) bytes.old.items bytes.new.items) }
    ensures within { IfOk result (λ count. vec_len bytes.new ≤ limit + 1) }
    ensures given { IfOk result (λ count. RisesBy count (S.given source.old) (S.given source.new)) }
    ensures end { IfOk result (λ count. count ≡ 0 → IsAtEnd (S.left source.old)) }
    ensures fault { result ≡ Err ReadAllFault.Fault → Rose (S.faults source.old) (S.faults source.new) }
    ensures not_too_long { result ≢ Err ReadAllFault.TooLong }
    ensures calm { result ≢ Err ReadAllFault.Fault → S.faults source.new ≡ S.faults source.old }
    ensures dropped { OnErr result
        (HasGiven (limit - vec_len bytes.old) (S.left source.old) (S.left source.new) (S.given source.old) (S.given source.new)) }
    ensures never_falls { S.faults source.old ≤ S.faults source.new }
{
    let wanted = buffer.len().min(limit + 1 - bytes.len());
    let piece = &mut buffer[..wanted];
    let count = source.read(piece).map_err(|_| ReadAllFault::Fault)?;
    bytes
        .extend_from_slice(&piece[..count])
        .map_err(|_| ReadAllFault::OutOfMemory)?;
    Ok(count)
}

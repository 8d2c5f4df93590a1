//! A source read to its end.
ghost use Rattle.std.specs.Prelude.{◌≡◌, ℕ, ◌+◌, ◌<◌, ◌≤◌, List, [], Some, length, IfOk, OnOk, OnErr, IfSome, IsErrOf};
ghost use Rattle.byte_edges.specs.Counts.{raised, Rose};
ghost use Rattle.byte_edges.specs.Reading.{Gave, GaveMore};

use crate::{EdgeFault, ReadAll, Source};
use std::alloc::Global;

/// How many bytes a read gives at most.
const PIECE: usize = 32_768;

/// All the bytes of a source, which are no more than `max`. It takes at most `max + 1` of them.
///
/// Where the source does not tell what is left, its counts say that it was read to its end: what it gave in this call are
/// the bytes of the result, and it answered once that it is at its end.
pub fn read_all<S: Source>(alloc: Global, source: &mut S, max: usize) -> Result<Vec<u8>, ReadAll>
    ensures whole { IfSome (S.left source.old) (λ told. IfOk result (λ bytes. bytes.items ≡ told)) }
    ensures emptied { IfSome (S.left source.old) (λ _. OnOk result (S.left source.new ≡ Some [])) }
    ensures gave { IfOk result (λ bytes. Gave S.left S.given source.old source.new bytes.items) }
    ensures ended { OnOk result (S.ends source.new ≡ raised (S.ends source.old) 1) }
    ensures fits { IfOk result (λ bytes. length bytes.items ≤ max) }

    // There are more bytes than `max`, and one more than that was taken.
    ensures too_long { IsErrOf result ReadAll.TooLong → IfSome (S.left source.old) (λ told. max < length told) }
    ensures too_many_given { IsErrOf result ReadAll.TooLong → S.given source.new ≡ raised (S.given source.old) (max + 1) }

    // A refusal took some of the first bytes.
    ensures cut_short { OnErr result ((bytes : List ℕ) × (length bytes ≤ max + 1) × Gave S.left S.given source.old source.new bytes) }
    ensures not_ended { OnErr result (S.ends source.new ≡ S.ends source.old) }

    // `ReadFault` is answered only where the source failed, and every other answer only where it did not.
    ensures failed { IsErrOf result ReadAll.ReadFault → Rose (S.faults source.old) (S.faults source.new) }
    ensures steady { OnOk result (S.faults source.new ≡ S.faults source.old) }
    ensures steady_too_long { IsErrOf result ReadAll.TooLong → S.faults source.new ≡ S.faults source.old }
    ensures steady_memory { IsErrOf result ReadAll.NoMemory → S.faults source.new ≡ S.faults source.old }
    ensures no_fall { S.faults source.old ≤ S.faults source.new }
    ensures aside { S.beside source.new ≡ S.beside source.old }
{
    let mut bytes = Vec::new(alloc);
    let mut piece = [0; PIECE];
    let limit = max.saturating_add(1);
    while bytes.len() < limit {
        match read_piece(source, &mut piece, &mut bytes, limit) {
            Ok(0) => return Ok(bytes),
            Ok(_) => {}
            Err(EdgeFault::Failed) => return Err(ReadAll::ReadFault),
            Err(EdgeFault::NoMemory) => return Err(ReadAll::NoMemory),
        }
    }
    Err(ReadAll::TooLong)
}

/// Reads once, for at most `limit` bytes in all. What was read goes behind the bytes from before by way of `piece`, so that
/// no room has to be filled with zeros for it.
fn read_piece<S: Source>(
    source: &mut S,
    piece: &mut [u8],
    bytes: &mut Vec<u8>,
    limit: usize,
) -> Result<usize, EdgeFault>
    requires room { 0 < length piece.old }
    requires below { length bytes.old.items < limit }
    ensures more { IfOk result (GaveMore S.left S.given source.old source.new bytes.old.items bytes.new.items) }
    ensures within { length bytes.new.items ≤ limit }
    ensures end { IfOk result (λ n. n ≡ 0 → IfSome (S.left source.old) (λ told. told ≡ [])) }
    ensures ended { IfOk result (λ n. n ≡ 0 → S.ends source.new ≡ raised (S.ends source.old) 1) }
    ensures not_ended { IfOk result (λ n. 0 < n → S.ends source.new ≡ S.ends source.old) }
    ensures kept { OnErr result (bytes.new.items ≡ bytes.old.items) }
    ensures left { OnErr result (S.left source.new ≡ S.left source.old) }
    ensures none_given { OnErr result (S.given source.new ≡ S.given source.old) }
    ensures no_end { OnErr result (S.ends source.new ≡ S.ends source.old) }
    ensures failed { IsErrOf result EdgeFault.Failed → Rose (S.faults source.old) (S.faults source.new) }
    ensures steady { OnOk result (S.faults source.new ≡ S.faults source.old) }
    ensures steady_memory { IsErrOf result EdgeFault.NoMemory → S.faults source.new ≡ S.faults source.old }
    ensures no_fall { S.faults source.old ≤ S.faults source.new }
    ensures aside { S.beside source.new ≡ S.beside source.old }
{
    let room = piece.len().min(limit - bytes.len());

    // Made before the read, which then loses no byte where there is no memory.
    bytes.reserve(room)?;
    let n = source.read(&mut piece[..room])?;
    bytes.extend_from_slice(&piece[..n])?;
    Ok(n)
}

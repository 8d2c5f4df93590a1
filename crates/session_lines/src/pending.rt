//! The bytes that were read and not served yet.
ghost use Rattle.std.specs.Prelude.{◌≡◌, ℕ, ◌+◌, ◌-◌, ◌<◌, ◌≤◌, ◌++◌, ◌∷◌, [], List, drop, take, length, vec_len, IfOk, OnOk, OnErr, IfSome, IfNone, IsErrOf};
ghost use Rattle.byte_edges.specs.Counts.{raised, Rose};
ghost use Rattle.byte_edges.specs.Reading.{GaveMore};
ghost use Rattle.session_lines.specs.Feeds.{HasNoFeed};

use byte_edges::{EdgeFault, Source};
use no_memory::NoMemory;

/// How many bytes one read may give at most.
const READ_BYTES: usize = 4_096;

/// Reads once, for at most `most` bytes, behind the bytes that are there.
pub(crate) fn read_more<S: Source>(
    source: &mut S,
    pending: &mut Vec<u8>,
    most: usize,
) -> Result<usize, EdgeFault>
    requires some { 0 < most }
    requires short { length pending.old.items ≤ 4096 }
    ensures more { IfOk result (GaveMore S.left S.given source.old source.new pending.old.items pending.new.items) }
    ensures within { IfOk result (λ n. (n ≤ most) × (n ≤ 4096)) }
    ensures end { IfOk result (λ n. n ≡ 0 → IfSome (S.left source.old) (λ told. told ≡ [])) }
    ensures ended { IfOk result (λ n. n ≡ 0 → S.ends source.new ≡ raised (S.ends source.old) 1) }
    ensures not_ended { IfOk result (λ n. 0 < n → S.ends source.new ≡ S.ends source.old) }
    ensures left { OnErr result (S.left source.new ≡ S.left source.old) }
    ensures none_given { OnErr result (S.given source.new ≡ S.given source.old) }
    ensures no_end { OnErr result (S.ends source.new ≡ S.ends source.old) }
    ensures failed { IsErrOf result EdgeFault.Failed → Rose (S.faults source.old) (S.faults source.new) }
    ensures no_fall { S.faults source.old ≤ S.faults source.new }
    ensures aside { S.beside source.new ≡ S.beside source.old }
{
    let filled = pending.len();
    let room = most.min(READ_BYTES);
    make_room(pending, room)?;
    let n = source.read(&mut pending[filled..])?;
    pending.truncate(filled + n);
    Ok(n)
}

/// Makes room behind the bytes that are there.
fn make_room(pending: &mut Vec<u8>, room: usize) -> Result<(), NoMemory>
    requires short { length pending.old.items ≤ 4096 }
    requires few { room ≤ 4096 }
    ensures kept { take (length pending.old.items) pending.new.items ≡ pending.old.items }
    ensures long { OnOk result (length pending.new.items ≡ length pending.old.items + room) }
{
    let filled = pending.len();
    pending.resize(filled + room, 0)?;
    Ok(())
}

/// The first line of these bytes, without its line feed, and what follows it. None where there is no line feed.
pub(crate) fn split_line(bytes: &[u8]) -> Option<(&[u8], &[u8])>
    ensures some { IfSome result (λ parts. (bytes.now ≡ parts.0.now ++ 10 ∷ parts.1.now) × HasNoFeed parts.0.now) }
    ensures none { IfNone result (HasNoFeed bytes.now) }
{
    let at = bytes.iter().position(|b| *b == b'\n')?;
    Some((&bytes[..at], &bytes[at + 1..]))
}

/// Takes the first `n` bytes out.
pub(crate) fn remove_front(pending: &mut Vec<u8>, n: usize)
    requires { n ≤ length pending.old.items }
    ensures { pending.new.items ≡ drop n pending.old.items }
{
    let len = pending.len();
    pending.as_mut_slice().copy_within(n..len, 0);
    pending.truncate(len - n);
}

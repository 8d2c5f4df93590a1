//! Why a call on the outside gave up.
ghost use Rattle.std.specs.Prelude.{◌≡◌, ◌≢◌, None, Some, IfOk, IfErr};
ghost use Rattle.std.specs.IoError.{error_kind};
ghost use Rattle.byte_edges.specs.declared.fault.EdgeFault.TheVariants as edge;

use crate::NoMemory;
use std::alloc::AllocError;
use std::io;
use std::io::ErrorKind;

/// A call on the outside failed, or found no memory.
#[derive(Clone, Copy, Debug, PartialEq, Eq)]
pub enum EdgeFault {
    Failed,
    NoMemory,
}

impl From<AllocError> for EdgeFault {
    ghost from_gives = { λ _ fault. fault ≡ edge.NoMemory };

    fn from(_: AllocError) -> Self {
        EdgeFault::NoMemory
    }
}

impl From<NoMemory> for EdgeFault {
    ghost from_gives = { λ _ fault. fault ≡ edge.NoMemory };

    fn from(_: NoMemory) -> Self {
        EdgeFault::NoMemory
    }
}

/// Why a source was not read to its end.
#[derive(Clone, Copy, Debug, PartialEq, Eq)]
pub enum ReadAll {
    /// A read of the source failed.
    ReadFault,
    /// There are more bytes than asked for.
    TooLong,
    NoMemory,
}

/// Why a text was not written whole.
#[derive(Clone, Copy, Debug, PartialEq, Eq)]
pub enum WriteWhole {
    /// A write to the sink failed after it took the first `written` bytes.
    WriteFault { written: u64 },
    NoMemory,
}

/// How often a call that a signal interrupts is tried.
pub(crate) const TRIES: usize = 16;

/// A want of memory as such, and every other error as a failure.
pub(crate) fn fault_of(error: &io::Error) -> EdgeFault
    ensures memory { error_kind error.now ≡ ErrorKind.OutOfMemory → result ≡ EdgeFault.NoMemory }
    ensures other { error_kind error.now ≢ ErrorKind.OutOfMemory → result ≡ EdgeFault.Failed }
{
    match error.kind() {
        ErrorKind::OutOfMemory => EdgeFault::NoMemory,
        _ => EdgeFault::Failed,
    }
}

/// What an answer of the system comes to, or `None` where a signal interrupted the call, which is then tried again.
pub(crate) fn settled(answer: io::Result<usize>) -> Option<Result<usize, EdgeFault>>
    ensures ok { IfOk answer (λ n. result ≡ Some (Ok n)) }
    ensures again { IfErr answer (λ error. error_kind error ≡ ErrorKind.Interrupted → result ≡ None) }
    ensures memory { IfErr answer (λ error. error_kind error ≡ ErrorKind.OutOfMemory → result ≡ Some (Err EdgeFault.NoMemory)) }
    ensures other { IfErr answer (λ error. error_kind error ≢ ErrorKind.Interrupted →
        error_kind error ≢ ErrorKind.OutOfMemory → result ≡ Some (Err EdgeFault.Failed)) }
{
    match answer {
        Ok(n) => Some(Ok(n)),
        Err(error) if error.kind() == ErrorKind::Interrupted => None,
        Err(error) => Some(Err(fault_of(&error))),
    }
}

//! Counts of what an adapter's calls gave.
ghost use Rattle.std.specs.Prelude.{◌≡◌, ◌<◌, ◌⊎◌, IfOk, OnOk, OnErr, IsErrOf};
ghost use Rattle.byte_edges.specs.Counts.{raised};

use crate::EdgeFault;

pub(crate) fn raise(count: u64, by: usize) -> u64
    ensures { result ≡ raised count by }
{
    count.saturating_add(by as u64)
}

/// The count of ends after a read that gave so many bytes for so much room.
pub(crate) fn count_end(ends: u64, given: usize, room: usize) -> u64
    ensures ended { given ≡ 0 → 0 < room → result ≡ raised ends 1 }
    ensures not_ended { (0 < given) ⊎ (room ≡ 0) → result ≡ ends }
{
    if given == 0 && room > 0 {
        raise(ends, 1)
    } else {
        ends
    }
}

/// The count of faults after a call that answered so.
pub(crate) fn count_fault<T>(faults: u64, answer: &Result<T, EdgeFault>) -> u64
    ensures failed { IsErrOf answer.now EdgeFault.Failed → result ≡ raised faults 1 }
    ensures steady { OnOk answer.now (result ≡ faults) }
    ensures steady_memory { IsErrOf answer.now EdgeFault.NoMemory → result ≡ faults }
{
    match answer {
        Err(EdgeFault::Failed) => raise(faults, 1),
        _ => faults,
    }
}

/// What the reads of an adapter gave so far.
#[derive(Clone, Copy)]
pub(crate) struct Reads {
    pub(crate) faults: u64,
    pub(crate) given: u64,
    pub(crate) ends: u64,
}

impl Reads {
    pub(crate) const NONE: Reads = Reads {
        faults: 0,
        given: 0,
        ends: 0,
    };

    /// Counts a read for so much room.
    pub(crate) fn count(&mut self, answer: &Result<usize, EdgeFault>, room: usize)
        ensures given { IfOk answer.now (λ n. self.new.given ≡ raised self.old.given n) }
        ensures ended { IfOk answer.now (λ n. n ≡ 0 → 0 < room → self.new.ends ≡ raised self.old.ends 1) }
        ensures not_ended { IfOk answer.now (λ n. (0 < n) ⊎ (room ≡ 0) → self.new.ends ≡ self.old.ends) }
        ensures none_given { OnErr answer.now (self.new.given ≡ self.old.given) }
        ensures no_end { OnErr answer.now (self.new.ends ≡ self.old.ends) }
        ensures failed { IsErrOf answer.now EdgeFault.Failed → self.new.faults ≡ raised self.old.faults 1 }
        ensures steady { OnOk answer.now (self.new.faults ≡ self.old.faults) }
        ensures steady_memory { IsErrOf answer.now EdgeFault.NoMemory → self.new.faults ≡ self.old.faults }
    {
        self.faults = count_fault(self.faults, answer);
        if let Ok(n) = answer {
            self.given = raise(self.given, *n);
            self.ends = count_end(self.ends, *n, room);
        }
    }
}

//! A text written whole.
ghost use Rattle.std.specs.Prelude.{◌≡◌, ℕ, ◌<◌, ◌≤◌, length, take, OnOk, IsErrOf};
ghost use Rattle.byte_edges.specs.Counts.{Rose};
ghost use Rattle.byte_edges.specs.Writing.{Took};

use crate::{EdgeFault, Sink, WriteWhole};

/// Writes all of the bytes. Each write is given all that is left of them.
pub fn write_whole<K: Sink>(sink: &mut K, bytes: &[u8]) -> Result<(), WriteWhole>
    ensures whole { OnOk result (Took (K.taken sink.old) (K.taken sink.new) bytes.now) }

    // A fault comes before the end, and exactly the first `written` bytes were taken.
    ensures some_left { (written : ℕ) → IsErrOf result (WriteWhole.WriteFault written) → written < length bytes.now }
    ensures took_written { (written : ℕ) → IsErrOf result (WriteWhole.WriteFault written) →
        Took (K.taken sink.old) (K.taken sink.new) (take written bytes.now) }
    ensures took_some { IsErrOf result WriteWhole.NoMemory →
        (n : ℕ) × (n < length bytes.now) × Took (K.taken sink.old) (K.taken sink.new) (take n bytes.now) }

    // `WriteFault` is answered only where the sink failed, and every other answer only where it did not.
    ensures failed { (written : ℕ) → IsErrOf result (WriteWhole.WriteFault written) → Rose (K.faults sink.old) (K.faults sink.new) }
    ensures steady { OnOk result (K.faults sink.new ≡ K.faults sink.old) }
    ensures steady_memory { IsErrOf result WriteWhole.NoMemory → K.faults sink.new ≡ K.faults sink.old }
    ensures no_fall { K.faults sink.old ≤ K.faults sink.new }
    ensures aside { K.beside sink.new ≡ K.beside sink.old }
{
    let mut written = 0;
    while written < bytes.len() {
        match sink.write(&bytes[written..]) {
            Ok(n) => written += n,
            Err(EdgeFault::Failed) => {
                return Err(WriteWhole::WriteFault {
                    written: written as u64,
                });
            }
            Err(EdgeFault::NoMemory) => return Err(WriteWhole::NoMemory),
        }
    }
    Ok(())
}

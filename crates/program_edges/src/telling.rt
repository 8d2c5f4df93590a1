//! Telling how a program ended.
ghost use Rattle.std.specs.Prelude.{ℕ};
ghost use Rattle.program_edges.specs.Telling.{IsTold};

use byte_edges::{Sink, WriteWhole, write_whole};

/// Writes a text to the sink for errors.
pub fn tell<E: Sink>(errors: &mut E, text: &[u8]) -> Result<(), WriteWhole>
    ensures { IsTold E.taken E.faults errors.old errors.new text.now result }
{
    write_whole(errors, text)
}

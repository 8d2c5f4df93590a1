//! The bytes of a session that were read before it begins, and the sink of its replies, as one line.
ghost use Rattle.std.specs.Prelude.{◌≡◌, refl};

use byte_edges::{EdgeFault, Line, Sink, Source};

/// The bytes of a session that are left, and where its replies go. Its reads never fail.
#[derive(Drop)]
pub(crate) struct SessionLine<'a, K: Sink> {
    pub(crate) rest: &'a [u8],
    pub(crate) sink: &'a mut K,
}

impl<'a, K: Sink> SessionLine<'a, K> {
    pub(crate) fn new(rest: &'a [u8], sink: &'a mut K) -> SessionLine<'a, K>
        ensures rest { result.rest.now ≡ rest.now }
        ensures sink { result.sink.now ≡ sink.entry.now }
        ensures same_reference { result.sink.ghost_name ≡ sink.entry.ghost_name }
    {
        SessionLine { rest, sink }
    }
}

// It is told what is left, so that its counts have nothing to add: they stand at their ends from the first moment on, where a
// count stays as it is. The one of the bytes stands as far beyond it as the name of the reference to the sink, which every
// call of it therefore keeps: so what a session wrote to the line is known of the sink behind the reference.
impl<K: Sink> Source for SessionLine<'_, K> {
    ghost use Rattle.std.specs.Prelude.{ℕ, ◌+◌, Some};

    ghost left = { λ line. Some line.rest.now };

    ghost faults = { λ _. 0 };

    ghost given = { λ line. 18446744073709551616 + line.sink.ghost_name };

    ghost ends = { λ _. 18446744073709551616 };

    ghost beside = { λ line. record { taken = K.taken line.sink.now; faults = K.faults line.sink.now } };

    fn read(&mut self, into: &mut [u8]) -> Result<usize, EdgeFault> {
        let n = self.rest.len().min(into.len());
        let (first, rest) = self.rest.split_at(n);
        into[..n].copy_from_slice(first);
        self.rest = rest;
        Ok(n)
    }
}

impl<K: Sink> Sink for SessionLine<'_, K> {
    ghost use Rattle.std.specs.Prelude.{ℕ, ◌+◌, Some};

    ghost taken = { λ line. K.taken line.sink.now };

    ghost faults = { λ line. K.faults line.sink.now };

    ghost beside = { λ line. record { left = Some line.rest.now; faults = 0; given = 18446744073709551616 + line.sink.ghost_name; ends = 18446744073709551616 } };

    fn write(&mut self, piece: &[u8]) -> Result<usize, EdgeFault> {
        self.sink.write(piece)
    }
}

impl<K: Sink> Line for SessionLine<'_, K> {
    ghost read_keeps = { λ _. refl };

    ghost write_keeps = { λ _. refl };
}

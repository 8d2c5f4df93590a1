//! A line that waits at its first read until the other is read too.
ghost use Rattle.std.specs.Prelude.{◌≡◌, None, refl};
ghost use Rattle.byte_edges.specs.Scheduled.{failed};
ghost use Rattle.byte_edges.specs.Sides.{SinkSide, SourceSide};

use super::place::Place;
use byte_edges::{EdgeFault, Line, MemLine, Sink, Source};

/// A line that waits at its first read. It doesn't tell what is left or what it took.
#[derive(Drop)]
pub(super) struct MeetingLine<'a> {
    pub(super) line: MemLine,
    pub(super) own: &'a Place,
    pub(super) other: &'a Place,
    pub(super) begun: bool,
}

impl MeetingLine<'_> {
    /// Waits, where this is the first read.
    fn begin(&mut self)
        ensures { self.new.line ≡ self.old.line }
    {
        if !self.begun {
            self.begun = true;
            self.own.wait_for(self.other);
        }
    }
}

impl Source for MeetingLine<'_> {
    ghost left = { λ _. None };

    ghost faults = { λ line. failed line.line.source.plan };

    ghost given = { λ line. line.line.source.given };

    ghost ends = { λ line. line.line.source.ends };

    ghost beside = { λ line. record { taken = None; faults = failed line.line.sink.plan } };

    fn read(&mut self, into: &mut [u8]) -> Result<usize, EdgeFault> {
        self.begin();
        self.line.read(into)
    }
}

impl Sink for MeetingLine<'_> {
    ghost taken = { λ _. None };

    ghost faults = { λ line. failed line.line.sink.plan };

    ghost beside = { λ line. record { left = None; faults = failed line.line.source.plan; given = line.line.source.given; ends = line.line.source.ends } };

    fn write(&mut self, piece: &[u8]) -> Result<usize, EdgeFault> {
        self.line.write(piece)
    }
}

impl Line for MeetingLine<'_> {
    ghost read_keeps = { λ _. refl };

    ghost write_keeps = { λ _. refl };
}

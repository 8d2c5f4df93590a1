//! A connection, which is read and written.
ghost use Rattle.std.specs.Prelude.{◌≡◌};
ghost use Rattle.byte_edges.specs.Sides.{SinkSide, SourceSide};

use crate::{Sink, Source};

/// A source and a sink at once, as a connection is. It counts the faults of its reads and those of its writes apart.
/// A read keeps what was taken, and a write keeps what is left.
pub trait Line: Source + Sink {
    /// What it is besides a source is what it is as a sink.
    ghost read_keeps: { (line : Self) → Self.Source.beside line ≡ record { taken = Self.Sink.taken line; faults = Self.Sink.faults line } };

    /// What it is besides a sink is what it is as a source.
    ghost write_keeps: { (line : Self) → Self.Sink.beside line ≡ record { left = Self.Source.left line; faults = Self.Source.faults line; given = Self.Source.given line; ends = Self.Source.ends line } };
}

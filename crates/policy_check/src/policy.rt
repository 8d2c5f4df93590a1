use net_types::{BoxId, TermId};
use ternary_bits::Pattern;

/// What is wanted of packets that one terminal sends, and another may receive.
#[derive(Clone, Copy, Debug, PartialEq, Eq)]
pub enum Demand {
    /// None is delivered there.
    Never,
    /// Each is delivered there.
    Must,
    /// Each that is delivered there has met a rule of this box.
    Via(BoxId),
}

/// A statement about the packets that a terminal may send and whose headers match a pattern.
#[derive(Clone, Copy, Debug, PartialEq, Eq)]
pub struct Policy {
    pub demand: Demand,
    pub from: TermId,
    pub to: TermId,
    pub pattern: Pattern,
}

use super::ids::{PortId, RuleId, TermId};
use ternary_bits::Header;

/// What lies behind a port.
#[derive(Clone, Copy, Debug, PartialEq, Eq)]
pub enum Next {
    /// A terminal that receives.
    Term(TermId),
    /// The port at the other end of a link.
    Far(PortId),
    Nothing,
}

/// How a walk ends.
#[derive(Clone, Copy, Debug, PartialEq, Eq)]
pub enum End {
    /// At a terminal that receives, with this header.
    Delivered { term: TermId, header: Header },
    /// At a box with no rule for the packet.
    Unmatched,
    /// By a rule that drops.
    Dropped { rule: RuleId },
    /// By a port with neither a link nor a terminal that receives.
    Lost { port: PortId },
    /// After as many rules as the hop limit allows.
    Overlong,
}

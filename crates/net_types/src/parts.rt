//! The parts of a network but its rules, as lists by number.

use super::ids::{BoxId, PortId, TermId};
use super::terminal::Role;
use ternary_bits::Pattern;

#[derive(Clone, Copy, Debug, PartialEq, Eq)]
pub struct Port {
    pub id: PortId,
    pub at: BoxId,
}

/// One direction of a link. The other direction stands at the other port.
#[derive(Clone, Copy, Debug, PartialEq, Eq)]
pub struct Link {
    pub from: PortId,
    pub to: PortId,
}

#[derive(Debug, Drop)]
pub struct Terminal {
    pub id: TermId,
    pub port: PortId,
    pub role: Role,
    pub permits: Vec<Pattern>,
    pub forbids: Vec<Pattern>,
}

/// All parts but the rules, each list rising by its numbers.
#[derive(Debug, Drop)]
pub struct Parts {
    pub bits: u32,
    pub boxes: Vec<BoxId>,
    pub ports: Vec<Port>,
    pub links: Vec<Link>,
    pub terminals: Vec<Terminal>,
}

ghost use Rattle.std.specs.Prelude.{◌≡◌, ◌==◌, ◌&&◌, length, IsTrue};

use super::ids::{BoxId, PortId, RuleId};
use ternary_bits::{Pattern, Rewrite};

/// By which port of its box a packet must come.
#[derive(Clone, Copy, Debug, PartialEq, Eq)]
pub enum InPort {
    Any,
    One(PortId),
}

/// What becomes of a packet that a rule takes.
#[derive(Clone, Copy, Debug, PartialEq, Eq)]
pub enum Action {
    Drop,
    /// Its header is rewritten, and it leaves by the port.
    Out { port: PortId, rewrite: Rewrite },
}

/// A rule of a box. A box tries the greater priority first, and the lower number among equals.
#[derive(Clone, Copy, Debug, PartialEq, Eq)]
pub struct Rule {
    pub id: RuleId,
    pub at: BoxId,
    pub priority: u32,
    pub inp: InPort,
    pub pattern: Pattern,
    pub action: Action,
}

impl Action {
    ghost use Rattle.net_types.specs.Refusals.{moves_fit};
    ghost use Rattle.net_types.specs.Rules.{action, TakesWithin};

    /// Whether its rewrite has so many bits. One that has takes none from past them.
    fn is_as_wide(&self, bits: u32) -> bool
        ensures wide { result ≡ moves_fit bits (action self.now) }
        ensures within { IsTrue result → TakesWithin bits (action self.now) }
    {
        match self {
            Action::Drop => true,
            Action::Out { rewrite, .. } => rewrite.bits() == bits,
        }
    }
}

impl Rule {
    ghost use Rattle.net_types.specs.Refusals.{moves_fit};
    ghost use Rattle.net_types.specs.Rules.{action, TakesWithin};

    /// Whether its pattern and its rewrite have so many bits.
    pub(crate) fn is_as_wide(&self, bits: u32) -> bool
        ensures wide { result ≡ ((length self.now.pattern == bits) && moves_fit bits (action self.now.action)) }
        ensures within { IsTrue result → TakesWithin bits (action self.now.action) }
    {
        self.pattern.bits() == bits && self.action.is_as_wide(bits)
    }
}

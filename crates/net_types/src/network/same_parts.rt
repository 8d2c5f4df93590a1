//! Whether a box or a terminal is the same in two networks.

ghost use Rattle.std.specs.Prelude.{◌≡◌, ◌==◌, ◌↔◌, ℕ, Some, Contains, IsTrue};
ghost use Rattle.std.specs.List.{find};
ghost use Rattle.std.specs.Option.{option_copied};
ghost use Rattle.network_model.specs.Network.{value_at, Numbered};
ghost use Rattle.net_types.specs.SameParts.{terminal_at, IsSamePort, IsSameBox, IsSameTerminal};
ghost use Rattle.net_types.specs.Terminals.{answered_place};

use super::Network;
use super::same::{all_same, same_terminal};
use crate::ids::{BoxId, PortId, TermId};
use crate::parts::Terminal;
use crate::terminal::Role;

impl Network {
    /// Whether both have the box, with the same ports, the same link or terminal at each port, terminals in the same roles,
    /// and the same rules. This looks at the ports and rules of that box in both, and at no other box's.
    pub fn box_same(&self, other: &Network, b: BoxId) -> bool
        ensures { IsTrue result ↔ IsSameBox self.now other.now b }
    {
        if !self.has_box(b) || !other.has_box(b) {
            return false;
        }
        if !self.same_ports(other, b) {
            return false;
        }
        if !self.same_behind(other, b) {
            return false;
        }
        self.same_rules(other, b)
    }

    /// Whether both have the terminal, at the same port, in the same role, with the same permits and forbidden patterns.
    pub fn term_same(&self, other: &Network, t: TermId) -> bool
        ensures { IsTrue result ↔ IsSameTerminal self.now other.now t }
    {
        match (self.terminal_row(t), other.terminal_row(t)) {
            (Some(mine), Some(theirs)) => same_terminal(mine, theirs),
            (None, _) | (_, None) => false,
        }
    }

    /// Whether the box has the same ports in both.
    fn same_ports(&self, other: &Network, b: BoxId) -> bool
        ensures { IsTrue result ↔
            ((port : ℕ) → (value_at self.now.ports port ≡ Some b) ↔ (value_at other.now.ports port ≡ Some b)) }
    {
        all_same(self.ports_at(b), other.ports_at(b))
    }

    /// Whether the same is at each port of the box.
    fn same_behind(&self, other: &Network, b: BoxId) -> bool
        ensures { IsTrue result ↔
            ((port : ℕ) → value_at self.now.ports port ≡ Some b → IsSamePort self.now other.now port) }
    {
        let ports = self.ports_at(b);
        for port in ports {
            if !self.same_port(other, port.id) {
                return false;
            }
        }
        true
    }

    fn same_port(&self, other: &Network, p: PortId) -> bool
        ensures { IsTrue result ↔ IsSamePort self.now other.now p }
    {
        self.far_port(p) == other.far_port(p)
            && same_place(self.terminal_at(p), other.terminal_at(p))
    }

    /// The other end of the port's link.
    fn far_port(&self, p: PortId) -> Option<PortId>
        ensures { result ≡ value_at self.now.links p }
    {
        Some(self.link_row(p)?.to)
    }

    /// The terminal at a port, and its role.
    fn terminal_at(&self, p: PortId) -> Option<(TermId, Role)>
        ensures { answered_place result ≡ terminal_at self.now p }
    {
        let terminal = terminal_by_port(&self.parts.terminals, p)?;
        Some((terminal.id, terminal.role))
    }

    /// Whether the box has the same rules in both.
    fn same_rules(&self, other: &Network, b: BoxId) -> bool
        ensures { IsTrue result ↔
            ((rule : Numbered) → rule.1.at ≡ b → Contains self.now.rules rule ↔ Contains other.now.rules rule) }
    {
        all_same(self.rules_at(b), other.rules_at(b))
    }
}

/// The terminal at a port. This goes over all terminals, of which there are few.
fn terminal_by_port(terminals: &[Terminal], p: PortId) -> Option<&Terminal>
    ensures { option_copied result ≡ find (λ terminal. terminal.port == p) terminals.now }
{
    terminals.iter().find(|terminal| terminal.port == p)
}

fn same_place(a: Option<(TermId, Role)>, b: Option<(TermId, Role)>) -> bool
    ensures { IsTrue result ↔ (answered_place a ≡ answered_place b) }
{
    match (a, b) {
        (None, None) => true,
        (Some((mine, role)), Some((theirs, other))) => {
            mine.get() == theirs.get() && role == other
        }
        (None, Some(_)) | (Some(_), None) => false,
    }
}

//! Whether two networks are the same.

ghost use Rattle.std.specs.Prelude.{◌≡◌, ◌↔◌, IsTrue};
ghost use Rattle.std.specs.List.{AllZip};
ghost use Rattle.std.specs.Option.{option_copied, option_map};
ghost use Rattle.net_types.specs.Parts.{terminal_of};
ghost use Rattle.net_types.specs.Rules.{in_port, action, numbered};

use super::Network;
use crate::ids::BoxId;
use crate::parts::{Link, Port, Terminal};
use crate::rule::{Action, InPort, Rule};
use ternary_bits::Pattern;

impl Network {
    /// Whether both have the same boxes, ports, links, terminals and rules, for headers of the same width.
    pub fn same(&self, other: &Network) -> bool
        ensures { IsTrue result ↔ (self.now ≡ other.now) }
    {
        let (mine, theirs) = (&self.parts, &other.parts);
        if mine.bits != theirs.bits {
            return false;
        }
        if !all_same(&mine.boxes, &theirs.boxes) {
            return false;
        }
        if !all_same(&mine.ports, &theirs.ports) {
            return false;
        }
        if !all_same(&mine.links, &theirs.links) {
            return false;
        }
        if !all_same(&mine.terminals, &theirs.terminals) {
            return false;
        }
        self.same_by_number(other)
    }

    /// Whether both have the same rules.
    fn same_by_number(&self, other: &Network) -> bool
        ensures { IsTrue result ↔ (self.now.rules ≡ other.now.rules) }
    {
        if self.rule_count() != other.rule_count() {
            return false;
        }
        for i in 0..self.rule_count() {
            if !same_at(self.rule_at(i), other.rule_at(i)) {
                return false;
            }
        }
        true
    }
}

/// What means the same as another in the model.
pub(super) trait Same {
    ghost use Rattle.std.specs.Prelude.{◌↔◌, IsTrue};

    ghost alike: { Self → Self → Type 0 };

    fn same(&self, other: &Self) -> bool
        ensures { IsTrue result ↔ alike self.now other.now };
}

pub(super) fn all_same<T: Same>(a: &[T], b: &[T]) -> bool
    ensures { IsTrue result ↔ AllZip T.alike a.now b.now }
{
    if a.len() != b.len() {
        return false;
    }
    for i in 0..a.len() {
        if !a[i].same(&b[i]) {
            return false;
        }
    }
    true
}

impl Same for BoxId {
    ghost use Rattle.std.specs.Prelude.{◌≡◌};

    ghost alike = { λ a b. a ≡ b };

    fn same(&self, other: &Self) -> bool {
        self.get() == other.get()
    }
}

impl Same for Port {
    ghost use Rattle.std.specs.Prelude.{◌≡◌};
    ghost use Rattle.net_types.specs.Parts.{port_of};

    ghost alike = { λ a b. port_of a ≡ port_of b };

    fn same(&self, other: &Self) -> bool {
        self.id.get() == other.id.get() && self.at.get() == other.at.get()
    }
}

impl Same for Link {
    ghost use Rattle.std.specs.Prelude.{◌≡◌};
    ghost use Rattle.net_types.specs.Parts.{link_of};

    ghost alike = { λ a b. link_of a ≡ link_of b };

    fn same(&self, other: &Self) -> bool {
        self.from.get() == other.from.get() && self.to.get() == other.to.get()
    }
}

impl Same for Pattern {
    ghost use Rattle.std.specs.Prelude.{◌≡◌};

    ghost alike = { λ a b. a ≡ b };

    fn same(&self, other: &Self) -> bool {
        Pattern::same(self, other)
    }
}

impl Same for Terminal {
    ghost use Rattle.std.specs.Prelude.{◌≡◌};
    ghost use Rattle.net_types.specs.Parts.{terminal_of};

    ghost alike = { λ a b. terminal_of a ≡ terminal_of b };

    fn same(&self, other: &Self) -> bool {
        self.id.get() == other.id.get() && same_terminal(self, other)
    }
}

/// Whether they stand at the same port in the same role, with the same permits and forbidden patterns.
pub(super) fn same_terminal(a: &Terminal, b: &Terminal) -> bool
    ensures { IsTrue result ↔ ((terminal_of a.now).1 ≡ (terminal_of b.now).1) }
{
    if a.port.get() != b.port.get() || a.role != b.role {
        return false;
    }
    if !all_same(&a.permits, &b.permits) {
        return false;
    }
    all_same(&a.forbids, &b.forbids)
}

impl Same for Rule {
    ghost use Rattle.std.specs.Prelude.{◌≡◌};
    ghost use Rattle.net_types.specs.Rules.{numbered};

    ghost alike = { λ a b. numbered a ≡ numbered b };

    fn same(&self, other: &Self) -> bool {
        self.id.get() == other.id.get()
            && self.at.get() == other.at.get()
            && self.priority == other.priority
            && same_in(self.inp, other.inp)
            && self.pattern.same(&other.pattern)
            && same_action(&self.action, &other.action)
    }
}

fn same_at(a: Option<&Rule>, b: Option<&Rule>) -> bool
    ensures { IsTrue result ↔ (option_map numbered (option_copied a.entry) ≡ option_map numbered (option_copied b.entry)) }
{
    match (a, b) {
        (None, None) => true,
        (Some(mine), Some(theirs)) => mine.same(theirs),
        (None, Some(_)) | (Some(_), None) => false,
    }
}

fn same_in(a: InPort, b: InPort) -> bool
    ensures { IsTrue result ↔ (in_port a ≡ in_port b) }
{
    match a {
        InPort::Any => match b {
            InPort::Any => true,
            InPort::One(_) => false,
        },
        InPort::One(mine) => match b {
            InPort::Any => false,
            InPort::One(theirs) => mine.get() == theirs.get(),
        },
    }
}

fn same_action(a: &Action, b: &Action) -> bool
    ensures { IsTrue result ↔ (action a.now ≡ action b.now) }
{
    match (a, b) {
        (Action::Drop, Action::Drop) => true,
        (
            Action::Out { port, rewrite },
            Action::Out {
                port: other,
                rewrite: another,
            },
        ) => port.get() == other.get() && rewrite.same(another),
        (Action::Drop, Action::Out { .. }) | (Action::Out { .. }, Action::Drop) => false,
    }
}

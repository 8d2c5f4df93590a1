ghost use Rattle.std.specs.Prelude.{◌≡◌, ◌==◌, ◌+◌, ◌<◌, ◌≤◌, ◌↔◌, ℕ, map, Some, IfOk, IfSome, IsSome, IsTrue, length, slice_get, is_some, option_and_then, All, AllPairs, Contains};
ghost use Rattle.std.specs.List.{filter, find};
ghost use Rattle.std.specs.Option.{option_copied, option_map};
ghost use Rattle.network_model.specs.Bits as model;
ghost use Rattle.network_model.specs.Network.{Numbered, Terminal as Placed, value_at, takes, precedes, hit};
ghost use Rattle.network_model.specs.Walk.{receiver_at, next, walk};
ghost use Rattle.network_model.specs.Classes.{walk_from};
ghost use Rattle.network_model.specs.WellFormed.{FitsRule, IsWellFormed, Rises};
ghost use Rattle.network_model.specs.Limits.{most_boxes, most_ports, most_terminals, most_rules};
ghost use Rattle.network_model.specs.Within.{IsWithin};
ghost use Rattle.net_types.specs.Parts.{network_of, port_of, terminal_of};
ghost use Rattle.net_types.specs.Rules.{model_of, numbered, rule_with};
ghost use Rattle.net_types.specs.Terminals.{place_of, answered_place};
ghost use Rattle.net_types.specs.Walks.{next_of, end_of, after_rules};

mod by_box;
mod change;
mod copy;
mod hit;
mod places;
mod precedence;
mod receivers;
mod same;
mod same_parts;

use super::ids::{BoxId, PortId, RuleId, TermId};
use super::parts::{Link, Parts, Port, Terminal};
use super::path::Path;
use super::row::{Row, row_of};
use super::rule::{Action, Rule};
use super::terminal::Role;
use super::walk::{End, Next};
use by_box::{ports_by_box, rows_of_box};
use hit::first_taking;
use no_memory::NoMemory;
use places::places_of;
use precedence::in_precedence;
use receivers::receivers_of;
use std::alloc::Global;
use std::marker::Model;
use ternary_bits::{Header, Pattern};

/// A terminal that receives, by its port.
#[derive(Clone, Copy, Debug, PartialEq, Eq)]
pub(crate) struct Receiver {
    port: PortId,
    term: TermId,
}

impl Row for Receiver {
    ghost number = { λ receiver. receiver.port };

    fn number(&self) -> u32 {
        self.port.get()
    }
}

/// Where the rule of a number stands among those by box and precedence. There are at most 65,536, so that a place takes 32 bits.
#[derive(Clone, Copy, Debug, PartialEq, Eq)]
pub(crate) struct RulePlace {
    id: RuleId,
    place: u32,
}

impl Row for RulePlace {
    ghost number = { λ row. row.id };

    fn number(&self) -> u32 {
        self.id.get()
    }
}

/// A network of boxes, their ports and rules, links between ports, and terminals at ports.
#[derive(Drop)]
pub struct Network {
    alloc: Global,
    parts: Parts,
    /// All rules by box, and those of a box in the order in which it tries them, so that a packet meets them in a row.
    rules: Vec<Rule>,
    /// Where each of them stands, by number.
    places: Vec<RulePlace>,
    /// The terminals that receive, by port.
    receivers: Vec<Receiver>,
    /// All ports by box, and those of a box by number.
    ports_by_box: Vec<Port>,
}

impl Model for Network {
    ghost use Rattle.network_model.specs.Network as model;

    ghost Value = { model.Network };

    ghost use Rattle.net_types.specs.Tables.{indexed, IsIndexed};

    ghost view = { λ n. indexed n.parts n.rules.items n.places.items };

    ghost invariant = { λ n. IsIndexed n.parts n.rules.items n.places.items n.receivers.items n.ports_by_box.items };
}

impl Network {
    /// The network that these parts and these rules by number make.
    pub(crate) fn assemble(
        alloc: Global,
        parts: Parts,
        by_number: Vec<Rule>,
    ) -> Result<Network, NoMemory>
        requires well_formed { IsWellFormed (network_of parts by_number.items) }
        requires within { IsWithin (network_of parts by_number.items) }
        ensures { IfOk result (λ net. net ≡ network_of parts by_number.items) }
    {
        let rules = in_precedence(alloc, &by_number)?;
        let places = places_of(alloc, &by_number, &rules)?;
        let receivers = receivers_of(alloc, &parts.terminals)?;
        let ports_by_box = ports_by_box(alloc, &parts.ports)?;
        Ok(Network {
            alloc,
            parts,
            rules,
            places,
            receivers,
            ports_by_box,
        })
    }

    /// How many bits its headers have.
    pub fn bits(&self) -> u32
        ensures width { result ≡ self.now.width }
        ensures well_formed { IsWellFormed self.now }
        ensures within { IsWithin self.now }
    {
        self.parts.bits
    }

    /// The rule of this number.
    pub fn rule(&self, id: RuleId) -> Option<&Rule>
        ensures { option_map numbered (option_copied result) ≡ rule_with id (value_at self.now.rules id) }
    {
        let row = row_of(&self.places, id.get())?;
        self.rules.get(row.place as usize)
    }

    /// The rule at a place, counted from 0, in number order.
    pub fn rule_at(&self, i: usize) -> Option<&Rule>
        ensures { option_map numbered (option_copied result) ≡ slice_get self.now.rules i }
    {
        let row = self.places.get(i)?;
        self.rules.get(row.place as usize)
    }

    /// How many rules there are.
    pub fn rule_count(&self) -> usize
        ensures count { result ≡ length self.now.rules }
        ensures limit { result ≤ most_rules }
    {
        self.places.len()
    }

    /// How many boxes there are.
    pub fn box_count(&self) -> usize
        ensures count { result ≡ length self.now.boxes }
        ensures limit { result ≤ most_boxes }
    {
        self.parts.boxes.len()
    }

    /// The box at a place, counted from 0, in number order.
    pub fn box_at(&self, i: usize) -> Option<BoxId>
        ensures { result ≡ slice_get self.now.boxes i }
    {
        self.parts.boxes.get(i).copied()
    }

    /// How many ports there are.
    pub fn port_count(&self) -> usize
        ensures count { result ≡ length self.now.ports }
        ensures limit { result ≤ most_ports }
    {
        self.parts.ports.len()
    }

    /// The port at a place, counted from 0, in number order.
    pub fn port_at(&self, i: usize) -> Option<PortId>
        ensures { result ≡ option_map (λ port. port.0) (slice_get self.now.ports i) }
    {
        Some(self.parts.ports.get(i)?.id)
    }

    /// The box of a port.
    pub fn box_of(&self, p: PortId) -> Option<BoxId>
        ensures { result ≡ value_at self.now.ports p }
    {
        Some(self.port_row(p)?.at)
    }

    /// How many ports have a link: two for each link.
    pub fn link_count(&self) -> usize
        ensures { result ≡ length self.now.links }
    {
        self.parts.links.len()
    }

    /// The port at a place among those that have a link, counted from 0, in number order, and the port at the other end.
    pub fn link_at(&self, i: usize) -> Option<(PortId, PortId)>
        ensures { result ≡ slice_get self.now.links i }
    {
        let link = self.parts.links.get(i)?;
        Some((link.from, link.to))
    }

    /// The port and the role of a terminal.
    pub fn term(&self, t: TermId) -> Option<(PortId, Role)>
        ensures { answered_place result ≡ place_of (value_at self.now.terminals t) }
    {
        let terminal = self.terminal_row(t)?;
        Some((terminal.port, terminal.role))
    }

    /// How many terminals there are.
    pub fn term_count(&self) -> usize
        ensures count { result ≡ length self.now.terminals }
        ensures limit { result ≤ most_terminals }
    {
        self.parts.terminals.len()
    }

    /// The terminal at a place, counted from 0, in number order.
    pub fn term_at(&self, i: usize) -> Option<TermId>
        ensures { result ≡ option_map (λ terminal. terminal.0) (slice_get self.now.terminals i) }
    {
        Some(self.parts.terminals.get(i)?.id)
    }

    /// The permits of a terminal, in the order in which they were declared.
    pub fn permits_of(&self, t: TermId) -> Option<&[Pattern]>
        ensures { option_map (λ permits. permits.now) result ≡ option_map (λ terminal. terminal.permits) (value_at self.now.terminals t) }
    {
        Some(&self.terminal_row(t)?.permits)
    }

    /// The forbidden patterns of a terminal, in the order in which they were declared.
    pub fn forbids_of(&self, t: TermId) -> Option<&[Pattern]>
        ensures { option_map (λ forbids. forbids.now) result ≡ option_map (λ terminal. terminal.forbids) (value_at self.now.terminals t) }
    {
        Some(&self.terminal_row(t)?.forbids)
    }

    /// The permit of a terminal at a place, counted from 0, in the order in which they were declared.
    pub fn permit_at(&self, t: TermId, i: usize) -> Option<&Pattern>
        ensures { option_copied result ≡ option_and_then (λ (terminal : Placed). slice_get terminal.permits i) (value_at self.now.terminals t) }
    {
        self.terminal_row(t)?.permits.get(i)
    }

    /// The forbidden pattern of a terminal at a place, counted from 0, in the order in which they were declared.
    pub fn forbid_at(&self, t: TermId, i: usize) -> Option<&Pattern>
        ensures { option_copied result ≡ option_and_then (λ (terminal : Placed). slice_get terminal.forbids i) (value_at self.now.terminals t) }
    {
        self.terminal_row(t)?.forbids.get(i)
    }

    /// The rules of a box in the order in which it tries them: the first that takes a packet hits it.
    pub fn rules_at(&self, at: BoxId) -> &[Rule]
        ensures first { (port : ℕ) (header : model.Header) → value_at self.now.ports port ≡ Some at →
            hit self.now port header ≡ find (takes self.now port header) (map numbered result.now) }
        ensures all { (rule : Numbered) → Contains (map numbered result.now) rule ↔ (Contains self.now.rules rule × (rule.1.at ≡ at)) }
        ensures order { AllPairs (λ a b. IsTrue (precedes (numbered a) (numbered b))) result.now }
        ensures fit { All (λ rule. FitsRule self.now (model_of rule)) result.now }
    {
        rows_of_box(&self.rules, at)
    }

    /// The rule of the port's box that takes this port and matches the header, and that no other such rule precedes.
    pub fn hit(&self, port: PortId, header: &Header) -> Option<&Rule>
        requires { length header.now ≡ self.now.width }
        ensures rule { option_map numbered (option_copied result) ≡ hit self.now port header.now }
        ensures fits { IfSome (option_copied result) (λ rule. FitsRule self.now (model_of rule)) }
    {
        let at = self.box_of(port)?;
        first_taking(self.rules_at(at), port, header)
    }

    /// What lies behind a port: a terminal that receives, the other end of a link, or nothing.
    pub fn next(&self, port: PortId) -> Next
        ensures { next_of result ≡ next self.now port }
    {
        if let Some(receiver) = self.receiver_row(port) {
            return Next::Term(receiver.term);
        }
        match self.link_row(port) {
            Some(link) => Next::Far(link.to),
            None => Next::Nothing,
        }
    }

    /// Walks one header from a terminal, for at most so many rules. The path is cleared and then has the rules in order.
    pub fn walk_one(&self, t: TermId, header: &Header, hops: u32, path: &mut Path) -> End
        requires width { length header.now ≡ self.now.width }
        requires terminal { IsSome (value_at self.now.terminals t) }
        requires room { hops ≤ path.old.room }
        ensures walk { walk_from self.now hops t header.now ≡ record { rules = path.new.rules; end = end_of result } }
        ensures room { path.new.room ≡ path.old.room }
    {
        path.clear();
        let Some(terminal) = self.terminal_row(t) else {
            unreachable!()
        };
        self.walk(terminal.port, *header, hops, path)
    }

    // The rules of the walk go behind those that the path has.
    fn walk(&self, mut port: PortId, mut header: Header, hops: u32, path: &mut Path) -> End
        requires width { length header ≡ self.now.width }
        requires room { length path.old.rules + hops ≤ path.old.room }
        ensures walk { after_rules path.old.rules (walk self.now hops port header) ≡ record { rules = path.new.rules; end = end_of result } }
        ensures room { path.new.room ≡ path.old.room }
    {
        for _ in 0..hops {
            let Some(rule) = self.hit(port, &header) else {
                return End::Unmatched;
            };
            let Action::Out { port: out, rewrite } = rule.action else {
                return End::Dropped { rule: rule.id };
            };
            path.add(rule.id);
            header = rewrite.apply(&header);
            match self.next(out) {
                Next::Term(term) => return End::Delivered { term, header },
                Next::Far(far) => port = far,
                Next::Nothing => return End::Lost { port: out },
            }
        }
        End::Overlong
    }

    /// The ports of a box, by rising numbers.
    fn ports_at(&self, at: BoxId) -> &[Port]
        ensures ports { map port_of result.now ≡ filter (λ port. port.1 == at) self.now.ports }
        ensures rises { Rises self.now.ports }
    {
        rows_of_box(&self.ports_by_box, at)
    }

    fn port_row(&self, p: PortId) -> Option<&Port>
        ensures { option_map (λ row. row.«at») (option_copied result) ≡ value_at self.now.ports p }
    {
        row_of(&self.parts.ports, p.get())
    }

    fn link_row(&self, p: PortId) -> Option<&Link>
        ensures { option_map (λ row. row.to) (option_copied result) ≡ value_at self.now.links p }
    {
        row_of(&self.parts.links, p.get())
    }

    fn receiver_row(&self, p: PortId) -> Option<&Receiver>
        ensures { option_map (λ row. row.term) (option_copied result) ≡ option_map (λ terminal. terminal.0) (receiver_at self.now p) }
    {
        row_of(&self.receivers, p.get())
    }

    fn terminal_row(&self, t: TermId) -> Option<&Terminal>
        ensures { option_map (λ row. (terminal_of row).1) (option_copied result) ≡ value_at self.now.terminals t }
    {
        row_of(&self.parts.terminals, t.get())
    }
}

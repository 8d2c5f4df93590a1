//! A network in memory as a link.
ghost use Rattle.std.specs.Prelude.{◌≡◌, ◌==◌, ◌≢◌, ℕ, ◌≤◌, ◌<◌, ◌+◌, [], ◌++◌, ◌∷◌, cond, None, Some, List, Option, length, take, All, IfOk, IsOk, OnOk, OnErr, IfSome, IfNone, IsErrOf, IsTrue, MatchOption, ◌↔◌, slice_index, position, nat_eq, option_map};
ghost use Rattle.std.specs.List.{list_any};
ghost use Rattle.std.specs.Arc.{arc_value};
ghost use Rattle.byte_edges.specs.Counts.{raised, Rose};
ghost use Rattle.byte_edges.specs.Links.{TakesAt, with_sent};
ghost use Rattle.probe_wire.specs.Carrying.{added};
ghost use Rattle.field_sim.specs.FieldValue.{FieldValue};
ghost use Rattle.network_model.specs.Field.{field};
ghost use Rattle.field_sim.specs.Listed.{waits, all_listed};

use crate::counts::one_more;
use byte_edges::{EdgeFault, Link};
use net_types::{End, Network, Path, RuleId, TermId};
use no_memory::NoMemory;
use probe_wire::{Probe, decode, encode};
use std::alloc::Global;
use std::marker::Model;
use std::sync::Arc;
use ternary_bits::Header;

/// A packet that waits at a terminal.
#[derive(Drop)]
pub(crate) struct Waiting {
    term: u32,
    bytes: [u8; 33],
}

/// The field of a network: a packet that is sent goes by the rules that its header meets, at most so many, and waits where it
/// arrives. Some rules lose all their packets.
#[derive(Drop)]
pub struct Field {
    net: Arc<Network>,
    hops: u32,
    bad: Vec<RuleId>,
    // Room for the rules of a walk.
    path: Path,
    waiting: Vec<Waiting>,
    sent: u64,
    given: u64,
    dry: u64,
}

impl Model for Field {
    ghost use Rattle.std.specs.Prelude.{◌≡◌};
    ghost use Rattle.std.specs.Arc.{arc_value};
    ghost use Rattle.field_sim.specs.FieldValue.{FieldValue};

    ghost Value = { FieldValue };

    ghost use Rattle.field_sim.specs.Listed.{all_listed};

    ghost view = { λ f. record { net = arc_value f.net; hops = f.hops; bad = f.bad.items; waiting = all_listed f.waiting.items; sent = f.sent; given = f.given; dry = f.dry } };

    ghost invariant = { λ f. f.path.room ≡ f.hops };
}

impl Field {
    /// A field in which nothing waits. The rules of `bad` lose their packets.
    pub fn new(
        alloc: Global,
        net: Arc<Network>,
        hops: u32,
        bad: &[RuleId],
    ) -> Result<Field, NoMemory>
        ensures { IfOk result (λ field. field ≡ record { net = arc_value net; hops = hops; bad = bad.now; waiting = []; sent = 0; given = 0; dry = 0 }) }
    {
        Ok(Field {
            net,
            hops,
            bad: bad.to_vec(alloc)?,
            path: Path::with_room(alloc, hops)?,
            waiting: Vec::new(alloc),
            sent: 0,
            given: 0,
            dry: 0,
        })
    }
}

/// What arrives of a packet that is sent, and where.
fn arrival(
    net: &Network,
    hops: u32,
    bad: &[RuleId],
    path: &mut Path,
    term: u32,
    packet: &[u8],
) -> Option<Waiting>
    requires { path.old.room ≡ hops }
    ensures arrival { waits result ≡ added net.now hops bad.now term packet.now }
    ensures room { path.new.room ≡ path.old.room }
{
    let Ok(probe) = decode(packet) else {
        return None;
    };
    if probe.header.bits() != net.bits() {
        return None;
    }
    let (term, header) = destination(net, hops, bad, path, TermId::of(term), &probe.header)?;
    Some(Waiting {
        term: term.get(),
        bytes: encode(&Probe { header, ..probe }),
    })
}

/// The terminal where a header arrives that is sent from a terminal, and the header with which it does.
fn destination(
    net: &Network,
    hops: u32,
    bad: &[RuleId],
    path: &mut Path,
    from: TermId,
    header: &Header,
) -> Option<(TermId, Header)>
    requires width { length header.now ≡ net.now.width }
    requires room { path.old.room ≡ hops }
    ensures field { result ≡ field net.now hops bad.now from header.now }
    ensures room { path.new.room ≡ path.old.room }
{
    net.term(from)?;
    let end = net.walk_one(from, header, hops, path);
    if meets(path, bad) {
        return None;
    }
    match end {
        End::Delivered { term, header } => Some((term, header)),
        _ => None,
    }
}

/// Whether one of the rules of the path is bad.
fn meets(path: &Path, bad: &[RuleId]) -> bool
    ensures { result ≡ list_any (λ r. list_any (nat_eq r) bad.now) path.now.rules }
{
    for i in 0..path.len() {
        if is_bad_at(path, i, bad) {
            return true;
        }
    }
    false
}

/// Whether the rule at a place of the path is bad.
fn is_bad_at(path: &Path, i: usize, bad: &[RuleId]) -> bool
    requires { i < length path.now.rules }
    ensures { result ≡ list_any (nat_eq (slice_index path.now.rules i)) bad.now }
{
    match path.get(i) {
        Some(rule) => lists(bad, rule),
        None => unreachable!(),
    }
}

fn lists(bad: &[RuleId], rule: RuleId) -> bool
    ensures { result ≡ list_any (nat_eq rule) bad.now }
{
    bad.iter().any(|own| rule == *own)
}

impl Link for Field {
    ghost waiting = { λ f. Some f.waiting };

    ghost adds = { λ f. added f.net f.hops f.bad };

    ghost faults = { λ _. 0 };

    ghost sent = { λ f. f.sent };

    ghost given = { λ f. f.given };

    ghost dry = { λ f. f.dry };

    fn send(&mut self, term: u32, packet: &[u8]) -> Result<(), EdgeFault>
        ensures added { OnOk result (Some self.new.waiting ≡ with_sent (Some self.old.waiting) (added self.old.net self.old.hops self.old.bad term packet.now)) }
        ensures kept { OnErr result (Some self.new.waiting ≡ Some self.old.waiting) }
        ensures rule { added self.new.net self.new.hops self.new.bad ≡ added self.old.net self.old.hops self.old.bad }
        ensures sent { OnOk result (self.new.sent ≡ raised self.old.sent 1) }
        ensures not_sent { OnErr result (self.new.sent ≡ self.old.sent) }
        ensures given { self.new.given ≡ self.old.given }
        ensures dry { self.new.dry ≡ self.old.dry }

        // It never fails.
        ensures failed { IsErrOf result EdgeFault.Failed → Rose 0 0 }

        // The field stays what it is.
        ensures net { self.new.net ≡ self.old.net }
        ensures hops { self.new.hops ≡ self.old.hops }
        ensures bad { self.new.bad ≡ self.old.bad }
    {
        let arrived = arrival(
            &self.net,
            self.hops,
            &self.bad,
            &mut self.path,
            term,
            packet,
        );
        if let Some(arrived) = arrived {
            self.waiting.reserve(1)?;
            self.waiting.push_reserved(arrived);
        }
        self.sent = one_more(self.sent);
        Ok(())
    }

    fn take(&mut self, term: u32, into: &mut [u8]) -> Result<Option<usize>, EdgeFault>
        requires { length into.old ≡ 64 }
        ensures taken { IfOk result (λ answer. TakesAt term (Some self.old.waiting) (Some self.new.waiting) answer into.new) }
        ensures room { IfOk result (λ answer. IfSome answer (λ n. n ≤ 64)) }
        ensures rule { added self.new.net self.new.hops self.new.bad ≡ added self.old.net self.old.hops self.old.bad }
        ensures given { IfOk result (λ answer. MatchOption answer (self.new.given ≡ self.old.given) (λ _. self.new.given ≡ raised self.old.given 1)) }
        ensures dry { IfOk result (λ answer. MatchOption answer (self.new.dry ≡ raised self.old.dry 1) (λ _. self.new.dry ≡ self.old.dry)) }
        ensures sent { self.new.sent ≡ self.old.sent }

        // It never fails and takes no memory.
        ensures ok { IsOk result }

        // The field stays what it is.
        ensures net { self.new.net ≡ self.old.net }
        ensures hops { self.new.hops ≡ self.old.hops }
        ensures bad { self.new.bad ≡ self.old.bad }
    {
        match first_at(&self.waiting, term) {
            Some(at) => {
                let packet = self.waiting.remove(at);
                put(&packet.bytes, into);
                self.given = one_more(self.given);
                Ok(Some(33))
            }
            None => {
                self.dry = one_more(self.dry);
                Ok(None)
            }
        }
    }
}

/// Puts a packet at the front.
fn put(bytes: &[u8; 33], into: &mut [u8])
    requires { length into.old ≡ 64 }
    ensures front { take 33 into.new ≡ bytes.now }
    ensures long { length bytes.now ≡ 33 }
{
    let packet = bytes.as_slice();
    into[..33].copy_from_slice(packet);
}

/// The place of the first packet that waits at the terminal.
fn first_at(waiting: &[Waiting], term: u32) -> Option<usize>
    ensures { result ≡ position (λ w. w.term == term) waiting.now }
{
    waiting.iter().position(|waiting| waiting.term == term)
}

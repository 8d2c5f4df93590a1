//! Which terminals can't be told apart.
ghost use Rattle.std.specs.Prelude.{◌≡◌, ◌≢◌, ◌++◌, ◌∷◌, [], ℕ, List, Contains, IfOk, IfSome, OnOk, IsTrue, AllPairs};
ghost use Rattle.std.specs.List.{filter};
ghost use Rattle.std.specs.Option.{option_map};
ghost use Rattle.network_model.specs.Network as model;
ghost use Rattle.net_types.specs.Rules.{in_port};
ghost use Rattle.twin_laws.specs.Twins.{IsUnnamed};
ghost use Rattle.twin_laws.specs.Shared.{AreTwinned};
ghost use Rattle.twin_groups.specs.Splits.{names_port, is_large, IsOpenAt, AreAlike, AreSplit};

use crate::copying::stands_for;
use net_types::{BoxId, InPort, Network, PortId, TermId};
use no_memory::NoMemory;
use std::alloc::Global;
use ternary_bits::Pattern;

/// The terminals of the list that can't be told apart from one that stands before them there, each behind the first such. Terminals are
/// twins that send into the same box, at ports that no rule of it names, with the same permits and forbidden patterns in the same order.
pub fn twins_among(
    alloc: Global,
    net: &Network,
    terminals: &[TermId],
) -> Result<Vec<(TermId, TermId)>, NoMemory>
    requires apart { AllPairs (λ a b. a ≢ b) terminals.now }
    ensures { IfOk result (λ twins. AreTwinned net.now terminals.now twins.items) }
{
    let mut twins = Vec::new(alloc);
    let mut leads = Vec::new(alloc);
    for terminal in terminals {
        place(net, &mut twins, &mut leads, *terminal)?;
    }
    Ok(twins)
}

/// The pairs that are worth it: all where at least as many terminals are left as there are workers, and otherwise those of more
/// terminals than there are workers, so that no worker is without work that it could have had.
pub fn worthwhile(
    alloc: Global,
    twins: Vec<(TermId, TermId)>,
    terminals: usize,
    workers: u32,
) -> Result<Vec<(TermId, TermId)>, NoMemory>
    ensures { (net : model.Network) (all : List ℕ) → AreTwinned net all twins.items → IfOk result (λ kept. AreTwinned net all kept.items) }
{
    if terminals.saturating_sub(twins.len()) >= workers as usize {
        return Ok(twins);
    }
    large(alloc, &twins, workers)
}

/// Those of more terminals than there are workers.
fn large(
    alloc: Global,
    twins: &[(TermId, TermId)],
    workers: u32,
) -> Result<Vec<(TermId, TermId)>, NoMemory>
    ensures { IfOk result (λ kept. kept.items ≡ filter (is_large twins.now workers) twins.now) }
{
    Ok(
        twins
            .iter()
            .copied()
            .filter(|twin| stands_for(twins, twin.0) > u64::from(workers))
            .collect(alloc)?,
    )
}

/// Takes one terminal more: it is a twin of one that leads, or it leads, or neither where it can't have twins.
fn place(
    net: &Network,
    twins: &mut Vec<(TermId, TermId)>,
    leads: &mut Vec<(BoxId, TermId)>,
    terminal: TermId,
) -> Result<(), NoMemory>
    ensures { OnOk result ((done : List ℕ) → (Contains done terminal → ⊥) → AreSplit net.now done leads.old.items twins.old.items
        → AreSplit net.now (done ++ terminal ∷ []) leads.new.items twins.new.items) }
{
    let Some(at) = open_at(net, terminal) else {
        return Ok(());
    };
    match lead_of(net, leads, at, terminal) {
        Some(lead) => Ok(twins.push((lead, terminal))?),
        None => Ok(leads.push((at, terminal))?),
    }
}

/// The box of a terminal that sends, at a port that no rule of the box names.
fn open_at(net: &Network, terminal: TermId) -> Option<BoxId>
    ensures { IfSome result (λ box. IsOpenAt net.now box terminal) }
{
    let (port, role) = net.term(terminal)?;
    let at = net.box_of(port)?;
    if role.sends() && is_unnamed(net, at, port) {
        Some(at)
    } else {
        None
    }
}

/// Whether no rule of the box takes the packets of this port alone.
fn is_unnamed(net: &Network, at: BoxId, port: PortId) -> bool
    ensures { IsTrue result → IsUnnamed net.now at port }
{
    for rule in net.rules_at(at) {
        if names(rule.inp, port) {
            return false;
        }
    }
    true
}

fn names(inp: InPort, port: PortId) -> bool
    ensures { result ≡ names_port (in_port inp) port }
{
    match inp {
        InPort::Any => false,
        InPort::One(own) => own == port,
    }
}

/// The one that leads at this box with the permits and forbidden patterns of the terminal.
fn lead_of(net: &Network, leads: &[(BoxId, TermId)], at: BoxId, terminal: TermId) -> Option<TermId>
    ensures { IfSome result (λ lead. Contains leads.now (at, lead) × AreAlike net.now lead terminal) }
{
    for pair in leads {
        let (home, lead) = *pair;
        if home == at && are_alike(net, lead, terminal) {
            return Some(lead);
        }
    }
    None
}

/// Whether both have the same permits and forbidden patterns.
fn are_alike(net: &Network, a: TermId, b: TermId) -> bool
    ensures { IsTrue result → AreAlike net.now a b }
{
    same_lists(net.permits_of(a), net.permits_of(b))
        && same_lists(net.forbids_of(a), net.forbids_of(b))
}

fn same_lists(a: Option<&[Pattern]>, b: Option<&[Pattern]>) -> bool
    ensures { IsTrue result → option_map (λ patterns. patterns.now) a.entry ≡ option_map (λ patterns. patterns.now) b.entry }
{
    match (a, b) {
        (Some(mine), Some(theirs)) => same_patterns(mine, theirs),
        (None, _) | (_, None) => false,
    }
}

fn same_patterns(a: &[Pattern], b: &[Pattern]) -> bool
    ensures { IsTrue result → a.now ≡ b.now }
{
    if a.len() != b.len() {
        return false;
    }
    for i in 0..a.len() {
        if !a[i].same(&b[i]) {
            return false;
        }
    }
    true
}

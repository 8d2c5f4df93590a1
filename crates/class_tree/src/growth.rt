//! Classes that grow rule by rule.
ghost use Rattle.std.specs.Prelude.{◌≡◌, ℕ, ◌+◌, ◌-◌, ◌^◌, ◌<◌, ◌≤◌, ◌++◌, List, length, min, IfOk, IsErrOf, OnOk, All};
ghost use Rattle.std.specs.Option.{ForSome, option_copied};
ghost use Rattle.network_model.specs.Network.{value_at};
ghost use Rattle.path_table.specs.declared.entry.Entry.{Entry};
ghost use Rattle.box_step.specs.Overlaps.{IsOverlaps};
ghost use Rattle.class_tree.specs.declared.class.Class.{Class};
ghost use Rattle.class_tree.specs.Belonging.{Belongs};
ghost use Rattle.network_model.specs.Table.{HasMore};
ghost use Rattle.class_tree.specs.Growth.{GoesOnFrom, IsGrown};
ghost use Rattle.class_tree.specs.Among.{arrivals, onwards, IsAmong, IsNext, HasTaken, HasJoined};

use crate::class::Class;
use crate::expansion::{Behind, Step, follow, out_port};
use crate::fault::GrowFault;
use box_step::{Overlaps, split_sent};
use net_types::{BoxId, Network, PortId};
use no_memory::NoMemory;
use path_table::Entry;
use std::alloc::Global;

/// What became of a class by some further rules.
#[derive(Debug, Drop)]
pub struct Grown {
    /// The entries that are delivered there.
    pub found: Vec<Entry>,
    /// The classes that still go on, as many rules further as was asked for, before the hop limit.
    pub rest: Vec<Class>,
    /// How many classes with a header were made below the given one, those that were delivered or ended included. It stays
    /// at the largest number.
    pub made: u64,
    /// The boxes that the packets came to before their last rule, by rising numbers.
    pub touched: Vec<BoxId>,
}

/// Expands a class by at most so many rules, and never past the hop limit in all.
pub fn grow(
    alloc: Global,
    net: &Network,
    class: &Class,
    hops: u32,
    depth: u32,
    limit: u32,
) -> Result<Grown, GrowFault>
    requires belongs { Belongs net.now class.now }
    requires depth { 1 ≤ depth }
    ensures grown { IfOk result (λ grown. IsGrown net.now hops class.now depth grown) }
    ensures within { IfOk result (λ grown. length grown.found.items ≤ limit) }
    ensures full { (most : ℕ) → IsErrOf result (GrowFault.Full most) → (most ≡ limit) × HasMore net.now hops (GoesOnFrom class.now depth) limit }
{
    grow_with(alloc, net, None, class, hops, depth, limit)
}

/// What `grow` gives, by the overlaps of the network where they are given.
pub fn grow_with(
    alloc: Global,
    net: &Network,
    over: Option<&Overlaps>,
    class: &Class,
    hops: u32,
    depth: u32,
    limit: u32,
) -> Result<Grown, GrowFault>
    requires over { ForSome (option_copied over) (IsOverlaps net.now) }
    requires belongs { Belongs net.now class.now }
    requires depth { 1 ≤ depth }
    ensures grown { IfOk result (λ grown. IsGrown net.now hops class.now depth grown) }
    ensures within { IfOk result (λ grown. length grown.found.items ≤ limit) }
    ensures full { (most : ℕ) → IsErrOf result (GrowFault.Full most) → (most ≡ limit) × HasMore net.now hops (GoesOnFrom class.now depth) limit }
{
    let mut grown = begin(alloc, net, class, hops)?;
    for _ in 0..depth {
        if grown.rest.is_empty() {
            return Ok(grown);
        }
        grown = further(alloc, net, over, grown, hops, limit)?;
    }
    Ok(grown)
}

/// The state of a class that has not grown yet.
fn begin(alloc: Global, net: &Network, class: &Class, hops: u32) -> Result<Grown, NoMemory>
    requires { Belongs net.now class.now }
    ensures grown { IfOk result (λ grown. IsGrown net.now hops class.now 0 grown) }
    ensures none { IfOk result (λ grown. length grown.found.items ≡ 0) }
{
    let mut rest = Vec::with_capacity(alloc, 1)?;
    if class.rules.len() < hops as usize && !class.space.is_empty() {
        rest.push(class.copy()?)?;
    }
    Ok(Grown {
        found: Vec::new(alloc),
        rest,
        made: 0,
        touched: Vec::new(alloc),
    })
}

/// The same grown by one more rule.
fn further(
    alloc: Global,
    net: &Network,
    over: Option<&Overlaps>,
    grown: Grown,
    hops: u32,
    limit: u32,
) -> Result<Grown, GrowFault>
    requires over { ForSome (option_copied over) (IsOverlaps net.now) }
    requires belong { All (Belongs net.now) grown.rest.items }
    requires short { All (λ class. length class.rules < hops) grown.rest.items }
    ensures grown { IfOk result (λ more. (base : Class) (depth : ℕ) → IsGrown net.now hops base depth grown → IsGrown net.now hops base (depth + 1) more) }
    ensures within { IfOk result (λ more. length grown.found.items ≤ limit → length more.found.items ≤ limit) }
    ensures full { (most : ℕ) → IsErrOf result (GrowFault.Full most) → (most ≡ limit)
        × ((base : Class) (depth : ℕ) → IsGrown net.now hops base depth grown → HasMore net.now hops (GoesOnFrom base (depth + 1)) limit) }
{
    let mut next = Grown {
        found: grown.found,
        rest: Vec::with_capacity(alloc, grown.rest.len())?,
        made: grown.made,
        touched: grown.touched,
    };
    for class in &grown.rest {
        touch(&mut next.touched, net, class.port)?;
        take_class(alloc, net, over, class, &mut next, hops, limit)?;
    }
    Ok(next)
}

/// Adds what the packets of a class come to by one more rule.
fn take_class(
    alloc: Global,
    net: &Network,
    over: Option<&Overlaps>,
    class: &Class,
    grown: &mut Grown,
    hops: u32,
    limit: u32,
) -> Result<(), GrowFault>
    requires over { ForSome (option_copied over) (IsOverlaps net.now) }
    requires belongs { Belongs net.now class.now }
    requires short { length class.now.rules < hops }
    ensures touched { OnOk result (grown.new.touched.items ≡ grown.old.touched.items) }
    ensures within { OnOk result (length grown.old.found.items ≤ limit → length grown.new.found.items ≤ limit) }
    ensures taken { OnOk result ((base : Class) (depth : ℕ) (lists : List (List ℕ)) → IsNext base depth lists class.now
        → IsAmong net.now hops base (depth + 1) lists grown.old → HasTaken net.now hops base (depth + 1) lists class.now grown.new) }
    ensures full { (most : ℕ) → IsErrOf result (GrowFault.Full most) → (most ≡ limit)
        × ((base : Class) (depth : ℕ) (lists : List (List ℕ)) → IsNext base depth lists class.now
        → IsAmong net.now hops base (depth + 1) lists grown.old → HasMore net.now hops (GoesOnFrom base (depth + 1)) limit) }
{
    // The rewrites of a well-formed network are as wide as its headers.
    prove_eq!(class.space.bits(), net.bits());
    let branches = split_sent(alloc, net, over, class.port, &class.space, &class.rewrite)?;
    for branch in branches {
        if let Some(port) = out_port(net, branch.rule) {
            let step = follow(net, class, branch, port)?;
            take_step(grown, step, hops, limit)?;
        }
    }
    Ok(())
}

/// Adds what lies behind one rule.
fn take_step(grown: &mut Grown, step: Step, hops: u32, limit: u32) -> Result<(), GrowFault>
    ensures found { OnOk result (grown.new.found.items ≡ grown.old.found.items ++ arrivals step.behind) }
    ensures rest { OnOk result (grown.new.rest.items ≡ grown.old.rest.items ++ onwards hops step.behind) }
    ensures made { OnOk result (grown.new.made ≡ min (grown.old.made + 1) (2 ^ 64 - 1)) }
    ensures touched { OnOk result (grown.new.touched.items ≡ grown.old.touched.items) }
    ensures within { OnOk result (length grown.old.found.items ≤ limit → length grown.new.found.items ≤ limit) }
    ensures full { (most : ℕ) → IsErrOf result (GrowFault.Full most) → (most ≡ limit) × (limit ≤ length grown.old.found.items)
        × ((e : Entry) × (step.behind ≡ Behind.Arrival e)) }
{
    grown.made = grown.made.saturating_add(1);
    match step.behind {
        Behind::Arrival(_) if grown.found.len() >= limit as usize => {
            return Err(GrowFault::Full { limit });
        }
        Behind::Arrival(entry) => grown.found.push(entry)?,
        Behind::Onward(class) if class.rules.len() < hops as usize => grown.rest.push(class)?,
        Behind::Onward(_) | Behind::Nothing => {}
    }
    Ok(())
}

/// Adds the box of a port.
fn touch(touched: &mut Vec<BoxId>, net: &Network, port: PortId) -> Result<(), NoMemory>
    ensures { OnOk result (HasJoined (λ box. value_at net.now.ports port ≡ Some box) touched.old.items touched.new.items) }
{
    let Some(at) = net.box_of(port) else {
        return Ok(());
    };
    if let Err(place) = touched.binary_search(&at) {
        touched.insert(place, at)?;
    }
    Ok(())
}

ghost use Rattle.std.specs.Prelude.{◌≡◌, ◌↔◌, IfOk, IsTrue, Contains, length, slice_get};
ghost use Rattle.std.specs.Arc.{arc_value};
ghost use Rattle.network_model.specs.Plan as model;
ghost use Rattle.network_model.specs.Plan.{IsPlan, reserved, idle};
ghost use Rattle.network_model.specs.Prefixes.{Touches};
ghost use Rattle.path_table.specs.Touching.{AreTouched};

use net_types::{BoxId, Network, RuleId, TermId};
use no_memory::NoMemory;
use path_table::{Table, Touched};
use std::marker::Model;
use std::sync::Arc;

/// The plan of a network and a hop limit, which it is by its type: the table, the probes in order of choice, the
/// reserved entries and the idle rules, and which terminals' packets come to which boxes.
#[derive(Drop)]
pub struct Plan {
    net: Arc<Network>,
    hops: u32,
    table: Table,
    touched: Touched,
    probes: Vec<u32>,
    reserved: Vec<u32>,
    idle: Vec<RuleId>,
}

impl Model for Plan {
    ghost use Rattle.std.specs.Prelude.{◌≡◌};
    ghost use Rattle.std.specs.Arc.{arc_value};
    ghost use Rattle.network_model.specs.Plan as model;
    ghost use Rattle.rule_cover.specs.PlanValue.{PlanValue, IsListed};

    ghost Value = { PlanValue };

    ghost view = { λ p. record { net = arc_value p.net; hops = p.hops; plan = record { table = p.table; probes = p.probes.items }; touched = p.touched } };

    ghost invariant = { λ p. IsListed (arc_value p.net) p.hops (record { table = p.table; probes = p.probes.items }) p.touched p.reserved.items p.idle.items };
}

impl Plan {
    /// The plan of these parts.
    pub(crate) fn of(
        net: Arc<Network>,
        hops: u32,
        table: Table,
        touched: Touched,
        probes: Vec<u32>,
        reserved: Vec<u32>,
        idle: Vec<RuleId>,
    ) -> Plan
        requires plan { IsPlan (arc_value net) hops (record { table = table; probes = probes.items }) }
        requires touched { AreTouched (arc_value net) hops touched }
        requires reserved { reserved.items ≡ model.reserved (record { table = table; probes = probes.items }) }
        requires idle { idle.items ≡ model.idle (arc_value net) (record { table = table; probes = probes.items }) }
        ensures { result ≡ record { net = arc_value net; hops = hops; plan = record { table = table; probes = probes.items }; touched = touched } }
    {
        Plan {
            net,
            hops,
            table,
            touched,
            probes,
            reserved,
            idle,
        }
    }

    /// The network that it is the plan of.
    pub fn net(&self) -> &Arc<Network>
        ensures net { arc_value result.now ≡ self.now.net }
        ensures is_plan { IsPlan self.now.net self.now.hops self.now.plan }
    {
        &self.net
    }

    /// The hop limit that it is the plan for.
    pub fn hops(&self) -> u32
        ensures hops { result ≡ self.now.hops }
        ensures is_plan { IsPlan self.now.net self.now.hops self.now.plan }
    {
        self.hops
    }

    /// The table. Entries are numbered from 1.
    pub fn table(&self) -> &Table
        ensures table { result.now ≡ self.now.plan.table }
        ensures is_plan { IsPlan self.now.net self.now.hops self.now.plan }
    {
        &self.table
    }

    /// How many probes there are.
    pub fn probe_count(&self) -> usize
        ensures { result ≡ length self.now.plan.probes }
    {
        self.probes.len()
    }

    /// The entry number of the probe at a place, counted from 0, in order of choice.
    pub fn probe(&self, i: usize) -> Option<u32>
        ensures { result ≡ slice_get self.now.plan.probes i }
    {
        self.probes.get(i).copied()
    }

    /// How many entries are no probe.
    pub fn reserved_count(&self) -> usize
        ensures { result ≡ length (reserved self.now.plan) }
    {
        self.reserved.len()
    }

    /// The entry number at a place, counted from 0, among the entries that are no probe, in table order.
    pub fn reserved(&self, i: usize) -> Option<u32>
        ensures { result ≡ slice_get (reserved self.now.plan) i }
    {
        self.reserved.get(i).copied()
    }

    /// How many rules are on no entry.
    pub fn idle_count(&self) -> usize
        ensures { result ≡ length (idle self.now.net self.now.plan) }
    {
        self.idle.len()
    }

    /// The rule at a place, counted from 0, among the rules on no entry, in number order.
    pub fn idle(&self, i: usize) -> Option<RuleId>
        ensures { result ≡ slice_get (idle self.now.net self.now.plan) i }
    {
        self.idle.get(i).copied()
    }

    /// Whether some packet that the terminal may send comes to the box within the hop limit.
    pub fn touches(&self, t: TermId, b: BoxId) -> bool
        ensures pairs { IsTrue result ↔ Contains self.now.touched (t, b) }
        ensures touches { IsTrue result ↔ Touches self.now.net self.now.hops t b }
    {
        self.touched.has(t, b)
    }

    /// The pairs of a terminal and a box that its packets come to within the hop limit.
    pub fn touched(&self) -> &Touched
        ensures pairs { result.now ≡ self.now.touched }
        ensures touched { AreTouched self.now.net self.now.hops self.now.touched }
    {
        &self.touched
    }

    /// The same plan once more, of the same network.
    pub fn copy(&self) -> Result<Plan, NoMemory>
        ensures { IfOk result (λ copy. copy ≡ self.now) }
    {
        Ok(Plan {
            net: Arc::try_clone(&self.net)?,
            hops: self.hops,
            table: self.table.copy()?,
            touched: self.touched.copy()?,
            probes: self.probes.clone()?,
            reserved: self.reserved.clone()?,
            idle: self.idle.clone()?,
        })
    }
}

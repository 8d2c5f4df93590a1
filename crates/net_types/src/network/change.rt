//! Changes of a network's rules.

ghost use Rattle.std.specs.Prelude.{◌≡◌, ◌<◌, ◌&&◌, None, length, IsSome, OnOk, OnErr, MatchResult};
ghost use Rattle.network_model.specs.Network.{value_at};
ghost use Rattle.network_model.specs.Building.{with_rule, without_rule};
ghost use Rattle.network_model.specs.WellFormed.{FitsRule};
ghost use Rattle.net_types.specs.Refusals.{Answers, rule_refusal, has_box, has_port_at, known_in, known_out};
ghost use Rattle.net_types.specs.Rules.{in_port, action, model_of};
ghost use Rattle.network_model.specs.Limits.{most_rules};

use super::places::{lower, raise};
use super::precedence::place_in_precedence;
use super::{Network, RulePlace};
use crate::fault::NetFault;
use crate::ids::{BoxId, PortId, RuleId};
use crate::limits;
use crate::row::{place_of, row_of};
use crate::rule::{Action, InPort, Rule};
use no_memory::NoMemory;

impl Network {
    /// A further rule. One that is refused leaves the network as it was.
    pub fn add_rule(&mut self, rule: Rule) -> Result<(), NetFault>
        ensures answer { Answers result (rule_refusal self.old rule.id (model_of rule)) }
        ensures ok { OnOk result (self.new ≡ with_rule rule.id (model_of rule) self.old) }
        ensures err { OnErr result (self.new ≡ self.old) }
    {
        if self.rule(rule.id).is_some() {
            return Err(NetFault::Twice);
        }
        if !self.has_places(&rule) {
            return Err(NetFault::Unknown);
        }
        if self.rule_count() >= limits::RULES {
            return Err(NetFault::Limit);
        }
        if !rule.is_as_wide(self.parts.bits) {
            return Err(NetFault::Width);
        }
        self.put_rule(rule)?;
        Ok(())
    }

    /// Takes a rule away. This takes no memory: the one fault is Unknown, where there is no rule of this number.
    pub fn cut_rule(&mut self, id: RuleId) -> Result<(), NetFault>
        ensures answer { MatchResult result
            (λ _. IsSome (value_at self.old.rules id))
            (λ fault. (fault ≡ NetFault.Unknown) × (value_at self.old.rules id ≡ None)) }
        ensures ok { OnOk result (self.new ≡ without_rule id self.old) }
        ensures err { OnErr result (self.new ≡ self.old) }
    {
        if self.rule(id).is_none() {
            return Err(NetFault::Unknown);
        }
        self.take_rule(id);
        Ok(())
    }

    fn take_rule(&mut self, id: RuleId)
        requires { IsSome (value_at self.old.rules id) }
        ensures { self.new ≡ without_rule id self.old }
    {
        let Ok(row) = place_of(&self.places, id.get()) else {
            unreachable!()
        };
        let gap = self.places[row].place;
        let _ = self.places.remove(row);
        let _ = self.rules.remove(gap as usize);
        lower(&mut self.places, gap);
    }

    fn put_rule(&mut self, rule: Rule) -> Result<(), NoMemory>
        requires free { value_at self.old.rules rule.id ≡ None }
        requires fits { FitsRule self.old (model_of rule) }
        requires room { length self.old.rules < most_rules }
        ensures ok { OnOk result (self.new ≡ with_rule rule.id (model_of rule) self.old) }
        ensures err { OnErr result (self.new ≡ self.old) }
    {
        let Err(row) = place_of(&self.places, rule.id.get()) else {
            unreachable!()
        };
        let at = place_in_precedence(&self.rules, &rule);
        let place = at as u32;
        self.places.insert(row, RulePlace { id: rule.id, place })?;
        if self.rules.insert(at, rule).is_err() {
            let _ = self.places.remove(row);
            return Err(NoMemory);
        }
        raise(&mut self.places, rule.id, place);
        Ok(())
    }

    /// Whether the rule's box is there, and its ports are of that box.
    fn has_places(&self, rule: &Rule) -> bool
        ensures { result ≡ (has_box self.now rule.now.«at»
            && (known_in self.now rule.now.«at» (in_port rule.now.inp) && known_out self.now rule.now.«at» (action rule.now.action))) }
    {
        let from = match rule.inp {
            InPort::Any => true,
            InPort::One(port) => self.has_port_at(port, rule.at),
        };
        let to = match rule.action {
            Action::Drop => true,
            Action::Out { port, .. } => self.has_port_at(port, rule.at),
        };
        self.has_box(rule.at) && (from && to)
    }

    pub(super) fn has_box(&self, id: BoxId) -> bool
        ensures { result ≡ has_box self.now id }
    {
        row_of(&self.parts.boxes, id.get()).is_some()
    }

    fn has_port_at(&self, port: PortId, at: BoxId) -> bool
        ensures { result ≡ has_port_at self.now at port }
    {
        self.box_of(port) == Some(at)
    }
}

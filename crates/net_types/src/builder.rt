ghost use Rattle.std.specs.Prelude.{◌≡◌, ℕ, ◌&&◌, [], ◌∷◌, ◌++◌, map, length, is_some, IfOk, OnOk, OnErr};
ghost use Rattle.network_model.specs.Building.{empty, with_box, with_port, with_link, with_terminal, with_permit, with_forbid, with_rule};
ghost use Rattle.net_types.specs.Refusals.{Answers, width_refusal, box_refusal, port_refusal, link_refusal, terminal_refusal, permit_refusal, forbid_refusal, pattern_refusal, rule_refusal, has_box, has_port, has_port_at, is_linked, is_edge, known_in, known_out};
ghost use Rattle.network_model.specs.Network.{value_at};
ghost use Rattle.std.specs.BTreeMap.{values};
ghost use Rattle.net_types.specs.Parts.{port_at, link_at};
ghost use Rattle.net_types.specs.Rules.{model_of};
ghost use Rattle.net_types.specs.Terminals.{role_of};

use super::fault::NetFault;
use super::ids::{BoxId, PortId, RuleId, TermId};
use super::limits;
use super::network::Network;
use super::parts::{Link, Parts, Port, Terminal};
use super::rule::{Action, InPort, Rule};
use super::terminal::Role;
use no_memory::NoMemory;
use std::alloc::Global;
use std::collections::{BTreeMap, BTreeSet};
use std::marker::Model;
use ternary_bits::Pattern;

/// A network that is being built, part by part. A part that is refused leaves it as it was.
#[derive(Drop)]
pub struct NetBuilder {
    alloc: Global,
    bits: u32,
    boxes: BTreeSet<BoxId>,
    /// The box of each port.
    ports: BTreeMap<PortId, BoxId>,
    /// The other end of the link at a port.
    links: BTreeMap<PortId, PortId>,
    terminals: BTreeMap<TermId, Terminal>,
    /// The ports at which terminals stand.
    edges: BTreeSet<PortId>,
    rules: BTreeMap<RuleId, Rule>,
}

impl Model for NetBuilder {
    ghost use Rattle.network_model.specs.Network as model;

    ghost Value = { model.Network };

    ghost use Rattle.net_types.specs.Built.{built, IsBuilt};

    ghost view = { built };

    ghost invariant = { IsBuilt };
}

impl NetBuilder {
    /// A network without parts, for headers of so many bits.
    pub fn new(alloc: Global, bits: u32) -> Result<NetBuilder, NetFault>
        ensures answer { Answers result (width_refusal bits) }
        ensures ok { IfOk result (λ builder. builder ≡ empty bits) }
    {
        if bits == 0 || bits > limits::BITS {
            return Err(NetFault::Width);
        }
        Ok(NetBuilder {
            alloc,
            bits,
            boxes: BTreeSet::new(alloc),
            ports: BTreeMap::new(alloc),
            links: BTreeMap::new(alloc),
            terminals: BTreeMap::new(alloc),
            edges: BTreeSet::new(alloc),
            rules: BTreeMap::new(alloc),
        })
    }

    /// A box.
    pub fn add_box(&mut self, id: BoxId) -> Result<(), NetFault>
        ensures answer { Answers result (box_refusal self.old id) }
        ensures ok { OnOk result (self.new ≡ with_box id self.old) }
        ensures err { OnErr result (self.new ≡ self.old) }
    {
        if self.boxes.contains(&id) {
            return Err(NetFault::Twice);
        }
        if self.boxes.len() >= limits::BOXES {
            return Err(NetFault::Limit);
        }
        self.boxes.insert(id)?;
        Ok(())
    }

    /// A port of a box. Numbers of ports are unique in the network.
    pub fn add_port(&mut self, id: PortId, at: BoxId) -> Result<(), NetFault>
        ensures answer { Answers result (port_refusal self.old id at) }
        ensures ok { OnOk result (self.new ≡ with_port id at self.old) }
        ensures err { OnErr result (self.new ≡ self.old) }
    {
        if self.has_port(id) {
            return Err(NetFault::Twice);
        }
        if !self.has_box(at) {
            return Err(NetFault::Unknown);
        }
        if self.ports.len() >= limits::PORTS {
            return Err(NetFault::Limit);
        }
        self.ports.insert(id, at)?;
        Ok(())
    }

    /// A link between two ports, both ways.
    pub fn add_link(&mut self, a: PortId, b: PortId) -> Result<(), NetFault>
        ensures answer { Answers result (link_refusal self.old a b) }
        ensures ok { OnOk result (self.new ≡ with_link a b self.old) }
        ensures err { OnErr result (self.new ≡ self.old) }
    {
        if !self.has_port(a) || !self.has_port(b) {
            return Err(NetFault::Unknown);
        }
        if a == b || self.is_linked(a) || self.is_linked(b) {
            return Err(NetFault::LinkTaken);
        }
        if self.is_edge(a) || self.is_edge(b) {
            return Err(NetFault::EdgeLinked);
        }
        self.links.insert(b, a)?;
        if self.links.insert(a, b).is_err() {
            let _ = self.links.remove(&b);
            return Err(NetFault::NoMemory);
        }
        Ok(())
    }

    /// A terminal at a port.
    pub fn add_term(&mut self, id: TermId, at: PortId, role: Role) -> Result<(), NetFault>
        ensures answer { Answers result (terminal_refusal self.old id at) }
        ensures ok { OnOk result (self.new ≡ with_terminal id at (role_of role) self.old) }
        ensures err { OnErr result (self.new ≡ self.old) }
    {
        if self.has_terminal(id) {
            return Err(NetFault::Twice);
        }
        if !self.has_port(at) {
            return Err(NetFault::Unknown);
        }
        if self.terminals.len() >= limits::TERMINALS {
            return Err(NetFault::Limit);
        }
        if self.is_edge(at) {
            return Err(NetFault::PortTaken);
        }
        if self.is_linked(at) {
            return Err(NetFault::EdgeLinked);
        }
        let terminal = Terminal {
            id,
            port: at,
            role,
            permits: Vec::new(self.alloc),
            forbids: Vec::new(self.alloc),
        };
        self.edges.insert(at)?;
        if self.terminals.insert(id, terminal).is_err() {
            let _ = self.edges.remove(&at);
            return Err(NetFault::NoMemory);
        }
        Ok(())
    }

    /// Headers that the terminal may send.
    pub fn permit(&mut self, t: TermId, p: Pattern) -> Result<(), NetFault>
        ensures answer { Answers result (permit_refusal self.old t p) }
        ensures ok { OnOk result (self.new ≡ with_permit t p self.old) }
        ensures err { OnErr result (self.new ≡ self.old) }
    {
        let Some(terminal) = self.terminals.get_mut(&t) else {
            return Err(NetFault::Unknown);
        };
        add_pattern(&mut terminal.permits, limits::PERMITS, self.bits, p)
    }

    /// Headers that the terminal may not send, whatever it permits.
    pub fn forbid(&mut self, t: TermId, p: Pattern) -> Result<(), NetFault>
        ensures answer { Answers result (forbid_refusal self.old t p) }
        ensures ok { OnOk result (self.new ≡ with_forbid t p self.old) }
        ensures err { OnErr result (self.new ≡ self.old) }
    {
        let Some(terminal) = self.terminals.get_mut(&t) else {
            return Err(NetFault::Unknown);
        };
        add_pattern(&mut terminal.forbids, limits::FORBIDS, self.bits, p)
    }

    /// A rule of a box.
    pub fn add_rule(&mut self, rule: Rule) -> Result<(), NetFault>
        ensures answer { Answers result (rule_refusal self.old rule.id (model_of rule)) }
        ensures ok { OnOk result (self.new ≡ with_rule rule.id (model_of rule) self.old) }
        ensures err { OnErr result (self.new ≡ self.old) }
    {
        if self.has_rule(rule.id) {
            return Err(NetFault::Twice);
        }
        if !self.has_places(&rule) {
            return Err(NetFault::Unknown);
        }
        if self.rules.len() >= limits::RULES {
            return Err(NetFault::Limit);
        }
        if !rule.is_as_wide(self.bits) {
            return Err(NetFault::Width);
        }
        // A rule that is moved whole gets no generated proof.
        self.rules.insert(
            rule.id,
            Rule {
                inp: rule.inp,
                ..rule
            },
        )?;
        Ok(())
    }

    /// The network that was built.
    pub fn finish(self) -> Result<Network, NoMemory>
        ensures { IfOk result (λ net. net ≡ self) }
    {
        let alloc = self.alloc;
        let parts = Parts {
            bits: self.bits,
            boxes: listed_boxes(self.boxes, alloc)?,
            ports: listed_ports(self.ports, alloc)?,
            links: listed_links(self.links, alloc)?,
            terminals: listed_terminals(self.terminals, alloc)?,
        };
        let rules = listed_rules(self.rules, alloc)?;
        Network::assemble(alloc, parts, rules)
    }

    /// Whether there is such a box.
    fn has_box(&self, id: BoxId) -> bool
        ensures { result ≡ has_box self.now id }
    {
        self.boxes.contains(&id)
    }

    fn has_port(&self, id: PortId) -> bool
        ensures { result ≡ has_port self.now id }
    {
        self.ports.contains_key(&id)
    }

    fn has_port_at(&self, id: PortId, at: BoxId) -> bool
        ensures { result ≡ has_port_at self.now at id }
    {
        self.ports.get(&id).copied() == Some(at)
    }

    fn is_linked(&self, id: PortId) -> bool
        ensures { result ≡ is_linked self.now id }
    {
        self.links.contains_key(&id)
    }

    fn is_edge(&self, id: PortId) -> bool
        ensures { result ≡ is_edge self.now id }
    {
        self.edges.contains(&id)
    }

    fn has_terminal(&self, id: TermId) -> bool
        ensures { result ≡ is_some (value_at self.now.terminals id) }
    {
        self.terminals.contains_key(&id)
    }

    fn has_rule(&self, id: RuleId) -> bool
        ensures { result ≡ is_some (value_at self.now.rules id) }
    {
        self.rules.contains_key(&id)
    }

    /// Whether the rule's box is there and the ports that it names are of that box.
    fn has_places(&self, rule: &Rule) -> bool
        ensures { result ≡ (has_box self.now rule.now.at && (known_in self.now rule.now.at (model_of rule.now).inp && known_out self.now rule.now.at (model_of rule.now).action)) }
    {
        self.has_box(rule.at) && self.has_in_port(rule) && self.has_out_port(rule)
    }

    fn has_in_port(&self, rule: &Rule) -> bool
        ensures { result ≡ known_in self.now rule.now.at (model_of rule.now).inp }
    {
        match rule.inp {
            InPort::Any => true,
            InPort::One(port) => self.has_port_at(port, rule.at),
        }
    }

    fn has_out_port(&self, rule: &Rule) -> bool
        ensures { result ≡ known_out self.now rule.now.at (model_of rule.now).action }
    {
        match rule.action {
            Action::Drop => true,
            Action::Out { port, .. } => self.has_port_at(port, rule.at),
        }
    }
}

/// One more pattern of a terminal.
fn add_pattern(
    patterns: &mut Vec<Pattern>,
    most: usize,
    bits: u32,
    pattern: Pattern,
) -> Result<(), NetFault>
    ensures answer { Answers result (pattern_refusal most (length patterns.old.items) bits pattern) }
    ensures ok { OnOk result (patterns.new.items ≡ patterns.old.items ++ pattern ∷ []) }
    ensures err { OnErr result (patterns.new.items ≡ patterns.old.items) }
{
    if patterns.len() >= most {
        return Err(NetFault::Limit);
    }
    if pattern.bits() != bits {
        return Err(NetFault::Width);
    }
    patterns.push(pattern)?;
    Ok(())
}

fn listed_boxes(boxes: BTreeSet<BoxId>, alloc: Global) -> Result<Vec<BoxId>, NoMemory>
    ensures { IfOk result (λ list. list.items ≡ boxes.keys) }
{
    Ok(boxes.into_iter().collect(alloc)?)
}

fn listed_ports(ports: BTreeMap<PortId, BoxId>, alloc: Global) -> Result<Vec<Port>, NoMemory>
    ensures { IfOk result (λ list. list.items ≡ map port_at ports.entries) }
{
    Ok(
        ports
            .into_iter()
            .map(|(id, at)| Port { id, at })
            .collect(alloc)?,
    )
}

fn listed_links(links: BTreeMap<PortId, PortId>, alloc: Global) -> Result<Vec<Link>, NoMemory>
    ensures { IfOk result (λ list. list.items ≡ map link_at links.entries) }
{
    Ok(
        links
            .into_iter()
            .map(|(from, to)| Link { from, to })
            .collect(alloc)?,
    )
}

fn listed_terminals(
    terminals: BTreeMap<TermId, Terminal>,
    alloc: Global,
) -> Result<Vec<Terminal>, NoMemory>
    ensures { IfOk result (λ list. list.items ≡ values terminals) }
{
    Ok(terminals.into_values().collect(alloc)?)
}

fn listed_rules(rules: BTreeMap<RuleId, Rule>, alloc: Global) -> Result<Vec<Rule>, NoMemory>
    ensures { IfOk result (λ list. list.items ≡ values rules) }
{
    Ok(rules.into_values().collect(alloc)?)
}

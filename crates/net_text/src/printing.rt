//! The text of a whole network.

ghost use Rattle.std.specs.Prelude.{◌≡◌, ◌++◌, IfOk, OnOk, Some, map};
ghost use Rattle.std.specs.List.{flat_map};
ghost use Rattle.network_model.specs.Network as model;
ghost use Rattle.network_model.specs.Network.{value_at};
ghost use Rattle.network_model.specs.WellFormed.{IsWellFormed};
ghost use Rattle.net_types.specs.Parts.{IsWithin};
ghost use Rattle.net_text.specs.Declarations.{DeclareBox, DeclarePort, DeclarePermit, DeclareForbid, DeclareTerminal, DeclareRule};
ghost use Rattle.net_text.specs.Printing.{head_line, links_of, permits_of, forbids_of, network_text};
ghost use Rattle.net_text.specs.Putting.{PutsAll};
ghost use Rattle.net_text.specs.Text.{Spells};

use super::spelling::{
    put_box, put_forbid, put_link, put_permit, put_port, put_rule, put_terminal,
};
use net_types::{Network, TermId, limits};
use no_memory::NoMemory;
use std::alloc::Global;
use text_lines::put_line;

/// The text of a network, version 2: the head, and then a line for each box, port, link, terminal, permit, forbidden
/// pattern and rule. Each line ends with a line feed. A link stands by its lower port, and a rewrite that keeps all bits is
/// left out.
///
/// Reading the text gives the network again.
pub fn print(alloc: Global, net: &Network) -> Result<Vec<u8>, NoMemory>
    ensures text { IfOk result (λ text. text.items ≡ network_text net.now) }
    ensures back { IfOk result (λ text. Spells text.items net.now) }
{
    let mut text = Vec::new(alloc);
    put_head(&mut text, net.bits())?;
    put_boxes(&mut text, net)?;
    put_ports(&mut text, net)?;
    put_links(&mut text, net)?;
    put_terminals(&mut text, net)?;
    put_permits(&mut text, net)?;
    put_forbids(&mut text, net)?;
    put_rules(&mut text, net)?;
    Ok(text)
}

fn put_head(text: &mut Vec<u8>, bits: u32) -> Result<(), NoMemory>
    ensures { OnOk result (text.new.items ≡ text.old.items ++ head_line bits) }
{
    put_line(text, b"atpg-net 2", &[bits as usize])
}

fn put_boxes(text: &mut Vec<u8>, net: &Network) -> Result<(), NoMemory>
    ensures { OnOk result (PutsAll text.old.items text.new.items (map DeclareBox net.now.boxes)) }
{
    for place in 0..net.box_count() {
        put_box(text, net.box_at(place).unwrap())?;
    }
    Ok(())
}

fn put_ports(text: &mut Vec<u8>, net: &Network) -> Result<(), NoMemory>
    requires well_formed { IsWellFormed net.now }
    requires within { IsWithin net.now }
    ensures { OnOk result (PutsAll text.old.items text.new.items (map (λ p. DeclarePort p.0 p.1) net.now.ports)) }
{
    for place in 0..limits::PORTS {
        let Some(port) = net.port_at(place) else {
            return Ok(());
        };
        put_port(text, port, net.box_of(port).unwrap())?;
    }
    Ok(())
}

fn put_links(text: &mut Vec<u8>, net: &Network) -> Result<(), NoMemory>
    ensures { OnOk result (PutsAll text.old.items text.new.items (links_of net.now.links)) }
{
    for place in 0..net.link_count() {
        let (port, other) = net.link_at(place).unwrap();
        if port.get() < other.get() {
            put_link(text, port, other)?;
        }
    }
    Ok(())
}

fn put_terminals(text: &mut Vec<u8>, net: &Network) -> Result<(), NoMemory>
    requires well_formed { IsWellFormed net.now }
    requires within { IsWithin net.now }
    ensures { OnOk result (PutsAll text.old.items text.new.items (map (λ t. DeclareTerminal t.0 t.1.port t.1.role) net.now.terminals)) }
{
    for place in 0..limits::TERMINALS {
        let Some(terminal) = net.term_at(place) else {
            return Ok(());
        };
        let (port, role) = net.term(terminal).unwrap();
        put_terminal(text, terminal, port, role)?;
    }
    Ok(())
}

fn put_permits(text: &mut Vec<u8>, net: &Network) -> Result<(), NoMemory>
    requires well_formed { IsWellFormed net.now }
    requires within { IsWithin net.now }
    ensures { OnOk result (PutsAll text.old.items text.new.items (flat_map permits_of net.now.terminals)) }
{
    for place in 0..limits::TERMINALS {
        let Some(terminal) = net.term_at(place) else {
            return Ok(());
        };
        put_permits_of(text, net, terminal)?;
    }
    Ok(())
}

fn put_permits_of(text: &mut Vec<u8>, net: &Network, terminal: TermId) -> Result<(), NoMemory>
    requires within { IsWithin net.now }
    ensures { OnOk result ((t : model.Terminal) → value_at net.now.terminals terminal ≡ Some t
        → PutsAll text.old.items text.new.items (map (DeclarePermit terminal) t.permits)) }
{
    for place in 0..limits::PERMITS {
        let Some(pattern) = net.permit_at(terminal, place) else {
            return Ok(());
        };
        put_permit(text, terminal, pattern)?;
    }
    Ok(())
}

fn put_forbids(text: &mut Vec<u8>, net: &Network) -> Result<(), NoMemory>
    requires well_formed { IsWellFormed net.now }
    requires within { IsWithin net.now }
    ensures { OnOk result (PutsAll text.old.items text.new.items (flat_map forbids_of net.now.terminals)) }
{
    for place in 0..limits::TERMINALS {
        let Some(terminal) = net.term_at(place) else {
            return Ok(());
        };
        put_forbids_of(text, net, terminal)?;
    }
    Ok(())
}

fn put_forbids_of(text: &mut Vec<u8>, net: &Network, terminal: TermId) -> Result<(), NoMemory>
    requires within { IsWithin net.now }
    ensures { OnOk result ((t : model.Terminal) → value_at net.now.terminals terminal ≡ Some t
        → PutsAll text.old.items text.new.items (map (DeclareForbid terminal) t.forbids)) }
{
    for place in 0..limits::FORBIDS {
        let Some(pattern) = net.forbid_at(terminal, place) else {
            return Ok(());
        };
        put_forbid(text, terminal, pattern)?;
    }
    Ok(())
}

fn put_rules(text: &mut Vec<u8>, net: &Network) -> Result<(), NoMemory>
    requires { IsWellFormed net.now }
    ensures { OnOk result (PutsAll text.old.items text.new.items (map (λ r. DeclareRule r.0 r.1) net.now.rules)) }
{
    for place in 0..net.rule_count() {
        put_rule(text, net.rule_at(place).unwrap())?;
    }
    Ok(())
}

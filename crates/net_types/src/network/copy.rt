//! The copy of a network.

ghost use Rattle.std.specs.Prelude.{◌≡◌, map, IfOk};
ghost use Rattle.net_types.specs.Parts.{terminal_of};
ghost use Rattle.net_types.specs.Tables.{IsCopy};

use super::Network;
use crate::parts::{Parts, Terminal};
use no_memory::NoMemory;
use std::alloc::Global;

impl Network {
    /// The same network once more.
    pub fn copy(&self) -> Result<Network, NoMemory>
        ensures { IfOk result (λ copy. copy ≡ self.now) }
    {
        Ok(Network {
            alloc: self.alloc,
            parts: copy_parts(self.alloc, &self.parts)?,
            rules: Vec::from_slice(self.alloc, &self.rules)?,
            places: Vec::from_slice(self.alloc, &self.places)?,
            receivers: Vec::from_slice(self.alloc, &self.receivers)?,
            ports_by_box: Vec::from_slice(self.alloc, &self.ports_by_box)?,
        })
    }
}

fn copy_parts(alloc: Global, parts: &Parts) -> Result<Parts, NoMemory>
    ensures { IfOk result (λ copy. IsCopy copy parts.now) }
{
    Ok(Parts {
        bits: parts.bits,
        boxes: Vec::from_slice(alloc, &parts.boxes)?,
        ports: Vec::from_slice(alloc, &parts.ports)?,
        links: Vec::from_slice(alloc, &parts.links)?,
        terminals: copy_terminals(alloc, &parts.terminals)?,
    })
}

fn copy_terminals(alloc: Global, terminals: &[Terminal]) -> Result<Vec<Terminal>, NoMemory>
    ensures { IfOk result (λ copies. map terminal_of copies.items ≡ map terminal_of terminals.now) }
{
    let mut copies = Vec::with_capacity(alloc, terminals.len())?;
    for terminal in terminals {
        copies.push(copy_terminal(alloc, terminal)?)?;
    }
    Ok(copies)
}

fn copy_terminal(alloc: Global, terminal: &Terminal) -> Result<Terminal, NoMemory>
    ensures { IfOk result (λ copy. terminal_of copy ≡ terminal_of terminal.now) }
{
    Ok(Terminal {
        id: terminal.id,
        port: terminal.port,
        role: terminal.role,
        permits: Vec::from_slice(alloc, &terminal.permits)?,
        forbids: Vec::from_slice(alloc, &terminal.forbids)?,
    })
}

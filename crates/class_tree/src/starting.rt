//! Where the search begins.
ghost use Rattle.std.specs.Prelude.{◌≡◌, false, IfOk, IfSome, IfNone};
ghost use Rattle.network_model.specs.Bits.{Header};
ghost use Rattle.network_model.specs.Classes.{permits};
ghost use Rattle.network_model.specs.WellFormed.{IsWellFormed};
ghost use Rattle.class_tree.specs.Roots.{IsRoot, AreRoots};

use crate::class::Class;
use crate::permitted::permitted_headers;
use net_types::{Network, RuleList, TermId};
use no_memory::NoMemory;
use std::alloc::Global;
use ternary_bits::Rewrite;

/// A class with no rules for each terminal that sends some header, by rising numbers of terminals.
pub fn roots(alloc: Global, net: &Network) -> Result<Vec<Class>, NoMemory>
    ensures { IfOk result (λ classes. AreRoots net.now classes.items) }
{
    let bits = net.bits();
    let mut classes = Vec::new(alloc);
    for place in 0..net.term_count() {
        let terminal = net.term_at(place).unwrap();
        if let Some(root) = root_of(alloc, net, bits, terminal)? {
            classes.push(root)?;
        }
    }
    Ok(classes)
}

/// The class of a terminal at its own port, where it sends some header.
fn root_of(
    alloc: Global,
    net: &Network,
    bits: u32,
    terminal: TermId,
) -> Result<Option<Class>, NoMemory>
    requires bits { bits ≡ net.now.width }
    requires well_formed { IsWellFormed net.now }
    ensures some { IfOk result (λ root. IfSome root (IsRoot net.now terminal)) }
    ensures none { IfOk result (λ root. IfNone root ((h : Header) → permits net.now terminal h ≡ false)) }
{
    let Some(place) = net.term(terminal) else {
        return Ok(None);
    };
    let space = permitted_headers(alloc, net, terminal)?;
    if space.is_empty() {
        return Ok(None);
    }
    Ok(Some(Class {
        from: terminal,
        port: place.0,
        space,
        rewrite: Rewrite::keep(bits),
        rules: RuleList::new(alloc),
    }))
}

ghost use Rattle.std.specs.Prelude.{◌≡◌, ◌+◌, ◌<◌, IfOk, OnOk};
ghost use Rattle.net_grow.specs.Places.{any_header, places};

use crate::adding::taken;
use net_types::{BoxId, NetBuilder, PortId, Role, TermId};
use no_memory::NoMemory;
use std::alloc::Global;
use ternary_bits::Pattern;

/// How many bits a header has.
pub(crate) const BITS: u32 = 128;

/// The box in the middle.
pub(crate) const CORE: u32 = 16;

/// The boxes, ports, links and terminals of the network.
pub(crate) fn places(alloc: Global) -> Result<NetBuilder, NoMemory>
    ensures { IfOk result (λ net. net ≡ places 16) }
{
    let mut net = taken(NetBuilder::new(alloc, BITS))?;
    taken(net.add_box(BoxId::of(CORE)))?;
    for edge in 0..16 {
        add_edge(&mut net, edge)?;
    }
    Ok(net)
}

/// An edge, its link to the core, and its terminal.
fn add_edge(net: &mut NetBuilder, edge: u32) -> Result<(), NoMemory>
    requires edge { edge < 16 }
    requires before { net.old ≡ places edge }
    ensures { OnOk result (net.new ≡ places (edge + 1)) }
{
    let outer = PortId::of(100 + edge);
    let inner = PortId::of(200 + edge);
    let far = PortId::of(300 + edge);
    let terminal = TermId::of(edge);
    taken(net.add_box(BoxId::of(edge)))?;
    taken(net.add_port(outer, BoxId::of(edge)))?;
    taken(net.add_port(inner, BoxId::of(edge)))?;
    taken(net.add_port(far, BoxId::of(CORE)))?;
    taken(net.add_link(inner, far))?;
    taken(net.add_term(terminal, outer, Role::Both))?;
    taken(net.permit(terminal, any_header()))
}

/// The pattern of all headers.
pub(crate) fn any_header() -> Pattern
    ensures { result ≡ any_header }
{
    Pattern::all(BITS)
}

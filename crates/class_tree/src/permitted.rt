//! The set of headers that a terminal may send.
ghost use Rattle.std.specs.Prelude.{◌≡◌, IfOk};
ghost use Rattle.network_model.specs.Bits.{Header};
ghost use Rattle.network_model.specs.Classes.{permits};
ghost use Rattle.header_sets.specs.Spaces.{holds};
ghost use Rattle.class_tree.specs.Permitted.{sent_by, forbids_by};

use header_sets::Space;
use net_types::{Network, TermId};
use no_memory::NoMemory;
use std::alloc::Global;
use ternary_bits::Pattern;

/// The headers that the terminal may send.
pub fn permitted_headers(alloc: Global, net: &Network, terminal: TermId) -> Result<Space, NoMemory>
    ensures width { IfOk result (λ space. space.width ≡ net.now.width) }
    ensures set { IfOk result (λ space. (h : Header) → holds space h ≡ permits net.now terminal h) }
{
    let mut space = Space::of_patterns(alloc, net.bits(), sent(net, terminal))?;
    for pattern in forbidden(net, terminal) {
        space = space.minus(pattern)?;
    }
    Ok(space)
}

/// The permits of a terminal that sends, and none of any other.
fn sent(net: &Network, terminal: TermId) -> &[Pattern]
    ensures { result.now ≡ sent_by net.now terminal }
{
    let Some((_, role)) = net.term(terminal) else {
        return &[];
    };
    match net.permits_of(terminal) {
        Some(permits) if role.sends() => permits,
        _ => &[],
    }
}

/// The forbidden patterns of a terminal.
fn forbidden(net: &Network, terminal: TermId) -> &[Pattern]
    ensures { result.now ≡ forbids_by net.now terminal }
{
    match net.forbids_of(terminal) {
        Some(forbids) => forbids,
        None => &[],
    }
}

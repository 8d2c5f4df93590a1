//! The boxes that packets of twins come to.
ghost use Rattle.std.specs.Prelude.{◌≡◌, ◌↔◌, ◌⊎◌, ℕ, Contains, IfOk, OnOk};
ghost use Rattle.twin_laws.specs.Shared.{IsTwinBox};

use net_types::{BoxId, Network, TermId};
use no_memory::NoMemory;
use path_table::Touched;

/// The pairs, and those of the twins of their terminals with the network's boxes.
pub fn with_twins(
    net: &Network,
    touched: Touched,
    twins: &[(TermId, TermId)],
) -> Result<Touched, NoMemory>
    ensures { IfOk result (λ all. (terminal box : ℕ) → Contains all (terminal, box)
        ↔ (Contains touched (terminal, box) ⊎ (IsTwinBox twins.now touched terminal box × Contains net.now.boxes box))) }
{
    let mut all = touched.copy()?;
    for twin in twins {
        add_twin(net, &touched, &mut all, twin.0, twin.1)?;
    }
    Ok(all)
}

/// Adds the pairs of a terminal's twin.
fn add_twin(
    net: &Network,
    touched: &Touched,
    all: &mut Touched,
    first: TermId,
    other: TermId,
) -> Result<(), NoMemory>
    ensures { OnOk result ((terminal box : ℕ) → Contains all.new (terminal, box)
        ↔ (Contains all.old (terminal, box) ⊎ ((terminal ≡ other) × Contains touched.now (first, box) × Contains net.now.boxes box))) }
{
    for place in 0..net.box_count() {
        let at = net.box_at(place).unwrap();
        add_box(touched, all, first, other, at)?;
    }
    Ok(())
}

/// Adds the pair of a terminal's twin and the box where there is that of the terminal.
fn add_box(
    touched: &Touched,
    all: &mut Touched,
    first: TermId,
    other: TermId,
    at: BoxId,
) -> Result<(), NoMemory>
    ensures { OnOk result ((terminal box : ℕ) → Contains all.new (terminal, box)
        ↔ (Contains all.old (terminal, box) ⊎ ((terminal ≡ other) × Contains touched.now (first, at) × (box ≡ at)))) }
{
    if touched.has(first, at) {
        all.add(other, at)?;
    }
    Ok(())
}

//! What a search has found so far, and what it still has to grow.
ghost use Rattle.std.specs.Prelude.{◌≡◌, ◌+◌, ◌-◌, ◌*◌, ◌^◌, length, map, min, [], ◌++◌, OnOk, ◌↔◌, ◌⊎◌, ℕ, Contains};
ghost use Rattle.twin_laws.specs.Shared.{weight_of, total};
ghost use Rattle.frontier_waves.specs.Waves.{bare_path};

use class_tree::{Class, Grown};
use net_types::{BoxId, TermId};
use no_memory::NoMemory;
use path_table::{Entry, Touched};
use std::alloc::Global;
use twin_groups::stands_for;

/// What the search through the classes of some terminals found.
#[derive(Debug, Drop)]
pub struct Found {
    /// The entries of the table that begin at one of the terminals, in any order.
    pub entries: Vec<Entry>,
    /// How many classes of headers it went through. It stays at the largest number.
    pub classes: u64,
    /// The boxes that the packets of each terminal come to.
    pub touched: Touched,
}

/// A search after some rules.
#[derive(Debug, Drop)]
pub(crate) struct Frontier {
    pub(crate) found: Found,
    /// The classes that still go on.
    pub(crate) wave: Vec<Class>,
}

/// Before any rule: the classes of the terminals are the first wave. Each counts for all terminals for which its own is searched.
pub(crate) fn begin(alloc: Global, starts: Vec<Class>, twins: &[(TermId, TermId)]) -> Frontier
    ensures entries { result.found.entries.items ≡ [] }
    ensures classes { result.found.classes ≡ min (total (weight_of twins.now) (map bare_path starts.items)) (2 ^ 64 - 1) }
    ensures touched { result.found.touched ≡ [] }
    ensures wave { result.wave ≡ starts }
{
    let found = Found {
        entries: Vec::new(alloc),
        classes: count(&starts, twins),
        touched: Touched::new(alloc),
    };
    Frontier {
        found,
        wave: starts,
    }
}

/// For how many terminals these classes are searched. It stays at the largest number.
fn count(starts: &[Class], twins: &[(TermId, TermId)]) -> u64
    ensures { result ≡ min (total (weight_of twins.now) (map bare_path starts.now)) (2 ^ 64 - 1) }
{
    let mut count: u64 = 0;
    for start in starts {
        count = count.saturating_add(stands_for(twins, start.from));
    }
    count
}

/// Adds what a class of the terminal has grown to. Its classes count for all terminals for which this one is searched.
pub(crate) fn add(
    frontier: &mut Frontier,
    start: TermId,
    twins: &[(TermId, TermId)],
    mut grown: Grown,
) -> Result<(), NoMemory>
    ensures entries { OnOk result (frontier.new.found.entries.items ≡ frontier.old.found.entries.items ++ grown.found.items) }
    ensures classes { OnOk result (frontier.new.found.classes ≡ min (frontier.old.found.classes + min (grown.made * weight_of twins.now start) (2 ^ 64 - 1)) (2 ^ 64 - 1)) }
    ensures touched { OnOk result ((terminal box : ℕ) → Contains frontier.new.found.touched (terminal, box)
        ↔ (Contains frontier.old.found.touched (terminal, box) ⊎ ((terminal ≡ start) × Contains grown.touched.items box))) }
    ensures wave { OnOk result (frontier.new.wave.items ≡ frontier.old.wave.items ++ grown.rest.items) }
{
    frontier.found.entries.append(&mut grown.found)?;
    frontier.wave.append(&mut grown.rest)?;
    let made = grown.made.saturating_mul(stands_for(twins, start));
    frontier.found.classes = frontier.found.classes.saturating_add(made);
    touch(&mut frontier.found.touched, start, &grown.touched)
}

/// Adds the pairs of the terminal and each of the boxes.
fn touch(touched: &mut Touched, start: TermId, boxes: &[BoxId]) -> Result<(), NoMemory>
    ensures { OnOk result ((terminal box : ℕ) → Contains touched.new (terminal, box)
        ↔ (Contains touched.old (terminal, box) ⊎ ((terminal ≡ start) × Contains boxes.now box))) }
{
    for at in boxes {
        touched.add(start, *at)?;
    }
    Ok(())
}

//! What the classes of a wave come to, in the order of their numbers.
ghost use Rattle.std.specs.Prelude.{◌≡◌, ◌-◌, ◌≤◌, ◌<◌, ◌+◌, ℕ, List, length, All, IfOk, IfSome, OnOk, IsErrOf};
ghost use Rattle.network_model.specs.Table.{HasMore};
ghost use Rattle.class_tree.specs.Belonging.{Belongs};
ghost use Rattle.class_tree.specs.Growth.{GoesOnFrom, IsGrown};
ghost use Rattle.class_tree.specs.Searched.{StartsAmong};
ghost use Rattle.frontier_waves.specs.Growths.{AreReady};
ghost use Rattle.frontier_waves.specs.Waves.{Takes, HasSearched};

use crate::frontier::{Found, Frontier, add};
use class_tree::{Class, GrowFault, Grown, grow};
use net_types::{Network, TermId};
use path_table::TableFault;
use std::alloc::Global;

/// The search so many rules further: what all classes of the wave come to. Those that are ready were grown by workers.
pub(crate) fn gather(
    alloc: Global,
    net: &Network,
    twins: &[(TermId, TermId)],
    found: Found,
    wave: &[Class],
    mut ready: Vec<Option<Grown>>,
    hops: u32,
    stride: u32,
    limit: u32,
) -> Result<Frontier, TableFault>
    requires stride { 1 ≤ stride }
    requires belong { All (Belongs net.now) wave.now }
    requires ready { AreReady net.now hops stride wave.now ready.items }
    requires within { length found.entries.items ≤ limit }
    ensures further { IfOk result (λ next. (terminals : List ℕ) (depth : ℕ) → depth + stride ≤ hops → HasSearched net.now hops twins.now terminals depth found wave.now
        → HasSearched net.now hops twins.now terminals (depth + stride) next.found next.wave.items) }
    ensures within { IfOk result (λ next. length next.found.entries.items ≤ limit) }
    ensures full { (most : ℕ) → IsErrOf result (TableFault.TableFull most) → (most ≡ limit)
        × ((terminals : List ℕ) (depth : ℕ) → depth + stride ≤ hops → HasSearched net.now hops twins.now terminals depth found wave.now → HasMore net.now hops (StartsAmong terminals) limit) }
{
    let mut next = Frontier {
        found,
        wave: Vec::new(alloc),
    };
    for at in 0..wave.len() {
        let grown = ready[at].take();
        take_class(
            alloc, net, twins, &wave[at], grown, hops, stride, limit, &mut next,
        )?;
    }
    Ok(next)
}

/// Adds what one class comes to.
fn take_class(
    alloc: Global,
    net: &Network,
    twins: &[(TermId, TermId)],
    class: &Class,
    ready: Option<Grown>,
    hops: u32,
    stride: u32,
    limit: u32,
    next: &mut Frontier,
) -> Result<(), TableFault>
    requires stride { 1 ≤ stride }
    requires belongs { Belongs net.now class.now }
    requires ready { IfSome ready (IsGrown net.now hops class.now stride) }
    requires within { length next.old.found.entries.items ≤ limit }
    ensures taken { OnOk result (Takes net.now hops twins.now stride class.now next.old next.new) }
    ensures within { OnOk result (length next.new.found.entries.items ≤ limit) }
    ensures full { (most : ℕ) → IsErrOf result (TableFault.TableFull most) → (most ≡ limit)
        × HasMore net.now hops (GoesOnFrom class.now stride) (limit - length next.old.found.entries.items) }
{
    let left = limit - next.found.entries.len() as u32;
    match grown_within(alloc, net, class, ready, hops, stride, left) {
        Ok(grown) => Ok(add(next, class.from, twins, grown)?),
        Err(GrowFault::Full { .. }) => Err(TableFault::TableFull { limit }),
        Err(GrowFault::NoMemory) => Err(TableFault::NoMemory),
    }
}

/// The class so many rules further. It is grown here where no worker has grown it, since one ran out of memory or was past the
/// limit, and where more entries were found than are left, so that the fault is that of growing.
fn grown_within(
    alloc: Global,
    net: &Network,
    class: &Class,
    ready: Option<Grown>,
    hops: u32,
    stride: u32,
    left: u32,
) -> Result<Grown, GrowFault>
    requires stride { 1 ≤ stride }
    requires belongs { Belongs net.now class.now }
    requires ready { IfSome ready (IsGrown net.now hops class.now stride) }
    ensures grown { IfOk result (IsGrown net.now hops class.now stride) }
    ensures within { IfOk result (λ grown. length grown.found.items ≤ left) }
    ensures full { (most : ℕ) → IsErrOf result (GrowFault.Full most) → HasMore net.now hops (GoesOnFrom class.now stride) left }
{
    match ready {
        Some(grown) if grown.found.len() <= left as usize => Ok(grown),
        _ => grow(alloc, net, class, hops, stride, left),
    }
}

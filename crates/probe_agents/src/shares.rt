//! Many probes over several links at a time.
ghost use Rattle.std.specs.Prelude.{◌≡◌, ◌≢◌, ℕ, ◌+◌, ◌-◌, ◌^◌, ◌<◌, ◌≤◌, true, false, List, [], ◌∷◌, ◌++◌, length, map, reverse, All, count_by, sum_by, slice_range, IfOk, OnOk, OnErr, Some, vec_len, vec_capacity};
ghost use Rattle.std.specs.List.{AllZip};
ghost use Rattle.probe_agents.specs.Seeing.{seen};
ghost use Rattle.probe_agents.specs.Firing.{is_faulted};
ghost use Rattle.probe_agents.specs.Sharing.{FiresAll, SharesOut, IsKept, IsField, AreSure};
ghost use Rattle.probe_agents.specs.Slots.{IsReady, HandsOut, SureAll, HasDone, MovesBack, Ends};

use crate::Shot;
use crate::firing::fire;
use byte_edges::Link;
use no_memory::NoMemory;
use probe_wire::ProbeId;
use rule_cover::Plan;
use std::alloc::Global;
use std::thread;
use std::thread::Threads;

/// A link, the places of the entries that it is to fire, what they came to so far, and whether memory was wanted.
pub(crate) struct Slot<L> {
    link: L,
    first: usize,
    end: usize,
    shots: Vec<Shot>,
    wanting: bool,
}

/// Fires the probes of all entries, each link those of a share of them, in a thread of its own where one can be started.
///
/// The shots stand in the order of the entries. The links stand in their order again, whatever the answer.
pub fn fire_all<R: Threads + Sync, L: Link + Send>(
    rt: &R,
    alloc: Global,
    links: &mut Vec<L>,
    plan: &Plan,
    entries: &[u32],
    id: ProbeId,
) -> Result<Vec<Shot>, NoMemory>
    requires some { 0 < length links.old.items }
    requires inside { All (λ n. (0 < n) × (n ≤ length plan.now.plan.table)) entries.now }
    ensures shots { IfOk result (λ shots. SharesOut plan.now.plan.table id entries.now shots.items
        (map (seen L.waiting L.adds L.faults L.sent L.given L.dry) links.old.items) (map (seen L.waiting L.adds L.faults L.sent L.given L.dry) links.new.items)) }
    ensures kept { AllZip IsKept (map (seen L.waiting L.adds L.faults L.sent L.given L.dry) links.old.items) (map (seen L.waiting L.adds L.faults L.sent L.given L.dry) links.new.items) }

    // Unless a count stands at its last value, there are at most as many faulted shots as the counts rose together.
    ensures faulted { IfOk result (λ shots. All (λ link. L.faults link < 2 ^ 64 - 1) links.new.items →
        count_by is_faulted shots.items + sum_by L.faults links.old.items ≤ sum_by L.faults links.new.items) }

    // Over fields of the network, where nothing waits and nothing fails, they are what the bad rules make of them.
    ensures fields { (bad : List ℕ) → All (λ link. IsField plan.now.net plan.now.hops bad (seen L.waiting L.adds L.faults L.sent L.given L.dry link)) links.old.items →
        IfOk result (λ shots. count_by is_faulted shots.items ≡ 0 → AreSure plan.now.net plan.now.hops bad plan.now.plan.table entries.now shots.items
        × All (λ link. L.waiting link ≡ Some []) links.new.items) }
{
    let size = entries.len().div_ceil(links.len());
    let mut shots = Vec::with_capacity(alloc, entries.len())?;
    let spaces = spaces_of(alloc, links.len(), size)?;
    let slots = Vec::with_capacity(alloc, links.len())?;
    if share_out(
        rt, alloc, links, plan, entries, id, size, spaces, slots, &mut shots,
    ) {
        Ok(shots)
    } else {
        Err(NoMemory)
    }
}

/// Fires all probes with this room. The answer is whether memory was wanted nowhere.
fn share_out<R: Threads + Sync, L: Link + Send>(
    rt: &R,
    alloc: Global,
    links: &mut Vec<L>,
    plan: &Plan,
    entries: &[u32],
    id: ProbeId,
    size: usize,
    spaces: Vec<Vec<Shot>>,
    mut slots: Vec<Slot<L>>,
    shots: &mut Vec<Shot>,
) -> bool
    requires some { 0 < length links.old.items }
    requires inside { All (λ n. (0 < n) × (n ≤ length plan.now.plan.table)) entries.now }
    requires fresh { All (λ space. space.items ≡ []) spaces.items }
    requires none { slots.items ≡ [] }
    requires room { vec_len links.old ≤ vec_capacity slots }
    requires no_shots { shots.old.items ≡ [] }
    ensures { Ends (seen L.waiting L.adds L.faults L.sent L.given L.dry) plan.now id entries.now links.old.items links.new.items shots.new.items result }
{
    hand_out(alloc, links, entries, size, spaces, &mut slots);
    run(rt, plan, entries, id, slots.as_mut_slice());
    move_back(slots, links, shots)
}

/// Room for the shots of each link.
fn spaces_of(alloc: Global, count: usize, size: usize) -> Result<Vec<Vec<Shot>>, NoMemory>
    ensures { IfOk result (λ spaces. All (λ space. space.items ≡ []) spaces.items) }
{
    let mut spaces = Vec::with_capacity(alloc, count)?;
    for _ in 0..count {
        spaces.push(Vec::with_capacity(alloc, size)?)?;
    }
    Ok(spaces)
}

/// Room for the shots of one link.
fn next_space(alloc: Global, spaces: &mut Vec<Vec<Shot>>) -> Vec<Shot>
    requires { All (λ space. space.items ≡ []) spaces.old.items }
    ensures empty { result.items ≡ [] }
    ensures others { All (λ space. space.items ≡ []) spaces.new.items }
{
    match spaces.pop() {
        Some(space) => space,
        None => Vec::new(alloc),
    }
}

/// Moves all links into slots, the last one first, each with a share of the entries.
fn hand_out<L>(
    alloc: Global,
    links: &mut Vec<L>,
    entries: &[u32],
    size: usize,
    mut spaces: Vec<Vec<Shot>>,
    slots: &mut Vec<Slot<L>>,
)
    requires some { 0 < length links.old.items }
    requires none { slots.old.items ≡ [] }
    requires room { vec_len links.old ≤ vec_capacity slots.old }
    requires fresh { All (λ space. space.items ≡ []) spaces.items }
    ensures handed { HandsOut links.old.items entries.now [] 0 slots.new.items }
    ensures empty { links.new.items ≡ [] }
    ensures room { vec_capacity links.new ≡ vec_capacity links.old }
    ensures count { vec_len slots.new ≡ vec_len links.old }
{
    let mut end = entries.len();
    while let Some(link) = links.pop() {
        let first = cut(end, links.len(), size);
        slots.push_reserved(Slot {
            link,
            first,
            end,
            shots: next_space(alloc, &mut spaces),
            wanting: false,
        });
        end = first;
    }
}

/// Where the share of a link begins that ends there and has so many links before it.
fn cut(end: usize, before: usize, size: usize) -> usize
    ensures within { result ≤ end }
    ensures first { before ≡ 0 → result ≡ 0 }
{
    if before == 0 {
        return 0;
    }
    end.min(before.saturating_mul(size))
}

/// Fires the shares of all slots.
fn run<R: Threads + Sync, L: Link + Send>(
    rt: &R,
    plan: &Plan,
    entries: &[u32],
    id: ProbeId,
    slots: &mut [Slot<L>],
)
    requires inside { All (λ n. (0 < n) × (n ≤ length plan.now.plan.table)) entries.now }
    requires ready { All (IsReady entries.now) slots.old }
    ensures { AllZip (HasDone (seen L.waiting L.adds L.faults L.sent L.given L.dry) plan.now id entries.now) slots.old slots.new }
{
    let threads = slots.len().max(1);
    thread::for_each_mut(
        rt,
        slots,
        threads,
        &|_: usize, slot: &mut Slot<L>|
            requires { All (λ n. (0 < n) × (n ≤ length plan.now.plan.table)) entries.now × IsReady entries.now slot.old }
            ensures { HasDone (seen L.waiting L.adds L.faults L.sent L.given L.dry) plan.entry.now id entries.entry.now slot.old slot.new }
        {
            fire_share(slot, plan, entries, id);
        },
    );
}

/// Fires the share of a slot.
fn fire_share<L: Link>(slot: &mut Slot<L>, plan: &Plan, entries: &[u32], id: ProbeId)
    requires inside { All (λ n. (0 < n) × (n ≤ length plan.now.plan.table)) entries.now }
    requires ready { IsReady entries.now slot.old }
    ensures { HasDone (seen L.waiting L.adds L.faults L.sent L.given L.dry) plan.now id entries.now slot.old slot.new }
{
    let share = &entries[slot.first..slot.end];
    slot.wanting = fire_each(&mut slot.link, plan, share, id, &mut slot.shots).is_err();
}

/// Fires the probes of some entries over one link, one after another.
fn fire_each<L: Link>(
    link: &mut L,
    plan: &Plan,
    entries: &[u32],
    id: ProbeId,
    shots: &mut Vec<Shot>,
) -> Result<(), NoMemory>
    requires inside { All (λ n. (0 < n) × (n ≤ length plan.now.plan.table)) entries.now }
    requires none { shots.old.items ≡ [] }
    ensures fires { OnOk result (FiresAll plan.now.plan.table id entries.now shots.new.items (seen L.waiting L.adds L.faults L.sent L.given L.dry link.old) (seen L.waiting L.adds L.faults L.sent L.given L.dry link.new)) }
    ensures sure { OnOk result (SureAll plan.now entries.now shots.new.items (seen L.waiting L.adds L.faults L.sent L.given L.dry link.old) (seen L.waiting L.adds L.faults L.sent L.given L.dry link.new)) }
    ensures kept { IsKept (seen L.waiting L.adds L.faults L.sent L.given L.dry link.old) (seen L.waiting L.adds L.faults L.sent L.given L.dry link.new) }
{
    for entry in entries {
        let shot = fire(link, plan, *entry, id)?;
        shots.push(shot)?;
    }
    Ok(())
}

/// Moves the links back in their order, and the shots behind one another. The answer is whether memory was wanted nowhere.
fn move_back<L>(mut slots: Vec<Slot<L>>, links: &mut Vec<L>, shots: &mut Vec<Shot>) -> bool
    requires { vec_len links.old + vec_len slots ≤ vec_capacity links.old }
    ensures { MovesBack slots.items [] links.old.items links.new.items shots.old.items shots.new.items result }
{
    let mut enough = true;
    while let Some(slot) = slots.pop() {
        let Slot {
            link,
            first: _,
            end: _,
            shots: more,
            wanting,
        } = slot;
        links.push_reserved(link);
        enough = add_shots(enough, wanting, more, shots);
    }
    slots.destroy_empty();
    enough
}

/// Puts the shots of a slot behind the others, where memory was wanted nowhere so far.
fn add_shots(enough: bool, wanting: bool, mut more: Vec<Shot>, shots: &mut Vec<Shot>) -> bool
    ensures { result ≡ true → (enough ≡ true) × (wanting ≡ false) × (shots.new.items ≡ shots.old.items ++ more.items) }
{
    enough && !wanting && shots.append(&mut more).is_ok()
}

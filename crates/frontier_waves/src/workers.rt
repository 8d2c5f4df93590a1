//! The workers of a wave, each with a slot of its own.
ghost use Rattle.std.specs.Prelude.{◌≡◌, ◌≤◌, ◌<◌, ℕ, List, length, replicate, All, IfOk};
ghost use Rattle.std.specs.Option.{ForSome, option_copied};
ghost use Rattle.box_step.specs.Overlaps.{IsOverlaps};
ghost use Rattle.class_tree.specs.Belonging.{Belongs};
ghost use Rattle.frontier_waves.specs.Growths.{AreReady, AreJobs, IsSlot};
ghost use Rattle.network_model.specs.Network as model;
ghost use Rattle.class_tree.specs.declared.class.Class.{Class};
ghost use Rattle.claim_board.specs.Claims.{BoardId};

use crate::gate::Gate;
use box_step::Overlaps;
use claim_board::{Board, ClaimSeat};
use class_tree::{Class, Grown, grow_with};
use net_types::Network;
use no_memory::NoMemory;
use std::alloc::Global;
use std::thread;
use std::thread::Threads;

/// A class that was grown by some rules.
#[derive(Debug, Drop)]
pub(crate) struct Job {
    /// The number of the class in its wave.
    pub(crate) number: u64,
    pub(crate) grown: Grown,
}

/// What one worker has.
#[derive(Drop)]
pub(crate) struct Slot {
    pub(crate) seat: ClaimSeat,
    pub(crate) jobs: Vec<Job>,
}

/// What the classes of the wave come to by at most so many more rules, each at its number. None is for a class that no worker
/// has grown, since one ran out of memory or was past the limit.
pub(crate) fn grow_wave<R: Threads + Sync, G: Gate>(
    rt: &R,
    alloc: Global,
    net: &Network,
    over: Option<&Overlaps>,
    wave: &[Class],
    hops: u32,
    stride: u32,
    limit: u32,
    workers: u32,
    gate: &G,
) -> Result<Vec<Option<Grown>>, NoMemory>
    requires over { ForSome (option_copied over) (IsOverlaps net.now) }
    requires belong { All (Belongs net.now) wave.now }
    requires stride { 1 ≤ stride }
    requires workers { (1 ≤ workers) × (workers ≤ 64) }
    requires some { 0 < length wave.now }
    ensures { IfOk result (λ ready. AreReady net.now hops stride wave.now ready.items) }
{
    let count = wave.len();
    let seats = (workers as usize).min(count) as u32;
    let (board, seats) = Board::new(alloc, count as u64, seats)?;
    let slots = slots_of(alloc, seats)?;
    let slots = run(
        rt, alloc, net, over, wave, hops, stride, limit, &board, gate, slots,
    );
    by_number(alloc, count, slots)
}

/// A slot for each seat.
fn slots_of(alloc: Global, seats: Vec<ClaimSeat>) -> Result<Vec<Slot>, NoMemory>
    ensures { (net : model.Network) (hops stride : ℕ) (wave : List Class) (board : BoardId) → All (λ s. s.board ≡ board) seats.items
        → IfOk result (λ slots. All (IsSlot net hops stride wave board) slots.items) }
{
    let mut slots = Vec::with_capacity(alloc, seats.len())?;
    for seat in seats {
        slots.push(Slot {
            seat,
            jobs: Vec::new(alloc),
        })?;
    }
    Ok(slots)
}

/// Each worker draws classes and grows them, in a thread of its own where one can be started.
fn run<R: Threads + Sync, G: Gate>(
    rt: &R,
    alloc: Global,
    net: &Network,
    over: Option<&Overlaps>,
    wave: &[Class],
    hops: u32,
    stride: u32,
    limit: u32,
    board: &Board,
    gate: &G,
    mut slots: Vec<Slot>,
) -> Vec<Slot>
    requires over { ForSome (option_copied over) (IsOverlaps net.now) }
    requires belong { All (Belongs net.now) wave.now }
    requires stride { 1 ≤ stride }
    requires board { board.now.n ≡ length wave.now }
    requires slots { All (IsSlot net.now hops stride wave.now board.now) slots.items }
    ensures { All (IsSlot net.now hops stride wave.now board.now) result.items }
{
    let threads = slots.len().max(1);
    thread::for_each_mut(
        rt,
        slots.as_mut_slice(),
        threads,
        &|_: usize, slot: &mut Slot|
            requires { ForSome (option_copied over) (IsOverlaps net.now) × (1 ≤ stride) × All (Belongs net.now) wave.now × (board.now.n ≡ length wave.now) × IsSlot net.now hops stride wave.now board.now slot.old }
            ensures { IsSlot net.entry.now hops stride wave.entry.now board.entry.now slot.new }
        {
            work(
                alloc, net, over, wave, hops, stride, limit, board, gate, slot,
            );
        },
    );
    slots
}

/// Grows classes of the wave until all are drawn. A worker that runs out of memory, or is past the limit, draws no more.
fn work<G: Gate>(
    alloc: Global,
    net: &Network,
    over: Option<&Overlaps>,
    wave: &[Class],
    hops: u32,
    stride: u32,
    limit: u32,
    board: &Board,
    gate: &G,
    slot: &mut Slot,
)
    requires over { ForSome (option_copied over) (IsOverlaps net.now) }
    requires belong { All (Belongs net.now) wave.now }
    requires stride { 1 ≤ stride }
    requires board { board.now.n ≡ length wave.now }
    requires slot { IsSlot net.now hops stride wave.now board.now slot.old }
    ensures { IsSlot net.now hops stride wave.now board.now slot.new }
{
    // How many entries its slot may still have.
    let mut left = limit;
    while let Some(number) = board.draw(&mut slot.seat) {
        gate.enter(number);
        let grown = grow_with(alloc, net, over, &wave[number as usize], hops, stride, left);
        gate.leave(number);
        let Ok(grown) = grown else {
            return;
        };
        left -= grown.found.len() as u32;
        if slot.jobs.push(Job { number, grown }).is_err() {
            return;
        }
    }
}

/// What was grown of each class of a wave, at its number.
fn by_number(alloc: Global, count: usize, slots: Vec<Slot>) -> Result<Vec<Option<Grown>>, NoMemory>
    requires { All (λ slot. All (λ job. job.number < count) slot.jobs.items) slots.items }
    ensures { (net : model.Network) (hops stride : ℕ) (wave : List Class) → length wave ≡ count → All (λ slot. AreJobs net hops stride wave slot.jobs.items) slots.items
        → IfOk result (λ places. AreReady net hops stride wave places.items) }
{
    let mut places = no_growths(alloc, count)?;
    place_slots(places.as_mut_slice(), slots);
    Ok(places)
}

/// Puts what each worker has grown at the numbers.
fn place_slots(places: &mut [Option<Grown>], slots: Vec<Slot>)
    requires { All (λ slot. All (λ job. job.number < length places.old) slot.jobs.items) slots.items }
    ensures { (net : model.Network) (hops stride : ℕ) (wave : List Class) → All (λ slot. AreJobs net hops stride wave slot.jobs.items) slots.items
        → AreReady net hops stride wave places.old → AreReady net hops stride wave places.new }
{
    for slot in slots {
        let Slot { seat: _, jobs } = slot;
        place_all(places, jobs);
    }
}

/// Nothing grown of so many classes.
fn no_growths(alloc: Global, count: usize) -> Result<Vec<Option<Grown>>, NoMemory>
    ensures { IfOk result (λ places. places.items ≡ replicate count None) }
{
    let mut places = Vec::with_capacity(alloc, count)?;
    for _ in 0..count {
        places.push(None)?;
    }
    Ok(places)
}

/// Puts each at its number.
fn place_all(places: &mut [Option<Grown>], jobs: Vec<Job>)
    requires { All (λ job. job.number < length places.old) jobs.items }
    ensures { (net : model.Network) (hops stride : ℕ) (wave : List Class) → AreJobs net hops stride wave jobs.items → AreReady net hops stride wave places.old → AreReady net hops stride wave places.new }
{
    for job in jobs {
        let Job { number, grown } = job;
        places[number as usize] = Some(grown);
    }
}

//! Marks at places, of which the first is found with a look at few of them.
ghost use Rattle.std.specs.Prelude.{◌≡◌, ◌≤◌, ◌<◌, ◌*◌, ℕ, Bool, false, List, length, replicate, slice_set, slice_index_or, IfOk};
ghost use Rattle.suspect_book.specs.Flagged.{IsFirst, IsFirstIn, block_end};

use no_memory::NoMemory;
use std::alloc::Global;
use std::marker::Model;

/// How many places a block has.
const BLOCK: usize = 512;

/// A mark at each place, and a flag for each block of places: a block without its flag has no mark.
#[derive(Drop)]
pub(crate) struct Firsts {
    marks: Vec<bool>,
    flags: Vec<bool>,
}

impl Model for Firsts {
    ghost use Rattle.std.specs.Prelude.{List, Bool};
    ghost use Rattle.suspect_book.specs.Flagged.{AreFlagged};

    ghost Value = { List Bool };

    ghost view = { λ f. f.marks.items };

    ghost invariant = { λ f. AreFlagged f.marks.items f.flags.items };
}

/// The first mark from a place on, before another place.
fn first_in(marks: &[bool], from: usize, to: usize) -> Option<usize>
    requires order { from ≤ to }
    requires inside { to ≤ length marks.now }
    ensures { IsFirstIn marks.now from to result }
{
    for place in from..to {
        if marks[place] {
            return Some(place);
        }
    }
    None
}

/// The first mark in a block.
fn first_of_block(marks: &[bool], block: usize) -> Option<usize>
    requires { 512 * block ≤ length marks.now }
    ensures { IsFirstIn marks.now (512 * block) (block_end (length marks.now) block) result }
{
    let from = BLOCK * block;
    let to = from + BLOCK.min(marks.len() - from);
    first_in(marks, from, to)
}

impl Firsts {
    /// No mark, at so many places.
    pub(crate) fn new(alloc: Global, count: usize) -> Result<Firsts, NoMemory>
        ensures { IfOk result (λ firsts. firsts ≡ replicate count false) }
    {
        Ok(Firsts {
            marks: vec![in alloc; false; count]?,
            flags: vec![in alloc; false; count / BLOCK + 1]?,
        })
    }

    /// Marks a place, or takes its mark away.
    pub(crate) fn set(&mut self, place: usize, mark: bool)
        requires { place < length self.old }
        ensures { self.new ≡ slice_set self.old place mark }
    {
        self.marks[place] = mark;
        let block = place / BLOCK;
        let flag = mark || first_of_block(&self.marks, block).is_some();
        self.flags[block] = flag;
    }

    /// The first mark.
    pub(crate) fn first(&self) -> Option<usize>
        ensures { IsFirst (λ k. slice_index_or self.now k false) (length self.now) result }
    {
        for block in 0..self.flags.len() {
            if self.flags[block] {
                if let Some(place) = first_of_block(&self.marks, block) {
                    return Some(place);
                }
            }
        }
        None
    }
}

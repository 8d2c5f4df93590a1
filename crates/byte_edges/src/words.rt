//! The words that a program is given.
ghost use Rattle.std.specs.Prelude.{◌≡◌, ℕ, List, Option, slice_get, option_map, IfOk, IfSome};

use crate::NoMemory;
use std::alloc::Global;

/// The words of a command line, without the name of the program.
pub trait Words {
    /// The words, where they are told.
    ghost words: { Self → Option (List (List ℕ)) };

    /// The word at a place, counted from 0, or `None` past the last.
    fn word(&self, alloc: Global, i: usize) -> Result<Option<Vec<u8>>, NoMemory>
        ensures { IfOk result (λ word. IfSome (words self.now) (λ all. option_map (λ w. w.items) word ≡ slice_get all i)) };
}

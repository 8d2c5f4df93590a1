//! Words in memory, for tests of what is given them.
ghost use Rattle.std.specs.Prelude.{◌≡◌, Some, map, slice_get, option_map, IfOk, IfSome};

use crate::{NoMemory, Words};
use std::alloc::Global;

/// Words in memory.
#[derive(Drop)]
pub struct MemWords {
    pub words: Vec<Vec<u8>>,
}

impl Words for MemWords {
    ghost words = { λ w. Some (map (λ word. word.items) w.words.items) };

    fn word(&self, alloc: Global, i: usize) -> Result<Option<Vec<u8>>, NoMemory>
        ensures { IfOk result (λ word. IfSome (Some (map (λ w. w.items) self.now.words.items)) (λ all. option_map (λ w. w.items) word ≡ slice_get all i)) }
    {
        match self.words.get(i) {
            Some(word) => Ok(Some(Vec::from_slice(alloc, word)?)),
            None => Ok(None),
        }
    }
}

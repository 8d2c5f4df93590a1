//! The words that the system gives a program.
ghost use Rattle.std.specs.Prelude.{None};

use crate::{NoMemory, Words};
use std::alloc::Global;
use std::env::{Env, FillError};

/// The room for a word at first. It doubles until the word fits.
const LEAST_ROOM: usize = 256;

/// How often the room doubles. No word is longer than all memory.
const DOUBLINGS: usize = 40;

/// The words of the environment of a program. They are not told: no contract can say what the system gives.
#[derive(Drop)]
pub struct EnvWords<'a, E: Env> {
    env: &'a E,
}

impl<'a, E: Env> EnvWords<'a, E> {
    pub fn new(env: &'a E) -> Self {
        EnvWords { env }
    }
}

impl<'a, E: Env> Words for EnvWords<'a, E> {
    ghost words = { λ _. None };

    fn word(&self, alloc: Global, i: usize) -> Result<Option<Vec<u8>>, NoMemory> {
        // The name of the program stands first.
        let place = i.saturating_add(1);
        let mut bytes = Vec::new(alloc);
        bytes.resize(LEAST_ROOM, 0)?;
        for _ in 0..DOUBLINGS {
            match self.env.arg(place, &mut bytes) {
                Ok(n) => {
                    bytes.truncate(n);
                    return Ok(Some(bytes));
                }
                Err(FillError::NotPresent) => return Ok(None),
                Err(FillError::TooLong) => bytes.resize(bytes.len().saturating_mul(2), 0)?,
            }
        }
        Err(NoMemory)
    }
}

#[cfg(test)]
mod tests;

//! The words that the program was given.
ghost use Rattle.std.specs.Prelude.{IfOk, IfSome, map};
ghost use Rattle.std.specs.String.{string_bytes};
ghost use Rattle.program_edges.specs.Arguments.{IsTaken, AreTaken};

use byte_edges::Words;
use no_memory::NoMemory;
use std::alloc::Global;

/// What stands for a word that isn't text. No good command line has it.
const NO_WORD: &str = "\u{fffd}";

/// The words that are given. In place of one that is no text stands one that no command takes.
pub fn arguments<W: Words>(given: &W, alloc: Global) -> Result<Vec<String>, NoMemory>
    ensures { IfOk result (λ words. IfSome (W.words given.now) (λ all. AreTaken all (map string_bytes words.items))) }
{
    let mut words = Vec::new(alloc);
    for i in 0..usize::MAX {
        match given.word(alloc, i)? {
            Some(bytes) => words.push(word(alloc, &bytes)?)?,
            None => return Ok(words),
        }
    }
    Err(NoMemory)
}

/// The word of these bytes, or where they are no text one that no command takes.
fn word(alloc: Global, bytes: &[u8]) -> Result<String, NoMemory>
    ensures { IfOk result (λ word. IsTaken bytes.now (string_bytes word)) }
{
    let text = match str::from_utf8(bytes) {
        Ok(text) => text,
        Err(_) => NO_WORD,
    };
    Ok(String::from_str(alloc, text)?)
}

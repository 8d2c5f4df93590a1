//! Words and numbers put at the end of a text, of which the texts of networks and of plans are made.
#![tactic(auto)]

ghost use Rattle.std.specs.Prelude.{◌≡◌, ◌++◌, ◌∷◌, ℕ, List, OnOk, OnErr};
ghost use Rattle.std.specs.Fmt.{decimal};
ghost use Rattle.text_lines.specs.Lines.{number_line};

#[cfg(test)]
mod tests;

use itoa::{Buffer, write_digits};
pub use no_memory::NoMemory;

/// Puts bytes at the end of the text. Where it is out of memory, the text stays as it was.
pub fn put(text: &mut Vec<u8>, bytes: &[u8]) -> Result<(), NoMemory>
    ensures ok { OnOk result (text.new.items ≡ text.old.items ++ bytes.now) }
    ensures err { OnErr result (text.new.items ≡ text.old.items) }
{
    text.extend_from_slice(bytes)?;
    Ok(())
}

/// Puts a number at the end of the text, in decimal digits. Where it is out of memory, the text stays as it was.
pub fn put_number(text: &mut Vec<u8>, number: usize) -> Result<(), NoMemory>
    ensures ok { OnOk result (text.new.items ≡ text.old.items ++ decimal number) }
    ensures err { OnErr result (text.new.items ≡ text.old.items) }
{
    let mut buffer = Buffer::new();
    put(text, buffer.format(number).as_bytes())
}

/// Puts a number with a byte before it. Where it is out of memory, the text stays as it was.
pub fn put_number_after(text: &mut Vec<u8>, before: u8, number: usize) -> Result<(), NoMemory>
    ensures ok { OnOk result (text.new.items ≡ text.old.items ++ (before ∷ decimal number)) }
    ensures err { OnErr result (text.new.items ≡ text.old.items) }
{
    // The byte stands in the same buffer, so that the text grows once.
    let mut letters = [before; 21];
    let start = write_digits(number as u64, &mut letters, 21);
    put(text, &letters[start - 1..])
}

/// Puts a number with a space before it. Where it is out of memory, the text stays as it was.
pub fn put_next_number(text: &mut Vec<u8>, number: usize) -> Result<(), NoMemory>
    ensures ok { OnOk result (text.new.items ≡ text.old.items ++ (32 ∷ decimal number)) }
    ensures err { OnErr result (text.new.items ≡ text.old.items) }
{
    put_number_after(text, b' ', number)
}

/// Puts a line at the end of the text: a name, numbers with a space before each, and a line feed. Where memory is wanted,
/// the text stays as it was.
pub fn put_line(text: &mut Vec<u8>, name: &[u8], numbers: &[usize]) -> Result<(), NoMemory>
    ensures ok { OnOk result (text.new.items ≡ text.old.items ++ number_line name.now numbers.now) }
    ensures err { OnErr result (text.new.items ≡ text.old.items) }
{
    let before = text.len();
    let added = put_words(text, name, numbers);
    if added.is_err() {
        text.truncate(before);
    }
    added
}

/// The same, with what was put before memory was wanted left behind.
fn put_words(text: &mut Vec<u8>, name: &[u8], numbers: &[usize]) -> Result<(), NoMemory>
    ensures ok { OnOk result (text.new.items ≡ text.old.items ++ number_line name.now numbers.now) }
    ensures err { OnErr result ((more : List ℕ) × (text.new.items ≡ text.old.items ++ more)) }
{
    put(text, name)?;
    for number in numbers {
        put_next_number(text, *number)?;
    }
    put(text, b"\n")
}

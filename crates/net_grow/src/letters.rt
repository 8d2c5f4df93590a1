ghost use Rattle.std.specs.Prelude.{◌≡◌, ◌≤◌, ◌+◌, ◌-◌, ◌++◌, length, replicate};
ghost use Rattle.ternary_bits.specs.Letters.{header_text};
ghost use Rattle.ternary_bits.specs.Words.{header_of};
ghost use Rattle.net_grow.specs.Rules.{beginning, as_it_is, last_byte};

use crate::places::BITS;
use ternary_bits::{Pattern, Rewrite};

/// The pattern that asks first for the lowest bits of a word, so many of them and the most significant one leftmost.
pub(crate) fn beginning(word: u64, size: u32) -> Pattern
    requires { size ≤ 64 }
    ensures { result ≡ beginning (header_of size word) }
{
    let letters = letters_around(b'x', 0, word, size as usize);
    let Ok(pattern) = Pattern::read(&letters) else {
        unreachable!()
    };
    pattern
}

/// The rewrite that sets the last eight bits to the lowest eight of a word, and keeps the others.
pub(crate) fn last_byte(word: u32) -> Rewrite
    ensures { result ≡ last_byte word }
{
    let letters = letters_around(b'-', 120, u64::from(word), 8);
    let Ok(rewrite) = Rewrite::read(&letters) else {
        unreachable!()
    };
    rewrite
}

/// The rewrite that keeps all bits.
pub(crate) fn as_it_is() -> Rewrite
    ensures { result ≡ as_it_is }
{
    Rewrite::keep(BITS)
}

/// 128 letters: from a place on the lowest bits of a word, so many of them and the most significant one first, and blanks around them.
fn letters_around(blank: u8, at: usize, word: u64, size: usize) -> [u8; 128]
    requires { (at + size ≤ 128) × (size ≤ 64) }
    ensures { result ≡ replicate at blank ++ header_text (header_of size word) ++ replicate (128 - (at + size)) blank }
{
    let mut letters = [blank; 128];
    put_bits(&mut letters[at..at + size], word);
    letters
}

/// Writes the lowest bits of a word as letters, as many as there is room for.
fn put_bits(letters: &mut [u8], word: u64)
    requires { length letters.old ≤ 64 }
    ensures { letters.new ≡ header_text (header_of (length letters.old) word) }
{
    let count = letters.len();
    for (place, letter) in letters.iter_mut().enumerate() {
        *letter = if word >> (count - 1 - place) & 1 == 1 {
            b'1'
        } else {
            b'0'
        };
    }
}

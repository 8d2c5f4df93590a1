ghost use Rattle.std.specs.Prelude.{◌≡◌, ℕ, ◌-◌, ◌<◌, ◌≤◌, ◌++◌, ◌↔◌, true, false, IfOk, OnOk, OnErr, IfSome, IfNone, Some, None, length, map, slice_index_or, is_none, IsErrOf};
ghost use Rattle.std.specs.List.{position};
ghost use Rattle.network_model.specs.Bits.{Any};
ghost use Rattle.ternary_bits.specs.Letters.{has_width, header_text};
ghost use Rattle.ternary_bits.specs.Places.{place_letter, place_letters, place_text};
ghost use Rattle.ternary_bits.specs.Words.{letter_at, header_of};

use super::fault::LetterFault;
use super::pattern::Pattern;
use super::word::has_one;
use no_memory::NoMemory;
use text_lines::put;

/// Reads the letters `0` and `1`, and the blank at places without a bit. With no blank each place has a bit.
pub(super) fn read_letters(text: &[u8], blank: Option<u8>) -> Result<Pattern, LetterFault>
    ensures ok { IfOk result (λ pattern. (has_width text.now ≡ true) × (place_letters blank text.now ≡ Some pattern)) }
    ensures err { OnErr result (has_width text.now ≡ true → place_letters blank text.now ≡ None) }
    ensures length { (got : ℕ) → IsErrOf result (LetterFault.BadLength got) ↔ ((has_width text.now ≡ false) × (got ≡ length text.now)) }
    ensures letter { (place : ℕ) → IsErrOf result (LetterFault.BadLetter place)
        ↔ ((has_width text.now ≡ true) × (position (λ b. is_none (place_letter blank b)) text.now ≡ Some place)) }
{
    if text.is_empty() || text.len() > 128 {
        return Err(LetterFault::BadLength { got: text.len() });
    }
    let mut care = 0;
    let mut value = 0;
    for (at, letter) in text.iter().enumerate() {
        let Some((has_bit, bit)) = place_of(*letter, blank) else {
            return Err(LetterFault::BadLetter { at });
        };
        care = care << 1 | has_bit;
        value = value << 1 | bit;
    }
    Ok(Pattern {
        bits: text.len() as u32,
        care,
        value,
    })
}

/// A letter as words of one place: whether it has a bit, and that bit.
fn place_of(letter: u8, blank: Option<u8>) -> Option<(u128, u128)>
    ensures some { IfSome result (λ (has_bit, bit). (bit ≤ has_bit) × (has_bit < 2) × (place_letter blank letter ≡ Some (letter_at has_bit bit 0))) }
    ensures none { IfNone result (place_letter blank letter ≡ None) }
{
    match letter {
        b'0' => Some((1, 0)),
        b'1' => Some((1, 1)),
        _ if blank == Some(letter) => Some((0, 0)),
        _ => None,
    }
}

/// Puts the letters of a pattern at the end of the text, from the left on, with the blank at places without a bit.
/// Where memory is wanted, the text stays as it was.
pub(super) fn put_letters(pattern: &Pattern, text: &mut Vec<u8>, blank: u8) -> Result<(), NoMemory>
    ensures ok { OnOk result (text.new.items ≡ text.old.items ++ map (place_text blank) pattern.now) }
    ensures err { OnErr result (text.new.items ≡ text.old.items) }
    ensures range { (1 ≤ length pattern.now) × (length pattern.now ≤ 128) }
{
    let bits = pattern.bits;
    let mut letters = [blank; 128];
    for before in 0..bits {
        letters[before as usize] = letter_of(pattern, bits - 1 - before, blank);
    }
    put(text, &letters[..bits as usize])
}

/// Puts the letters of the lowest bits of a word at the end of the text, the highest of them first. Where memory is wanted,
/// the text stays as it was.
///
/// Headers are most of a plan's text, so that their bits are taken a byte at a time.
pub(super) fn put_bits(word: u128, bits: u32, text: &mut Vec<u8>) -> Result<(), NoMemory>
    requires { bits ≤ 128 }
    ensures ok { OnOk result (text.new.items ≡ text.old.items ++ header_text (header_of bits word)) }
    ensures err { OnErr result (text.new.items ≡ text.old.items) }
{
    let mut letters = [b'0'; 128];
    let mut rest = word;
    for bytes in 0..bits.div_ceil(8) as usize {
        let end = 128 - 8 * bytes;
        letters[end - 8..end].copy_from_slice(&byte_letters((rest % 256) as u8));
        rest >>= 8;
    }
    put(text, &letters[128 - bits as usize..])
}

/// The letters of the bits of a byte, the highest first.
fn byte_letters(byte: u8) -> [u8; 8]
    ensures { result ≡ header_text (header_of 8 byte) }
{
    let [a, b, c, d] = half_letters(byte / 16);
    let [e, f, g, h] = half_letters(byte % 16);
    [a, b, c, d, e, f, g, h]
}

/// The letters of four bits, the highest first.
#[tactic(auto, unfolding(crate::specs::Words::places))]
fn half_letters(half: u8) -> [u8; 4]
    requires { half < 16 }
    ensures { result ≡ header_text (header_of 4 half) }
{
    match half {
        0 => *b"0000",
        1 => *b"0001",
        2 => *b"0010",
        3 => *b"0011",
        4 => *b"0100",
        5 => *b"0101",
        6 => *b"0110",
        7 => *b"0111",
        8 => *b"1000",
        9 => *b"1001",
        10 => *b"1010",
        11 => *b"1011",
        12 => *b"1100",
        13 => *b"1101",
        14 => *b"1110",
        _ => *b"1111",
    }
}

/// The letter of a place, counted from the right.
fn letter_of(pattern: &Pattern, place: u32, blank: u8) -> u8
    requires { place < length pattern.now }
    ensures { result ≡ place_text blank (slice_index_or pattern.now (length pattern.now - 1 - place) Any) }
{
    if !has_one(pattern.care, place) {
        blank
    } else if has_one(pattern.value, place) {
        b'1'
    } else {
        b'0'
    }
}

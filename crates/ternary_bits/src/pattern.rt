ghost use Rattle.std.specs.Prelude.{◌≡◌, ◌≢◌, ℕ, ◌-◌, ◌<◌, ◌≤◌, ◌^◌, ◌++◌, bit_and, slice_index_or, ◌↔◌, ◌&&◌, not, true, false, IsTrue, IfOk, OnOk, OnErr, IfSome, IfNone, Some, None, [], ◌∷◌, length, map, replicate, is_none, IsErrOf};
ghost use Rattle.std.specs.List.{position, list_any, All, AllPairs};
ghost use Rattle.std.specs.declared.cmp.Ordering.TheVariants.{Less};
ghost use Rattle.network_model.specs.Bits.{Header, Bit, Any, letter_takes, matches, header_cmp, number_of};
ghost use Rattle.ternary_bits.specs.Letters.{has_width, pattern_letter, pattern_word, pattern_text};
ghost use Rattle.ternary_bits.specs.Words.{has_bit};
ghost use Rattle.ternary_bits.specs.Pieces.{difference, meets, pieces, least_member, greatest_member};

use super::fault::LetterFault;
use super::header::Header;
use super::letters::{put_letters, read_letters};
use super::word::{highest_bit, ones, with_bit};
use no_memory::NoMemory;
use std::alloc::Global;
use std::marker::Model;

/// A set of headers: at each place a bit that they all have, or any bit. It has 1 to 128 places.
#[derive(Clone, Copy, Debug, PartialEq, Eq)]
pub struct Pattern {
    pub(super) bits: u32,
    /// The places that ask for a bit.
    pub(super) care: u128,
    /// The bits that they ask for.
    pub(super) value: u128,
}

impl Model for Pattern {
    ghost use Rattle.std.specs.Prelude.{List, ◌≡◌, ◌≤◌, ◌<◌, ◌^◌, length, map, bit_and};
    ghost use Rattle.network_model.specs.Bits.{Letter, number_of};
    ghost use Rattle.ternary_bits.specs.Pieces.{least_member};
    ghost use Rattle.ternary_bits.specs.Words.{pattern_of, has_bit};
    ghost use Rattle.ternary_bits.specs.Inverses.{pattern_back};

    ghost Value = { List Letter };

    ghost view = { λ p. pattern_of p.bits p.care p.value };

    ghost invariant = { λ p. (1 ≤ p.bits) × (p.bits ≤ 128) × (p.care < 2 ^ p.bits) × (bit_and p.value p.care ≡ p.value) };

    ghost inverse = { λ letters. record { bits = length letters; care = number_of (map has_bit letters); value = number_of (least_member letters) } };

    ghost inverse_ok = { λ p ok. pattern_back p.bits p.care p.value ok.2 ok.3 _ (λ b c v. record { bits = b; care = c; value = v }) };
}

impl Pattern {
    /// The pattern that each header of so many bits matches.
    pub fn all(bits: u32) -> Pattern
        requires { (1 ≤ bits) × (bits ≤ 128) }
        ensures { result ≡ replicate bits Any }
    {
        Pattern {
            bits,
            care: 0,
            value: 0,
        }
    }

    /// The pattern of so many places whose words are these: `care` has a 1 at each place that asks for a bit, and `value` the
    /// bits that they ask for. The rightmost place is the lowest bit of a word.
    pub fn of_words(bits: u32, care: u128, value: u128) -> Pattern
        requires width { (1 ≤ bits) × (bits ≤ 128) }
        requires care { care < 2 ^ bits }
        requires value { bit_and value care ≡ value }
        ensures width { length result ≡ bits }
        ensures care { number_of (map has_bit result) ≡ care }
        ensures value { number_of (least_member result) ≡ value }
    {
        Pattern { bits, care, value }
    }

    /// The word with a 1 at each place that asks for a bit, the rightmost place its lowest bit.
    pub fn care(&self) -> u128
        ensures value { result ≡ number_of (map has_bit self.now) }
        ensures fits { result < 2 ^ length self.now }
    {
        self.care
    }

    /// The word of the bits that its places ask for, and 0 where they ask for none: the number of its least header.
    pub fn value(&self) -> u128
        ensures value { result ≡ number_of (least_member self.now) }
        ensures fits { result < 2 ^ length self.now }
    {
        self.value
    }

    /// Whether both are the same pattern.
    pub fn same(&self, other: &Pattern) -> bool
        ensures { IsTrue result ↔ (self.now ≡ other.now) }
    {
        (self.bits, self.care, self.value) == (other.bits, other.care, other.value)
    }

    /// How many places it has.
    pub fn bits(&self) -> u32
        ensures width { result ≡ length self.now }
        ensures range { (1 ≤ result) × (result ≤ 128) }
    {
        self.bits
    }

    /// Whether the header has what the pattern asks for at every place.
    pub fn matches(&self, header: &Header) -> bool
        requires { length self.now ≡ length header.now }
        ensures { result ≡ matches self.now header.now }
    {
        (header.number() ^ self.value) & self.care == 0
    }

    /// The headers that match both.
    pub fn meet(&self, other: &Pattern) -> Option<Pattern>
        requires { length self.now ≡ length other.now }
        ensures width { IfSome result (λ both. length both ≡ length self.now) }
        ensures both { IfSome result (λ both. (h : Header) → matches both h ≡ (matches self.now h && matches other.now h)) }
        ensures some { IfSome result (λ _. (h : Header) × IsTrue (matches self.now h && matches other.now h)) }
        ensures none { IfNone result ((h : Header) → (matches self.now h && matches other.now h) ≡ false) }
    {
        if !self.meets(other) {
            return None;
        }
        Some(Pattern {
            bits: self.bits,
            care: self.care | other.care,
            value: self.value | other.value,
        })
    }

    /// The headers that match this pattern and not the other, as disjoint pieces: for each bit of the other that is
    /// free here, from the left, one with that bit flipped and the earlier such bits as in the other.
    pub fn minus(&self, alloc: Global, other: &Pattern) -> Result<Vec<Pattern>, NoMemory>
        requires { length self.now ≡ length other.now }
        ensures pieces { IfOk result (λ pieces. pieces.items ≡ difference self.now other.now) }
        ensures set { IfOk result (λ pieces. (h : Header) →
            list_any (λ piece. matches piece h) pieces.items ≡ (matches self.now h && not (matches other.now h))) }
        ensures disjoint { IfOk result (λ pieces. (h : Header) → AllPairs (λ a b. (matches a h && matches b h) ≡ false) pieces.items) }
        ensures widths { IfOk result (λ pieces. All (λ piece. length piece ≡ length self.now) pieces.items) }
    {
        let mut pieces = Vec::new(alloc);
        if !self.meets(other) {
            pieces.push(*self)?;
            return Ok(pieces);
        }
        let mut rest = *self;
        while let Some((piece, others)) = rest.first_piece(other) {
            pieces.push(piece)?;
            rest = others;
        }
        Ok(pieces)
    }

    /// The least header that matches.
    pub fn least(&self) -> Header
        ensures value { result ≡ least_member self.now }
        ensures member { IsTrue (matches self.now result) }
        ensures least { (h : Header) → IsTrue (matches self.now h) → header_cmp h result ≢ Less }
    {
        Header::of_number(self.bits, self.value)
    }

    /// The greatest header that matches.
    pub fn greatest(&self) -> Header
        ensures value { result ≡ greatest_member self.now }
        ensures member { IsTrue (matches self.now result) }
        ensures greatest { (h : Header) → IsTrue (matches self.now h) → header_cmp result h ≢ Less }
    {
        Header::of_number(self.bits, self.value | (ones(self.bits) & !self.care))
    }

    /// Reads the letters `0`, `1` and `x`, the leftmost place first.
    pub fn read(text: &[u8]) -> Result<Pattern, LetterFault>
        ensures ok { IfOk result (λ pattern. pattern_word text.now ≡ Some pattern) }
        ensures err { OnErr result (pattern_word text.now ≡ None) }
        ensures length { (got : ℕ) → IsErrOf result (LetterFault.BadLength got) ↔ ((has_width text.now ≡ false) × (got ≡ length text.now)) }
        ensures letter { (place : ℕ) → IsErrOf result (LetterFault.BadLetter place)
            ↔ ((has_width text.now ≡ true) × (position (λ b. is_none (pattern_letter b)) text.now ≡ Some place)) }
    {
        read_letters(text, Some(b'x'))
    }

    /// Puts the letters `0`, `1` and `x` at the end of the text, the leftmost place first. Where memory is wanted, the text
    /// stays as it was.
    pub fn put(&self, text: &mut Vec<u8>) -> Result<(), NoMemory>
        ensures ok { OnOk result (text.new.items ≡ text.old.items ++ pattern_text self.now) }
        ensures err { OnErr result (text.new.items ≡ text.old.items) }
        ensures back { pattern_word (pattern_text self.now) ≡ Some self.now }
    {
        put_letters(self, text, b'x')
    }

    /// The letters `0`, `1` and `x`, the leftmost place first.
    pub fn print(&self, alloc: Global) -> Result<Vec<u8>, NoMemory>
        ensures text { IfOk result (λ text. text.items ≡ pattern_text self.now) }
        ensures back { IfOk result (λ text. pattern_word text.items ≡ Some self.now) }
    {
        let mut text = Vec::new(alloc);
        self.put(&mut text)?;
        Ok(text)
    }

    /// The pattern that asks for one bit alone, at a place counted from the right, from 0.
    pub(super) fn asking(bits: u32, place: u32, bit: bool) -> Pattern
        requires width { (1 ≤ bits) × (bits ≤ 128) }
        requires place { place < bits }
        ensures width { length result ≡ bits }
        ensures asks { (h : Header) → length h ≡ bits → matches result h ≡ letter_takes (Bit bit) (slice_index_or h (bits - 1 - place) false) }
    {
        Pattern {
            bits,
            care: with_bit(0, place, true),
            value: with_bit(0, place, bit),
        }
    }

    /// Whether some header matches both.
    pub fn meets(&self, other: &Pattern) -> bool
        requires { length self.now ≡ length other.now }
        ensures { result ≡ meets self.now other.now }
    {
        (self.value ^ other.value) & self.care & other.care == 0
    }

    /// The first piece that leaves out the other, and what the later pieces are cut from.
    pub(super) fn first_piece(&self, other: &Pattern) -> Option<(Pattern, Pattern)>
        requires { length self.now ≡ length other.now }
        ensures widths { IfSome result (λ (piece, rest). (length piece ≡ length self.now) × (length rest ≡ length self.now)) }
        ensures some { IfSome result (λ (piece, rest). pieces self.now other.now ≡ piece ∷ pieces rest other.now) }
        ensures none { IfNone result (pieces self.now other.now ≡ []) }
    {
        let free = other.care & !self.care;
        if free == 0 {
            return None;
        }
        let place = highest_bit(free);
        let asked = other.value & place;
        let piece = Pattern {
            bits: self.bits,
            care: self.care | place,
            value: self.value | (asked ^ place),
        };
        let rest = Pattern {
            bits: self.bits,
            care: self.care | place,
            value: self.value | asked,
        };
        Some((piece, rest))
    }
}

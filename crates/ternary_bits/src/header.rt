ghost use Rattle.std.specs.Prelude.{◌≡◌, ℕ, ◌<◌, ◌≤◌, ◌^◌, ◌↔◌, true, false, IfOk, OnOk, OnErr, ◌++◌, Some, None, length};
ghost use Rattle.std.specs.List.{position};
ghost use Rattle.std.specs.Prelude.{is_none, IsErrOf};
ghost use Rattle.network_model.specs.Bits.{number_of};
ghost use Rattle.ternary_bits.specs.Letters.{has_width, header_letter, header_word, header_text};

use super::fault::LetterFault;
use super::letters::{put_bits, read_letters};
use no_memory::NoMemory;
use std::alloc::Global;
use std::marker::Model;

/// The bits of a packet's header, 1 to 128 of them. The leftmost is the most significant.
#[derive(Clone, Copy, Debug, PartialEq, Eq)]
pub struct Header {
    bits: u32,
    value: u128,
}

impl Model for Header {
    ghost use Rattle.std.specs.Prelude.{List, Bool, ◌≤◌, ◌<◌, ◌^◌, length};
    ghost use Rattle.network_model.specs.Bits.{number_of};
    ghost use Rattle.ternary_bits.specs.Words.{header_of};
    ghost use Rattle.ternary_bits.specs.Inverses.{header_back};

    ghost Value = { List Bool };

    ghost view = { λ h. header_of h.bits h.value };

    ghost invariant = { λ h. (1 ≤ h.bits) × (h.bits ≤ 128) × (h.value < 2 ^ h.bits) };

    ghost inverse = { λ bits. record { bits = length bits; value = number_of bits } };

    ghost inverse_ok = { λ h ok. header_back h.bits h.value ok.2 _ (λ b v. record { bits = b; value = v }) };
}

impl Header {
    /// The header of so many bits that is this number.
    pub fn of_number(bits: u32, number: u128) -> Header
        requires width { (1 ≤ bits) × (bits ≤ 128) }
        requires fits { number < 2 ^ bits }
        ensures width { length result ≡ bits }
        ensures number { number_of result ≡ number }
    {
        Header {
            bits,
            value: number,
        }
    }

    /// How many bits it has.
    pub fn bits(&self) -> u32
        ensures width { result ≡ length self.now }
        ensures range { (1 ≤ result) × (result ≤ 128) }
    {
        self.bits
    }

    /// The header as a number.
    pub fn number(&self) -> u128
        ensures number { result ≡ number_of self.now }
        ensures fits { result < 2 ^ length self.now }
    {
        self.value
    }

    /// Reads the letters `0` and `1`, the leftmost bit first.
    pub fn read(text: &[u8]) -> Result<Header, LetterFault>
        ensures ok { IfOk result (λ header. header_word text.now ≡ Some header) }
        ensures err { OnErr result (header_word text.now ≡ None) }
        ensures length { (got : ℕ) → IsErrOf result (LetterFault.BadLength got) ↔ ((has_width text.now ≡ false) × (got ≡ length text.now)) }
        ensures letter { (place : ℕ) → IsErrOf result (LetterFault.BadLetter place)
            ↔ ((has_width text.now ≡ true) × (position (λ b. is_none (header_letter b)) text.now ≡ Some place)) }
    {
        Ok(read_letters(text, None)?.least())
    }

    /// Puts the letters `0` and `1` at the end of the text, the leftmost bit first. Where memory is wanted, the text stays as
    /// it was.
    pub fn put(&self, text: &mut Vec<u8>) -> Result<(), NoMemory>
        ensures ok { OnOk result (text.new.items ≡ text.old.items ++ header_text self.now) }
        ensures err { OnErr result (text.new.items ≡ text.old.items) }
        ensures back { header_word (header_text self.now) ≡ Some self.now }
    {
        put_bits(self.value, self.bits, text)
    }

    /// The letters `0` and `1`, the leftmost bit first.
    pub fn print(&self, alloc: Global) -> Result<Vec<u8>, NoMemory>
        ensures text { IfOk result (λ text. text.items ≡ header_text self.now) }
        ensures back { IfOk result (λ text. header_word text.items ≡ Some self.now) }
    {
        let mut text = Vec::new(alloc);
        self.put(&mut text)?;
        Ok(text)
    }
}

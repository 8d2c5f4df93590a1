ghost use Rattle.std.specs.Prelude.{◌≡◌, ℕ, ◌+◌, ◌-◌, ◌<◌, ◌≤◌, ◌++◌, ◌↔◌, ◌⊎◌, true, false, IfOk, OnOk, OnErr, IfSome, IfNone, IsNone, IsTrue, Some, None, length, is_none, IsErrOf, slice_get, slice_set, slice_index_or};
ghost use Rattle.std.specs.List.{position};
ghost use Rattle.network_model.specs.Bits.{Header, matches};
ghost use Rattle.network_model.specs.Rewrites.{Set, rewritten, kept, item_after, composed, LiesWithin, AreWithin};
ghost use Rattle.ternary_bits.specs.Items.{item_of};
ghost use Rattle.ternary_bits.specs.Words.{IsWritten};
ghost use Rattle.ternary_bits.specs.Letters.{has_width, rewrite_letter, rewrite_word};
ghost use Rattle.ternary_bits.specs.Moves.{letters_or_moves, rewrite_text};

use super::fault::LetterFault;
use super::header::Header;
use super::item::Item;
use super::letters::{put_letters, read_letters};
use super::moves::put_moves;
use super::pattern::Pattern;
use super::word::{has_one, next_place, with_bit};
use no_memory::NoMemory;
use std::alloc::Global;
use std::marker::Model;

/// What becomes of a header: each place gets a bit, or an old bit. It has 1 to 128 places.
#[derive(Clone, Copy, Debug, PartialEq, Eq)]
pub struct Rewrite {
    bits: u32,
    /// The places that get a bit of the rewrite.
    set: u128,
    /// The bits that they get.
    value: u128,
    /// The places that get the old bit of another place. Where there are none, all calls are a few operations on words.
    moved: u128,
    /// Which place's bit they get, counted from 1 from the left; 0 for a place that doesn't move. The first entry is that
    /// of the rightmost place.
    sources: [u8; 128],
}

impl Model for Rewrite {
    ghost use Rattle.std.specs.Prelude.{List, length, map};
    ghost use Rattle.network_model.specs.Bits.{number_of};
    ghost use Rattle.network_model.specs.Rewrites.{Item};
    ghost use Rattle.ternary_bits.specs.Words.{rewrite_of, AreRewrite, is_set, set_bit, moves_of, sources_of};
    ghost use Rattle.ternary_bits.specs.Inverses.{rewrite_back};

    ghost Value = { List Item };

    ghost view = { λ r. rewrite_of r.bits r.set r.value r.sources };

    ghost invariant = { λ r. AreRewrite r.bits r.set r.value r.moved r.sources };

    ghost inverse = { λ items. record { bits = length items; set = number_of (map is_set items); value = number_of (map set_bit items); moved = number_of (moves_of items); sources = sources_of items } };

    ghost inverse_ok = { λ r ok. rewrite_back r.bits r.set r.value r.moved r.sources ok _ (λ b s v m from. record { bits = b; set = s; value = v; moved = m; sources = from }) };
}

impl Rewrite {
    /// The rewrite that keeps each of so many bits.
    pub fn keep(bits: u32) -> Rewrite
        requires { (1 ≤ bits) × (bits ≤ 128) }
        ensures { result ≡ kept bits }
    {
        Rewrite {
            bits,
            set: 0,
            value: 0,
            moved: 0,
            sources: [0; 128],
        }
    }

    /// Whether both are the same rewrite.
    pub fn same(&self, other: &Rewrite) -> bool
        ensures { IsTrue result ↔ (self.now ≡ other.now) }
    {
        (self.bits, self.set, self.value, self.moved)
            == (other.bits, other.set, other.value, other.moved)
            && (self.moved == 0 || self.sources == other.sources)
    }

    /// How many places it has.
    pub fn bits(&self) -> u32
        ensures width { result ≡ length self.now }
        ensures range { (1 ≤ result) × (result ≤ 128) }
        ensures within { AreWithin result self.now }
    {
        self.bits
    }

    /// What a place gets, the leftmost being place 1.
    pub fn item(&self, place: u32) -> Option<Item>
        ensures some { IfSome result (λ item. slice_get self.now (place - 1) ≡ Some (item_of item)) }
        ensures none { IsNone result ↔ ((place ≡ 0) ⊎ (length self.now < place)) }
    {
        if place == 0 || place > self.bits {
            return None;
        }
        Some(self.item_at(self.bits - place))
    }

    /// The header after the rewrite.
    pub fn apply(&self, header: &Header) -> Header
        requires { length self.now ≡ length header.now }
        ensures { result ≡ rewritten self.now header.now }
    {
        let old = header.number();
        let mut number = (old & !self.set) | self.value;
        let mut moved = self.moved;
        while let Some((place, others)) = next_place(moved) {
            let source = self.bits - self.sources[place as usize] as u32;
            number = with_bit(number, place, has_one(old, source));
            moved = others;
        }
        Header::of_number(self.bits, number)
    }

    /// This rewrite and then the later one, as one.
    pub fn then(&self, later: &Rewrite) -> Rewrite
        requires { length self.now ≡ length later.now }
        ensures value { result ≡ composed self.now later.now }
        ensures applies { (h : Header) → length h ≡ length self.now → rewritten result h ≡ rewritten later.now (rewritten self.now h) }
    {
        let mut both = Rewrite {
            bits: self.bits,
            set: self.set | later.set,
            value: (self.value & !later.set) | later.value,
            moved: 0,
            sources: [0; 128],
        };
        let mut moved = self.moved | later.moved;
        while let Some((place, others)) = next_place(moved) {
            both.set_item(place, self.before_item(later.item_at(place)));
            moved = others;
        }
        both
    }

    /// The headers that the rewrite takes into the pattern.
    pub fn before(&self, pattern: &Pattern) -> Option<Pattern>
        requires { length self.now ≡ length pattern.now }
        ensures width { IfSome result (λ sources. length sources ≡ length self.now) }
        ensures sources { IfSome result (λ sources. (h : Header) → length h ≡ length self.now → matches sources h ≡ matches pattern.now (rewritten self.now h)) }
        ensures some { IfSome result (λ _. (h : Header) × (length h ≡ length self.now) × IsTrue (matches pattern.now (rewritten self.now h))) }
        ensures none { IfNone result ((h : Header) → length h ≡ length self.now → matches pattern.now (rewritten self.now h) ≡ false) }
    {
        if (self.value ^ pattern.value) & self.set & pattern.care != 0 {
            return None;
        }
        let gone = self.set | self.moved;
        let mut sources = Pattern {
            bits: self.bits,
            care: pattern.care & !gone,
            value: pattern.value & !gone,
        };
        let mut moved = self.moved & pattern.care;
        while let Some((place, others)) = next_place(moved) {
            let source = self.bits - self.sources[place as usize] as u32;
            let asked = Pattern::asking(self.bits, source, has_one(pattern.value, place));
            let Some(both) = sources.meet(&asked) else {
                return None;
            };
            sources = both;
            moved = others;
        }
        Some(sources)
    }

    /// Reads the letters `0`, `1` and `-`, the leftmost place first. At `-` a place keeps its bit.
    pub fn read(text: &[u8]) -> Result<Rewrite, LetterFault>
        ensures ok { IfOk result (λ rewrite. rewrite_word text.now ≡ Some rewrite) }
        ensures err { OnErr result (rewrite_word text.now ≡ None) }
        ensures length { (got : ℕ) → IsErrOf result (LetterFault.BadLength got) ↔ ((has_width text.now ≡ false) × (got ≡ length text.now)) }
        ensures letter { (place : ℕ) → IsErrOf result (LetterFault.BadLetter place)
            ↔ ((has_width text.now ≡ true) × (position (λ b. is_none (rewrite_letter 1 b)) text.now ≡ Some place)) }
    {
        let letters = read_letters(text, Some(b'-'))?;
        Ok(Rewrite {
            bits: letters.bits,
            set: letters.care,
            value: letters.value,
            moved: 0,
            sources: [0; 128],
        })
    }

    /// Puts its word at the end of the text. Where memory is wanted, the text stays as it was.
    pub fn put(&self, text: &mut Vec<u8>) -> Result<(), NoMemory>
        ensures ok { OnOk result (text.new.items ≡ text.old.items ++ rewrite_text self.now) }
        ensures err { OnErr result (text.new.items ≡ text.old.items) }
        ensures back { letters_or_moves (rewrite_text self.now) ≡ Some self.now }
    {
        if self.moved == 0 {
            let letters = Pattern {
                bits: self.bits,
                care: self.set,
                value: self.value,
            };
            return put_letters(&letters, text, b'-');
        }
        let before = text.len();
        let done = put_moves(self, text);
        if done.is_err() {
            text.truncate(before);
        }
        done
    }

    /// The letters `0`, `1` and `-`, the leftmost place first, where each old bit stays in its place; otherwise `@` and its
    /// items, separated by commas.
    pub fn print(&self, alloc: Global) -> Result<Vec<u8>, NoMemory>
        ensures text { IfOk result (λ text. text.items ≡ rewrite_text self.now) }
        ensures back { IfOk result (λ text. letters_or_moves text.items ≡ Some self.now) }
    {
        let mut text = Vec::new(alloc);
        self.put(&mut text)?;
        Ok(text)
    }

    /// What a place gets, the rightmost being place 0.
    pub(super) fn item_at(&self, place: u32) -> Item
        requires { place < length self.now }
        ensures item { item_of result ≡ slice_index_or self.now (length self.now - 1 - place) (Set false) }
        ensures within { LiesWithin (length self.now) (item_of result) }
    {
        if has_one(self.set, place) {
            return if has_one(self.value, place) {
                Item::One
            } else {
                Item::Zero
            };
        }
        let source = self.sources[place as usize] as u32;
        Item::Old(if source == 0 {
            self.bits - place
        } else {
            source
        })
    }

    /// Gives a place this item, the rightmost being place 0.
    pub(super) fn set_item(&mut self, place: u32, item: Item)
        requires place { place < length self.old }
        requires item { LiesWithin (length self.old) (item_of item) }
        ensures item { self.new ≡ slice_set self.old (length self.old - 1 - place) (item_of item) }
    {
        let (set, value, source) = words_at(item, self.bits - place);
        self.set = with_bit(self.set, place, set);
        self.value = with_bit(self.value, place, value);
        self.moved = with_bit(self.moved, place, source != 0);
        self.sources[place as usize] = source;
    }

    /// What an item of a later rewrite gets from the header before this one.
    fn before_item(&self, item: Item) -> Item
        requires { LiesWithin (length self.now) (item_of item) }
        ensures item { item_of result ≡ item_after self.now (item_of item) }
        ensures within { LiesWithin (length self.now) (item_of result) }
    {
        match item {
            Item::Old(place) => self.item_at(self.bits - place),
            set => set,
        }
    }
}

/// What the words of a rewrite have for an item: whether its place is set, to which bit, and which place's bit it gets
/// where it moves. The place is counted from 1 from the left.
fn words_at(item: Item, place: u32) -> (bool, bool, u8)
    requires place { 1 ≤ place }
    requires item { LiesWithin 128 (item_of item) }
    ensures { (width : ℕ) → LiesWithin width (item_of item) → IsWritten width place (item_of item) result.0 result.1 result.2 }
{
    match item {
        Item::Zero => (true, false, 0),
        Item::One => (true, true, 0),
        Item::Old(old) if old == place => (false, false, 0),
        Item::Old(old) => (false, false, old as u8),
    }
}

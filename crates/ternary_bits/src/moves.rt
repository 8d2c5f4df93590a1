//! Rewrites as moving words: `@` and then an item for each place, separated by commas.

ghost use Rattle.std.specs.Prelude.{◌≡◌, ℕ, ◌≤◌, ◌++◌, ◌↔◌, List, IfOk, IfSome, IfNone, OnOk, OnErr, IsErrOf, Some, None, count_by};
ghost use Rattle.std.specs.List.{slice_split};
ghost use Rattle.text_words.specs.Numbers.{number_upto};
ghost use Rattle.network_model.specs.Rewrites.{LiesWithin};
ghost use Rattle.ternary_bits.specs.Items.{item_of};
ghost use Rattle.ternary_bits.specs.Moves.{comma, old_bit, moving_item, joined_items, moving_word, item_text, moving_text};

use super::item::Item;
use super::rewrite::Rewrite;
use no_memory::NoMemory;
use text_lines::{put, put_number};
use text_words::number;

/// Why a word is no rewrite that moves bits.
#[derive(Clone, Copy, Debug, PartialEq, Eq)]
pub enum MoveFault {
    BadMoves,
}

impl Rewrite {
    /// Reads a moving word: `@` and then 1 to 128 items, separated by commas. An item is `0`, `1`, `-` for the bit at its
    /// own place, or `b` and the number of the place whose bit it gets, counted from 1 from the left.
    pub fn read_moves(text: &[u8]) -> Result<Rewrite, MoveFault>
        ensures ok { IfOk result (λ rewrite. moving_word text.now ≡ Some rewrite) }
        ensures err { OnErr result (moving_word text.now ≡ None) }
        ensures bad { IsErrOf result MoveFault.BadMoves ↔ (moving_word text.now ≡ None) }
    {
        let [b'@', items @ ..] = text else {
            return Err(MoveFault::BadMoves);
        };
        read_items(items).ok_or(MoveFault::BadMoves)
    }
}

/// Reads items with commas between them.
fn read_items(text: &[u8]) -> Option<Rewrite>
    ensures some { IfSome result (λ rewrite. joined_items (slice_split comma text.now) ≡ Some rewrite) }
    ensures none { IfNone result (joined_items (slice_split comma text.now) ≡ None) }
{
    let commas = commas_in(text);
    if commas >= 128 {
        return None;
    }
    let count = commas as u32 + 1;
    let mut rewrite = Rewrite::keep(count);
    let mut place = 0;
    for word in text.split(|b| *b == b',') {
        place += 1;
        let item = read_item(word, place, count)?;
        rewrite.set_item(count - place, item);
    }
    Some(rewrite)
}

fn commas_in(text: &[u8]) -> usize
    ensures { result ≡ count_by comma text.now }
{
    text.iter().filter(|b| **b == b',').count()
}

/// Reads the item of a place, of a rewrite of so many places.
fn read_item(word: &[u8], place: u32, count: u32) -> Option<Item>
    requires { (1 ≤ place) × (place ≤ count) }
    ensures some { IfSome result (λ item. (moving_item count place word.now ≡ Some (item_of item)) × LiesWithin count (item_of item)) }
    ensures none { IfNone result (moving_item count place word.now ≡ None) }
{
    match word {
        b"0" => Some(Item::Zero),
        b"1" => Some(Item::One),
        b"-" => Some(Item::Old(place)),
        [b'b', digits @ ..] => read_place(digits, count),
        _ => None,
    }
}

/// Reads the number of a place, whose old bit is the item.
fn read_place(digits: &[u8], count: u32) -> Option<Item>
    ensures some { IfSome result (λ item. (old_bit (number_upto count digits.now) ≡ Some (item_of item)) × LiesWithin count (item_of item)) }
    ensures none { IfNone result (old_bit (number_upto count digits.now) ≡ None) }
{
    match number(digits, u64::from(count))? {
        0 => None,
        place => Some(Item::Old(place as u32)),
    }
}

/// Puts the moving word of a rewrite at the end of the text. Where memory is wanted, a part of the word stands there.
pub(super) fn put_moves(rewrite: &Rewrite, text: &mut Vec<u8>) -> Result<(), NoMemory>
    ensures ok { OnOk result (text.new.items ≡ text.old.items ++ moving_text rewrite.now) }
    ensures err { OnErr result ((part : List ℕ) × (text.new.items ≡ text.old.items ++ part)) }
{
    let bits = rewrite.bits();
    for before in 0..bits {
        put(text, if before == 0 { b"@" } else { b"," })?;
        put_item(rewrite.item_at(bits - 1 - before), before + 1, text)?;
    }
    Ok(())
}

/// Puts the item of a place. Where memory is wanted, a part of it stands there.
fn put_item(item: Item, place: u32, text: &mut Vec<u8>) -> Result<(), NoMemory>
    ensures ok { OnOk result (text.new.items ≡ text.old.items ++ item_text place (item_of item)) }
    ensures err { OnErr result ((part : List ℕ) × (text.new.items ≡ text.old.items ++ part)) }
{
    match item {
        Item::Zero => put(text, b"0"),
        Item::One => put(text, b"1"),
        Item::Old(old) if old == place => put(text, b"-"),
        Item::Old(old) => {
            put(text, b"b")?;
            put_number(text, old as usize)
        }
    }
}

//! A name of a table.
ghost use Rattle.std.specs.Prelude.{◌≡◌, ◌↔◌, ◌≤◌, ℕ, List, IsTrue, IfSome, IfNone};
ghost use Rattle.std.specs.Fmt.{decimal};
ghost use Rattle.text_words.specs.Numbers.{AreNumbersIn};
ghost use Rattle.command_line.specs.Table.{MayFollow, IsRequired};

use text_words::number;

/// A name that may stand before a number or a list of numbers.
#[derive(Clone, Copy, Debug)]
pub struct Name<'a> {
    pub word: &'a str,
    pub value: Value,
}

/// What may follow a name.
#[derive(Clone, Copy, Debug)]
pub enum Value {
    /// A number from `least` to `most`.
    Number {
        least: u64,
        most: u64,
        /// The number where the name isn't given, or `None` where it must be given.
        usual: Option<u64>,
    },
    /// One or more numbers from 0 to `most`, joined by commas, in any order and with repeats. There are none where the name
    /// isn't given.
    Numbers {
        most: u64,
    },
}

impl Value {
    /// Whether the name must be given.
    pub(crate) fn is_required(&self) -> bool
        ensures { IsTrue result ↔ IsRequired self.now }
    {
        match self {
            Value::Number { usual, .. } => usual.is_none(),
            Value::Numbers { .. } => false,
        }
    }

    /// Whether a word may follow the name.
    pub(crate) fn takes(&self, word: &str) -> bool
        ensures { IsTrue result ↔ MayFollow self.now word.now }
    {
        match self {
            Value::Number { least, most, .. } => read(word, *least, *most).is_some(),
            Value::Numbers { most } => are_numbers(word.as_bytes(), *most),
        }
    }
}

/// The number of a range that a word spells.
pub(crate) fn read(word: &str, least: u64, most: u64) -> Option<u64>
    ensures some { IfSome result (λ n. (least ≤ n) × (n ≤ most) × (word.now ≡ decimal n)) }
    ensures none { IfNone result ((n : ℕ) → least ≤ n → n ≤ most → word.now ≡ decimal n → ⊥) }
{
    match number(word.as_bytes(), most) {
        Some(n) if least <= n => Some(n),
        _ => None,
    }
}

/// Whether a word is one or more numbers, joined by commas, each at most that.
fn are_numbers(word: &[u8], most: u64) -> bool
    ensures { IsTrue result ↔ ((numbers : List ℕ) × AreNumbersIn most word.now numbers) }
{
    for part in word.split(|b| *b == b',') {
        if number(part, most).is_none() {
            return false;
        }
    }
    true
}

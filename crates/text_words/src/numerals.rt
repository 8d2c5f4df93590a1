ghost use Rattle.std.specs.Prelude.{◌≡◌, ◌↔◌, ℕ, List, Some, IfOk};
ghost use Rattle.std.specs.List.{list_all};
ghost use Rattle.std.specs.Option.{option_map};
ghost use Rattle.text_words.specs.Numbers.{is_digit, is_plain, number_upto, numbers_upto, IsNumberIn, AreNumbersIn};

use no_memory::NoMemory;
use std::alloc::Global;

/// The number that a word of decimal digits stands for, where it has no needless zero before it and is at most `most`.
pub fn number(word: &[u8], most: u64) -> Option<u64>
    ensures value { result ≡ number_upto most word.now }
    ensures some { (n : ℕ) → (result ≡ Some n) ↔ IsNumberIn most word.now n }
{
    if !is_plain(word) {
        return None;
    }
    let mut value: u64 = 0;
    for digit in word {
        value = value
            .checked_mul(10)?
            .checked_add(u64::from(*digit - b'0'))?;
    }
    if value > most {
        return None;
    }
    Some(value)
}

/// The numbers of a word, one or more, joined by commas: each is at most `most`. They stand in any order, and may stand
/// more than once.
pub fn numbers(alloc: Global, word: &[u8], most: u64) -> Result<Option<Vec<u64>>, NoMemory>
    ensures value { IfOk result (λ found. option_map (λ ns. ns.items) found ≡ numbers_upto most word.now) }
    ensures some { IfOk result (λ found. (ns : List ℕ) → (option_map (λ ns. ns.items) found ≡ Some ns) ↔ AreNumbersIn most word.now ns) }
{
    let mut found = Vec::new(alloc);
    for part in word.split(|b| *b == b',') {
        let Some(number) = number(part, most) else {
            return Ok(None);
        };
        found.push(number)?;
    }
    Ok(Some(found))
}

/// Whether there are digits alone, the first no zero before others.
fn is_plain(word: &[u8]) -> bool
    ensures { result ≡ is_plain word.now }
{
    match word {
        [] => false,
        [digit] => digit.is_ascii_digit(),
        [first, ..] => *first != b'0' && are_digits(word),
    }
}

fn are_digits(word: &[u8]) -> bool
    ensures { result ≡ list_all is_digit word.now }
{
    word.iter().all(|b| b.is_ascii_digit())
}

ghost use Rattle.std.specs.Prelude.{◌≡◌, ◌≢◌, ℕ, ◌-◌, ◌*◌, ◌<◌, ◌≤◌, ◌^◌, IfSome, IfNone};
ghost use Rattle.ternary_bits.specs.Words.{is_one, Takes};

/// The word with a 1 at each of so many places.
pub(super) fn ones(bits: u32) -> u128
    requires { (1 ≤ bits) × (bits ≤ 128) }
    ensures { result ≡ 2 ^ bits - 1 }
{
    u128::MAX >> (128 - bits)
}

/// The highest bit of a word.
pub(super) fn highest_bit(word: u128) -> u128
    requires { 0 < word }
    ensures { (place : ℕ) × (result ≡ 2 ^ place) × (result ≤ word) × (word < 2 * result) }
{
    1 << (127 - word.leading_zeros())
}

/// Whether a word has a 1 at a place, counted from its lowest bit.
pub(super) fn has_one(word: u128, place: u32) -> bool
    requires { place < 128 }
    ensures { result ≡ is_one word place }
{
    word >> place & 1 == 1
}

/// The lowest place at which a word has a 1, and the word without that 1.
pub(super) fn next_place(word: u128) -> Option<(u32, u128)>
    ensures some { IfSome result (λ (place, rest). Takes word place rest) }
    ensures none { IfNone result (word ≡ 0) }
{
    if word == 0 {
        return None;
    }
    let place = word.trailing_zeros();
    Some((place, word & !(1 << place)))
}

/// The word with this bit at a place.
pub(super) fn with_bit(word: u128, place: u32, bit: bool) -> u128
    requires { place < 128 }
    ensures here { is_one result place ≡ bit }
    ensures others { (other : ℕ) → other < 128 → other ≢ place → is_one result other ≡ is_one word other }
    ensures fits { (bits : ℕ) → bits ≤ 128 → place < bits → word < 2 ^ bits → result < 2 ^ bits }
{
    let one = 1 << place;
    if bit { word | one } else { word & !one }
}

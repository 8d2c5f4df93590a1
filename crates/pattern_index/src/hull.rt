//! Patterns that have all headers of others.
ghost use Rattle.std.specs.Prelude.{◌≡◌, ◌≤◌, ◌↔◌, IsTrue, length, All};
ghost use Rattle.std.specs.Bool.{OnTrue};
ghost use Rattle.pattern_index.specs.Hulls.{IsWithin};

use super::tree::Entry;
use ternary_bits::Pattern;

/// Whether the hull has all headers of the pattern. Both have as many bits.
pub fn is_within(pattern: &Pattern, hull: &Pattern) -> bool
    requires { length pattern.now ≡ length hull.now }
    ensures { IsTrue result ↔ IsWithin pattern.now hull.now }
{
    pattern.meets(hull) && pattern.first_asked(hull).is_none()
}

/// A pattern that has all headers of these.
pub(super) fn hull_of(bits: u32, entries: &[Entry]) -> Pattern
    requires range { (1 ≤ bits) × (bits ≤ 128) }
    requires widths { All (λ entry. length entry.pattern ≡ bits) entries.now }
    ensures width { length result ≡ bits }
    ensures within { All (λ entry. IsWithin entry.pattern result) entries.now }
{
    let hull = near_hull(bits, entries);
    // Whatever the words of that hull are, it is taken only where it has them all.
    if has_all(&hull, entries) {
        hull
    } else {
        Pattern::all(bits)
    }
}

fn has_all(hull: &Pattern, entries: &[Entry]) -> bool
    requires { All (λ entry. length entry.pattern ≡ length hull.now) entries.now }
    ensures { OnTrue result (All (λ entry. IsWithin entry.pattern hull.now) entries.now) }
{
    entries.iter().all(|entry| is_within(&entry.pattern, hull))
}

/// The pattern that asks for the bits that these have in common.
fn near_hull(bits: u32, entries: &[Entry]) -> Pattern
    requires range { (1 ≤ bits) × (bits ≤ 128) }
    requires widths { All (λ entry. length entry.pattern ≡ bits) entries.now }
    ensures { length result ≡ bits }
{
    let [first, rest @ ..] = entries else {
        return Pattern::all(bits);
    };
    let value = first.pattern.value();
    let mut common = u128::MAX;
    for entry in rest {
        common &= entry.pattern.care() & !(entry.pattern.value() ^ value);
    }
    let care = first.pattern.care() & common;
    Pattern::of_words(bits, care, value & care)
}

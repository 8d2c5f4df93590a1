ghost use Rattle.std.specs.Prelude.{◌≡◌, ◌≢◌, ◌≤◌, ◌⊎◌, ◌&&◌, not, false, IfSome, IfNone, IsTrue, Some, length, All};
ghost use Rattle.std.specs.declared.cmp.Ordering.TheVariants.{Less};
ghost use Rattle.network_model.specs.Bits.{Header, matches};
ghost use Rattle.header_sets.specs.Spaces.{any_matches, is_left};
ghost use Rattle.header_sets.specs.Search.{cmp_from, IsFirst, Leaves};

use ternary_bits::{Header, Pattern};

/// What others leave of a pattern.
#[derive(Clone, Copy, Debug)]
enum Left {
    /// Nothing: one of them has all of it.
    Covered,
    /// All of it: none of them meets it.
    Whole,
    /// Headers of this part alone: one of them asks for a single bit that is free.
    Part(Pattern),
    /// Headers that go apart at this place, counted from the left, from 0: some of them ask for its bit, which is free,
    /// and left of it none does.
    Asked(u32),
}

/// The first header that matches the pattern and none of the others. It is the least, or where 1 comes before 0 at each
/// place the greatest.
pub(super) fn first_left(pattern: &Pattern, others: &[Pattern], ones_first: bool) -> Option<Header>
    requires { All (λ other. length other ≡ length pattern.now) others.now }
    ensures found { IfSome result (λ found. IsFirst ones_first pattern.now others.now found) }
    ensures none { IfNone result ((h : Header) → is_left pattern.now others.now h ≡ false) }
{
    let first = first_of(pattern, ones_first);
    if !is_matched(others, &first) {
        return Some(first);
    }
    match left_of(pattern, others) {
        Left::Covered => None,
        Left::Whole => Some(first),
        Left::Part(part) => first_left(&part, others, ones_first),
        Left::Asked(place) => {
            let half = pattern.with_letter(place, ones_first);
            if let Some(found) = first_left(&half, others, ones_first) {
                return Some(found);
            }
            first_left(&pattern.with_letter(place, !ones_first), others, ones_first)
        }
    }
}

/// Whether a pattern of the list matches.
pub(super) fn is_matched(patterns: &[Pattern], header: &Header) -> bool
    requires { All (λ p. length p ≡ length header.now) patterns.now }
    ensures { result ≡ any_matches patterns.now header.now }
{
    patterns.iter().any(|p| p.matches(header))
}

/// The first header that matches.
fn first_of(pattern: &Pattern, ones_first: bool) -> Header
    ensures width { length result ≡ length pattern.now }
    ensures member { IsTrue (matches pattern.now result) }
    ensures first { (h : Header) → IsTrue (matches pattern.now h) → cmp_from ones_first h result ≢ Less }
{
    if ones_first {
        pattern.greatest()
    } else {
        pattern.least()
    }
}

fn left_of(pattern: &Pattern, others: &[Pattern]) -> Left
    requires { All (λ other. length other ≡ length pattern.now) others.now }
    ensures { Leaves pattern.now others.now result }
{
    let mut asked = None;
    for other in others {
        if pattern.meets(other) {
            let Some(place) = pattern.first_asked(other) else {
                return Left::Covered;
            };
            if let Some(part) = pattern.only_piece(other) {
                return Left::Part(part);
            }
            asked = Some(leftmost(asked, place));
        }
    }
    match asked {
        None => Left::Whole,
        Some(place) => Left::Asked(place),
    }
}

/// The place that is further left.
fn leftmost(so_far: Option<u32>, place: u32) -> u32
    ensures one { (result ≡ place) ⊎ (so_far ≡ Some result) }
    ensures below { result ≤ place }
    ensures so_far { IfSome so_far (λ other. result ≤ other) }
{
    match so_far {
        Some(other) if other < place => other,
        _ => place,
    }
}

ghost use Rattle.std.specs.Prelude.{◌≡◌, ◌≢◌, ◌&&◌, ◌||◌, not, false, IfOk, OnOk, IfSome, IfNone, IsTrue, length, All};
ghost use Rattle.std.specs.Bool.{OnTrue};
ghost use Rattle.std.specs.declared.cmp.Ordering.TheVariants.{Less};
ghost use Rattle.network_model.specs.Bits.{Header, matches, header_cmp};
ghost use Rattle.header_sets.specs.Spaces.{any_matches, is_left, piece_has};
ghost use Rattle.header_sets.specs.Search.{IsFirst};

use super::search::{first_left, is_matched};
use no_memory::NoMemory;
use pattern_index::is_within;
use std::alloc::Global;
use std::marker::Model;
use ternary_bits::{Header, Pattern};

/// The headers that match a pattern and none of others. There is one at least.
#[derive(Debug, Drop)]
pub(super) struct Piece {
    pattern: Pattern,
    without: Vec<Pattern>,
    /// Kept beside them, so that whether a header is left needs no search.
    least: Header,
}

impl Model for Piece {
    ghost use Rattle.header_sets.specs.Spaces.{PieceValue, IsPiece};

    ghost Value = { PieceValue };

    ghost view = { λ p. record { pattern = p.pattern; without = p.without.items; least = p.least } };

    ghost invariant = { λ p. IsPiece p.pattern p.without.items p.least };
}

impl Piece {
    /// The headers that match the pattern.
    pub(super) fn of(alloc: Global, pattern: &Pattern) -> Piece
        ensures width { length result.pattern ≡ length pattern.now }
        ensures set { (h : Header) → piece_has result h ≡ matches pattern.now h }
    {
        Piece {
            pattern: *pattern,
            without: Vec::new(alloc),
            least: pattern.least(),
        }
    }

    pub(super) fn copy(&self) -> Result<Piece, NoMemory>
        ensures { IfOk result (λ copy. copy ≡ self.now) }
    {
        Ok(Piece {
            pattern: self.pattern,
            without: self.without.clone()?,
            least: self.least,
        })
    }

    pub(super) fn has(&self, h: &Header) -> bool
        requires { length h.now ≡ length self.now.pattern }
        ensures { result ≡ piece_has self.now h.now }
    {
        self.pattern.matches(h) && !is_matched(&self.without, h)
    }

    /// A pattern that has all headers of the piece.
    pub(super) fn pattern(&self) -> Pattern
        ensures { result ≡ self.now.pattern }
    {
        self.pattern
    }

    pub(super) fn least(&self) -> Header
        ensures member { IsTrue (piece_has self.now result) }
        ensures least { (h : Header) → IsTrue (piece_has self.now h) → header_cmp h result ≢ Less }
    {
        self.least
    }

    pub(super) fn greatest(&self) -> Header
        ensures member { IsTrue (piece_has self.now result) }
        ensures greatest { (h : Header) → IsTrue (piece_has self.now h) → header_cmp result h ≢ Less }
    {
        // The search finds one, since the least header is there.
        first_left(&self.pattern, &self.without, true).unwrap_or(self.least)
    }

    /// The headers of the piece that match the pattern and none of the others, if there are any.
    pub(super) fn meet_without(
        &self,
        p: &Pattern,
        others: &[Pattern],
    ) -> Result<Option<Piece>, NoMemory>
        requires width { length p.now ≡ length self.now.pattern }
        requires widths { All (λ other. length other ≡ length p.now) others.now }
        ensures width { IfOk result (λ found. IfSome found (λ piece. length piece.pattern ≡ length p.now)) }
        ensures some { IfOk result (λ found. IfSome found (λ piece. (h : Header) →
            piece_has piece h ≡ (piece_has self.now h && is_left p.now others.now h))) }
        ensures none { IfOk result (λ found. IfNone found ((h : Header) → (piece_has self.now h && is_left p.now others.now h) ≡ false)) }
    {
        match self.pattern.meet(p) {
            Some(pattern) => self.narrowed(&pattern, &self.without, others),
            None => Ok(None),
        }
    }

    /// The headers that match this pattern of some of the piece's and none of the others, if there are any. Those near are the
    /// patterns that the piece leaves out, or those of them that meet the pattern.
    pub(super) fn narrowed(
        &self,
        pattern: &Pattern,
        near: &[Pattern],
        others: &[Pattern],
    ) -> Result<Option<Piece>, NoMemory>
        requires width { length pattern.now ≡ length self.now.pattern }
        requires near_widths { All (λ other. length other ≡ length pattern.now) near.now }
        requires widths { All (λ other. length other ≡ length pattern.now) others.now }
        requires part { (h : Header) → IsTrue (is_left pattern.now near.now h) → IsTrue (piece_has self.now h) }
        ensures width { IfOk result (λ found. IfSome found (λ piece. length piece.pattern ≡ length pattern.now)) }
        ensures some { IfOk result (λ found. IfSome found (λ piece. (h : Header) →
            piece_has piece h ≡ (is_left pattern.now near.now h && not (any_matches others.now h)))) }
        ensures none { IfOk result (λ found. IfNone found ((h : Header) → (is_left pattern.now near.now h && not (any_matches others.now h)) ≡ false)) }
    {
        // Mostly one pattern has all that is left, and then nothing is copied.
        if is_covered(pattern, near) {
            return Ok(None);
        }
        if is_covered(pattern, others) {
            return Ok(None);
        }
        let mut without = Vec::new(*self.without.allocator());
        push_meeting(&mut without, pattern, near)?;
        push_meeting(&mut without, pattern, others)?;
        let Some(least) = least_left(pattern, &without, &self.least) else {
            return Ok(None);
        };
        Ok(Some(Piece {
            pattern: *pattern,
            without,
            least,
        }))
    }

    /// The patterns none of whose headers it has.
    pub(super) fn without(&self) -> &[Pattern]
        ensures patterns { result.now ≡ self.now.without }
        ensures widths { All (λ other. length other ≡ length self.now.pattern) result.now }
    {
        &self.without
    }
}

/// Whether one of the others has all headers of the pattern.
fn is_covered(pattern: &Pattern, others: &[Pattern]) -> bool
    requires { All (λ other. length other ≡ length pattern.now) others.now }
    ensures { OnTrue result ((h : Header) → is_left pattern.now others.now h ≡ false) }
{
    for other in others {
        if is_within(pattern, other) {
            return true;
        }
    }
    false
}

/// Puts those of the others that meet the pattern behind what is there: the rest match none of its headers.
fn push_meeting(
    kept: &mut Vec<Pattern>,
    pattern: &Pattern,
    others: &[Pattern],
) -> Result<(), NoMemory>
    requires { All (λ other. length other ≡ length pattern.now) others.now }
    ensures matched { OnOk result ((h : Header) → IsTrue (matches pattern.now h) →
        any_matches kept.new.items h ≡ (any_matches kept.old.items h || any_matches others.now h)) }
    ensures widths { OnOk result (All (λ other. length other ≡ length pattern.now) kept.old.items
        → All (λ other. length other ≡ length pattern.now) kept.new.items) }
{
    for other in others {
        if pattern.meets(other) {
            kept.push(*other)?;
        }
    }
    Ok(())
}

/// The least header that matches the pattern and none of the others, where none comes before the old one: the old one
/// if it is left.
fn least_left(pattern: &Pattern, others: &[Pattern], old: &Header) -> Option<Header>
    requires width { length old.now ≡ length pattern.now }
    requires widths { All (λ other. length other ≡ length pattern.now) others.now }
    requires old { (h : Header) → IsTrue (is_left pattern.now others.now h) → header_cmp h old.now ≢ Less }
    ensures some { IfSome result (λ least. IsFirst false pattern.now others.now least) }
    ensures none { IfNone result ((h : Header) → is_left pattern.now others.now h ≡ false) }
{
    if pattern.matches(old) && !is_matched(others, old) {
        return Some(*old);
    }
    first_left(pattern, others, false)
}

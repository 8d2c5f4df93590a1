//! A set of headers to be met with many patterns.
ghost use Rattle.std.specs.Prelude.{◌≡◌, ◌&&◌, not, ℕ, false, Some, IfOk, IfSome, IfNone, IsTrue, length, slice_get, All, Contains};
ghost use Rattle.std.specs.Option.{option_copied};
ghost use Rattle.network_model.specs.Bits.{Header, matches};
ghost use Rattle.network_model.specs.Bits as model;
ghost use Rattle.header_sets.specs.Spaces.{any_matches, holds, is_left, piece_has};

use super::piece::Piece;
use super::space::Space;
use no_memory::NoMemory;
use pattern_index::PatternIndex;
use std::alloc::Global;
use std::marker::Model;
use ternary_bits::Pattern;

/// A set with an index over the patterns that its pieces leave out, so that few of them are looked at for each pattern
/// that it is met with.
#[derive(Debug, Drop)]
pub struct IndexedSpace<'a> {
    bits: u32,
    pieces: Vec<IndexedPiece<'a>>,
}

impl<'a> Model for IndexedSpace<'a> {
    ghost use Rattle.header_sets.specs.Spaces.{SpaceValue, IsSpace};

    ghost Value = { SpaceValue };

    ghost view = { λ s. record { width = s.bits; pieces = s.pieces.items } };

    ghost invariant = { λ s. IsSpace s.bits s.pieces.items };
}

#[tactic(auto, unfolding(crate::specs::Spaces::holds))]
impl<'a> IndexedSpace<'a> {
    /// The same set.
    pub fn of(alloc: Global, space: &'a Space) -> Result<IndexedSpace<'a>, NoMemory>
        ensures { IfOk result (λ indexed. indexed ≡ space.now) }
    {
        let mut pieces = Vec::with_capacity(alloc, space.pieces().len())?;
        for piece in space.pieces() {
            pieces.push(IndexedPiece::of(alloc, piece)?)?;
        }
        Ok(IndexedSpace {
            bits: space.bits(),
            pieces,
        })
    }

    /// The headers of the set that match the pattern and none of the others.
    pub fn meet_without(&self, p: &Pattern, others: &[Pattern]) -> Result<Space, NoMemory>
        requires width { length p.now ≡ self.now.width }
        requires widths { All (λ other. length other ≡ self.now.width) others.now }
        ensures width { IfOk result (λ space. space.width ≡ self.now.width) }
        ensures set { IfOk result (λ space. (h : Header) →
            holds space h ≡ (holds self.now h && (matches p.now h && not (any_matches others.now h)))) }
    {
        let alloc = *self.pieces.allocator();
        let mut pieces = Vec::with_capacity(alloc, self.pieces.len())?;
        for own in &self.pieces {
            if let Some(piece) = own.meet_without(alloc, p, others)? {
                pieces.push(piece)?;
            }
        }
        Ok(Space::of_pieces(self.bits, pieces))
    }
}

/// A piece with an index over the patterns that it leaves out.
#[derive(Debug, Drop)]
struct IndexedPiece<'a> {
    piece: &'a Piece,
    index: PatternIndex,
}

impl<'a> Model for IndexedPiece<'a> {
    ghost use Rattle.header_sets.specs.Spaces.{PieceValue};
    ghost use Rattle.header_sets.specs.Indexed.{IsIndexed};

    ghost Value = { PieceValue };

    ghost view = { λ own. own.piece.now };

    ghost invariant = { λ own. IsIndexed own.piece.now own.index };
}

impl<'a> IndexedPiece<'a> {
    fn of(alloc: Global, piece: &'a Piece) -> Result<IndexedPiece<'a>, NoMemory>
        ensures { IfOk result (λ own. own ≡ piece.now) }
    {
        let bits = piece.pattern().bits();
        let index = PatternIndex::of(alloc, bits, piece.without())?;
        Ok(IndexedPiece { piece, index })
    }

    /// The headers of the piece that match the pattern and none of the others, if there are any.
    fn meet_without(
        &self,
        alloc: Global,
        p: &Pattern,
        others: &[Pattern],
    ) -> Result<Option<Piece>, NoMemory>
        requires width { length p.now ≡ length self.now.pattern }
        requires widths { All (λ other. length other ≡ length p.now) others.now }
        ensures width { IfOk result (λ found. IfSome found (λ piece. length piece.pattern ≡ length p.now)) }
        ensures some { IfOk result (λ found. IfSome found (λ piece. (h : Header) →
            piece_has piece h ≡ (piece_has self.now h && is_left p.now others.now h))) }
        ensures none { IfOk result (λ found. IfNone found ((h : Header) → (piece_has self.now h && is_left p.now others.now h) ≡ false)) }
    {
        match self.piece.pattern().meet(p) {
            Some(pattern) => {
                let near = self.near(alloc, &pattern)?;
                self.piece.narrowed(&pattern, &near, others)
            }
            None => Ok(None),
        }
    }

    /// Those of the patterns that it leaves out that meet the pattern: no other matches one of its headers.
    fn near(&self, alloc: Global, pattern: &Pattern) -> Result<Vec<Pattern>, NoMemory>
        requires { length pattern.now ≡ length self.now.pattern }
        ensures widths { IfOk result (λ near. All (λ other. length other ≡ length pattern.now) near.items) }
        ensures matched { IfOk result (λ near. (h : Header) → IsTrue (matches pattern.now h) → any_matches near.items h ≡ any_matches self.now.without h) }
    {
        let mut places = Vec::new(alloc);
        self.index.add_meeting(pattern, &mut places)?;
        let near = patterns_at(alloc, self.piece.without(), &places)?;
        Ok(near)
    }
}

/// The patterns at these places of a list.
fn patterns_at(
    alloc: Global,
    patterns: &[Pattern],
    places: &[usize],
) -> Result<Vec<Pattern>, NoMemory>
    ensures listed { IfOk result (λ found. All (λ pattern. Contains patterns.now pattern) found.items) }
    ensures every { IfOk result (λ found. (place : ℕ) (pattern : model.Pattern) → Contains places.now place → slice_get patterns.now place ≡ Some pattern →
        Contains found.items pattern) }
{
    let mut found = Vec::with_capacity(alloc, places.len())?;
    for place in places {
        if let Some(pattern) = pattern_at(patterns, *place) {
            found.push(*pattern)?;
        }
    }
    Ok(found)
}

fn pattern_at(patterns: &[Pattern], place: usize) -> Option<&Pattern>
    ensures { option_copied result ≡ slice_get patterns.now place }
{
    patterns.get(place)
}

ghost use Rattle.std.specs.Prelude.{◌≡◌, ◌≢◌, ◌≤◌, ◌&&◌, not, false, IfOk, IfSome, IfNone, IsTrue, length, slice_get, All};
ghost use Rattle.std.specs.Bool.{OnTrue, OnFalse};
ghost use Rattle.std.specs.declared.cmp.Ordering.TheVariants.{Less};
ghost use Rattle.network_model.specs.Bits.{Header, matches, header_cmp};
ghost use Rattle.header_sets.specs.Spaces.{any_matches, holds, hulls, IsSpace};

use super::piece::Piece;
use no_memory::NoMemory;
use std::alloc::Global;
use std::marker::Model;
use ternary_bits::{Header, Pattern};

/// A set of headers of one width, 1 to 128 bits.
#[derive(Debug, Drop)]
pub struct Space {
    bits: u32,
    /// The set is their union. A header may be in several.
    pieces: Vec<Piece>,
}

impl Model for Space {
    ghost use Rattle.header_sets.specs.Spaces.{SpaceValue, IsSpace};

    ghost Value = { SpaceValue };

    ghost view = { λ s. record { width = s.bits; pieces = s.pieces.items } };

    ghost invariant = { λ s. IsSpace s.bits s.pieces.items };
}

#[tactic(auto, unfolding(crate::specs::Spaces::holds, crate::specs::Spaces::hulls))]
impl Space {
    /// The headers that match a pattern of the list.
    pub fn of_patterns(alloc: Global, bits: u32, list: &[Pattern]) -> Result<Space, NoMemory>
        requires range { (1 ≤ bits) × (bits ≤ 128) }
        requires widths { All (λ p. length p ≡ bits) list.now }
        ensures width { IfOk result (λ space. space.width ≡ bits) }
        ensures union { IfOk result (λ space. (h : Header) → holds space h ≡ any_matches list.now h) }
    {
        let mut pieces = Vec::new(alloc);
        for p in list {
            pieces.push(Piece::of(alloc, p))?;
        }
        Ok(Space { bits, pieces })
    }

    /// How many bits its headers have.
    pub fn bits(&self) -> u32
        ensures width { result ≡ self.now.width }
        ensures range { (1 ≤ result) × (result ≤ 128) }
        ensures headers { (h : Header) → IsTrue (holds self.now h) → length h ≡ result }
    {
        self.bits
    }

    /// The headers of the set that match the pattern.
    pub fn meet(&self, p: &Pattern) -> Result<Space, NoMemory>
        requires { length p.now ≡ self.now.width }
        ensures width { IfOk result (λ space. space.width ≡ self.now.width) }
        ensures set { IfOk result (λ space. (h : Header) → holds space h ≡ (holds self.now h && matches p.now h)) }
    {
        self.meet_without(p, &[])
    }

    /// The headers of the set that don't match the pattern.
    pub fn minus(&self, p: &Pattern) -> Result<Space, NoMemory>
        requires { length p.now ≡ self.now.width }
        ensures width { IfOk result (λ space. space.width ≡ self.now.width) }
        ensures set { IfOk result (λ space. (h : Header) → holds space h ≡ (holds self.now h && not (matches p.now h))) }
    {
        self.meet_without(&Pattern::all(self.bits), &[*p])
    }

    /// The headers of the set that match the pattern and none of the others.
    pub fn meet_without(&self, p: &Pattern, others: &[Pattern]) -> Result<Space, NoMemory>
        requires width { length p.now ≡ self.now.width }
        requires widths { All (λ other. length other ≡ self.now.width) others.now }
        ensures width { IfOk result (λ space. space.width ≡ self.now.width) }
        ensures set { IfOk result (λ space. (h : Header) →
            holds space h ≡ (holds self.now h && (matches p.now h && not (any_matches others.now h)))) }
    {
        let mut pieces = Vec::with_capacity(*self.pieces.allocator(), self.pieces.len())?;
        for own in &self.pieces {
            if let Some(piece) = own.meet_without(p, others)? {
                pieces.push(piece)?;
            }
        }
        Ok(Space {
            bits: self.bits,
            pieces,
        })
    }

    pub fn copy(&self) -> Result<Space, NoMemory>
        ensures { IfOk result (λ copy. copy ≡ self.now) }
    {
        let mut pieces = Vec::with_capacity(*self.pieces.allocator(), self.pieces.len())?;
        for own in &self.pieces {
            pieces.push(own.copy()?)?;
        }
        Ok(Space {
            bits: self.bits,
            pieces,
        })
    }

    pub fn is_empty(&self) -> bool
        ensures empty { OnTrue result ((h : Header) → holds self.now h ≡ false) }
        ensures member { OnFalse result ((h : Header) × IsTrue (holds self.now h)) }
    {
        self.least().is_none()
    }

    pub fn has(&self, h: &Header) -> bool
        requires { length h.now ≡ self.now.width }
        ensures { result ≡ holds self.now h.now }
    {
        self.pieces.iter().any(|piece| piece.has(h))
    }

    /// How many hulls the set has: patterns that have all its headers together, found with no search.
    pub fn hull_count(&self) -> usize
        ensures count { result ≡ length (hulls self.now) }
        ensures has { (h : Header) → IsTrue (holds self.now h) → IsTrue (any_matches (hulls self.now) h) }
    {
        self.pieces.len()
    }

    /// One of the hulls.
    pub fn hull(&self, i: usize) -> Option<Pattern>
        ensures pattern { result ≡ slice_get (hulls self.now) i }
        ensures width { IfSome result (λ hull. length hull ≡ self.now.width) }
    {
        match self.pieces.get(i) {
            Some(piece) => Some(piece.pattern()),
            None => None,
        }
    }

    pub(super) fn pieces(&self) -> &[Piece]
        ensures pieces { result.now ≡ self.now.pieces }
        ensures space { IsSpace self.now.width result.now }
    {
        &self.pieces
    }

    /// The set of the headers of the pieces.
    pub(super) fn of_pieces(bits: u32, pieces: Vec<Piece>) -> Space
        requires { IsSpace bits pieces.items }
        ensures { result ≡ record { width = bits; pieces = pieces.items } }
    {
        Space { bits, pieces }
    }

    /// The least header of the set.
    pub fn least(&self) -> Option<Header>
        ensures member { IfSome result (λ least. IsTrue (holds self.now least)) }
        ensures least { IfSome result (λ least. (h : Header) → IsTrue (holds self.now h) → header_cmp h least ≢ Less) }
        ensures none { IfNone result ((h : Header) → holds self.now h ≡ false) }
    {
        let [first, rest @ ..] = self.pieces.as_slice() else {
            return None;
        };
        let mut least = first.least();
        for piece in rest {
            let other = piece.least();
            if other.number() < least.number() {
                least = other;
            }
        }
        Some(least)
    }

    /// The greatest header of the set.
    pub fn greatest(&self) -> Option<Header>
        ensures member { IfSome result (λ greatest. IsTrue (holds self.now greatest)) }
        ensures greatest { IfSome result (λ greatest. (h : Header) → IsTrue (holds self.now h) → header_cmp greatest h ≢ Less) }
        ensures none { IfNone result ((h : Header) → holds self.now h ≡ false) }
    {
        let [first, rest @ ..] = self.pieces.as_slice() else {
            return None;
        };
        let mut greatest = first.greatest();
        for piece in rest {
            let other = piece.greatest();
            if other.number() > greatest.number() {
                greatest = other;
            }
        }
        Some(greatest)
    }
}

ghost use Rattle.std.specs.Prelude.{◌≡◌, ◌≢◌, ◌<◌, [], ◌∷◌, IfSome, IfNone, length, slice_set};
ghost use Rattle.network_model.specs.Bits.{Bit};
ghost use Rattle.ternary_bits.specs.Asking.{first_asked};
ghost use Rattle.ternary_bits.specs.Pieces.{pieces};

use super::pattern::Pattern;
use super::word::with_bit;

impl Pattern {
    /// The leftmost place that is free here and at which the other asks for a bit, counted from the left, from 0.
    pub fn first_asked(&self, other: &Pattern) -> Option<u32>
        requires { length self.now ≡ length other.now }
        ensures { result ≡ first_asked self.now other.now }
    {
        let free = other.care & !self.care;
        if free == 0 {
            return None;
        }
        Some(self.bits + free.leading_zeros() - 128)
    }

    /// What is left of this pattern without the other, which meets it, where the other asks for one bit that is free here
    /// and for no second one.
    pub fn only_piece(&self, other: &Pattern) -> Option<Pattern>
        requires { length self.now ≡ length other.now }
        ensures some { IfSome result (λ piece. pieces self.now other.now ≡ piece ∷ []) }
        ensures none { IfNone result (length (pieces self.now other.now) ≢ 1) }
    {
        let (piece, rest) = self.first_piece(other)?;
        if rest.first_piece(other).is_some() {
            return None;
        }
        Some(piece)
    }

    /// This pattern, asking for the bit at a place, counted from the left, from 0.
    pub fn with_letter(&self, place: u32, bit: bool) -> Pattern
        requires { place < length self.now }
        ensures { result ≡ slice_set self.now place (Bit bit) }
    {
        let place = self.bits - 1 - place;
        Pattern {
            bits: self.bits,
            care: with_bit(self.care, place, true),
            value: with_bit(self.value, place, bit),
        }
    }
}

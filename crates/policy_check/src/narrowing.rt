//! The least header found so far.
ghost use Rattle.std.specs.Prelude.{◌≡◌, ◌≢◌, length, IfSome, IfNone, IsTrue};
ghost use Rattle.std.specs.Bool.{OnFalse};
ghost use Rattle.std.specs.declared.cmp.Ordering.TheVariants.{Less};
ghost use Rattle.network_model.specs.Bits.{Header, header_cmp};
ghost use Rattle.header_sets.specs.Spaces.{holds};
ghost use Rattle.policy_check.specs.Narrowing.{IsUpTo, IsNarrowed};

use header_sets::Space;
use ternary_bits::Header;

/// Puts the least header of the set in place of the one found before, where it is less.
pub(crate) fn lower(least: &mut Option<Header>, space: &Space)
    requires { IfSome least.old (λ old. length old ≡ space.now.width) }
    ensures width { IfSome least.new (λ new. length new ≡ space.now.width) }
    ensures narrowed { IsNarrowed (λ h. IsTrue (holds space.now h)) least.old least.new }
{
    if let Some(first) = lesser_member(space, least) {
        *least = Some(first);
    }
}

/// Whether the set has a header that is less than the one found.
pub(crate) fn has_lesser(space: &Space, least: &Option<Header>) -> bool
    requires { IfSome least.now (λ old. length old ≡ space.now.width) }
    ensures { OnFalse result ((h : Header) → IsTrue (holds space.now h) → IsUpTo least.now h) }
{
    lesser_member(space, least).is_some()
}

/// The least header of the set, where it is less than the one found.
fn lesser_member(space: &Space, least: &Option<Header>) -> Option<Header>
    requires { IfSome least.now (λ old. length old ≡ space.now.width) }
    ensures member { IfSome result (λ first. IsTrue (holds space.now first)) }
    ensures width { IfSome result (λ first. length first ≡ space.now.width) }
    ensures first { IfSome result (λ first. (h : Header) → IsTrue (holds space.now h) → header_cmp h first ≢ Less) }
    ensures lesser { IfSome result (λ first. IfSome least.now (λ old. header_cmp first old ≡ Less)) }
    ensures none { IfNone result ((h : Header) → IsTrue (holds space.now h) → IsUpTo least.now h) }
{
    let first = space.least()?;
    // The headers of a set are as wide as the set.
    prove_eq!(first.bits(), space.bits());
    let Some(old) = least else {
        return Some(first);
    };
    if first.number() < old.number() {
        Some(first)
    } else {
        None
    }
}

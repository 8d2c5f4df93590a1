//! The rules of one box with an index, so that those that a set can't reach are passed by without a look at each.
ghost use Rattle.std.specs.Prelude.{◌≡◌, ◌<◌, ◌^◌, ◌&&◌, ◌⊎◌, ℕ, false, Some, IfOk, IsTrue, length, map, slice_get, Contains};
ghost use Rattle.std.specs.Option.{option_copied};
ghost use Rattle.std.specs.List.Sorted.{IsStrictlyIncreasing};
ghost use Rattle.network_model.specs.Bits.{Header, matches};
ghost use Rattle.network_model.specs.Rewrites.{rewritten};
ghost use Rattle.net_types.specs.declared.rule.Rule as declared;
ghost use Rattle.header_sets.specs.Spaces.{holds};
ghost use Rattle.pattern_index.specs.Trees.{IsIndexOf};
ghost use Rattle.box_step.specs.Guides.{IsGuide};

use header_sets::Space;
use net_types::{BoxId, Network, Rule};
use no_memory::NoMemory;
use pattern_index::{PatternIndex, is_within};
use std::alloc::Global;
use ternary_bits::{Pattern, Rewrite};

/// The rules of a box.
#[derive(Debug, Drop)]
pub(super) struct Guide {
    pub(super) at: BoxId,
    /// In the order in which the box tries them.
    pub(super) rules: Vec<Rule>,
    /// Of their patterns.
    pub(super) index: PatternIndex,
}

/// The guide of a box.
pub(super) fn guide_of(alloc: Global, net: &Network, at: BoxId) -> Result<Guide, NoMemory>
    ensures guide { IfOk result (IsGuide net.now) }
    ensures of { IfOk result (λ guide. guide.«at» ≡ at) }
{
    let bits = net.bits();
    let rules = Vec::from_slice(alloc, net.rules_at(at))?;
    let patterns = patterns_of(alloc, &rules)?;
    let index = PatternIndex::of(alloc, bits, &patterns)?;
    Ok(Guide { at, rules, index })
}

fn patterns_of(alloc: Global, rules: &[Rule]) -> Result<Vec<Pattern>, NoMemory>
    ensures { IfOk result (λ patterns. patterns.items ≡ map (λ rule. rule.pattern) rules.now) }
{
    let patterns: Vec<Pattern> = rules.iter().map(|rule| rule.pattern).collect(alloc)?;
    Ok(patterns)
}

/// The rule at a place.
pub(super) fn rule_in(rules: &[Rule], place: usize) -> Option<&Rule>
    ensures { option_copied result ≡ slice_get rules.now place }
{
    rules.get(place)
}

impl Guide {
    /// The places of rules that may take a header of the set, rising. A rule at another place takes none.
    pub(super) fn places_met(
        &self,
        alloc: Global,
        space: &Space,
        rewrite: &Rewrite,
    ) -> Result<Vec<usize>, NoMemory>
        requires space { space.now.width ≡ length rewrite.now }
        requires width { self.now.index.width ≡ length rewrite.now }
        requires index { IsIndexOf self.now.index (map (λ rule. rule.pattern) self.now.rules.items) }
        ensures rise { IfOk result (λ places. IsStrictlyIncreasing places.items) }
        ensures met { IfOk result (λ places. (place : ℕ) (rule : declared.Rule) → slice_get self.now.rules.items place ≡ Some rule →
            Contains places.items place ⊎ ((h : Header) → (holds space.now h && matches rule.pattern (rewritten rewrite.now h)) ≡ false)) }
    {
        prove_eq!(space.bits(), rewrite.bits());
        let mut places = Vec::new(alloc);
        for i in 0..space.hull_count() {
            if let Some(hull) = space.hull(i) {
                let image = image_of(&hull, rewrite);
                self.index.add_meeting(&image, &mut places)?;
            }
        }
        places.sort()?;
        places.dedup();
        Ok(places)
    }
}

/// A pattern that has what the rewrite makes of each header of the pattern.
fn image_of(pattern: &Pattern, rewrite: &Rewrite) -> Pattern
    requires { length pattern.now ≡ length rewrite.now }
    ensures width { length result ≡ length rewrite.now }
    ensures has { (h : Header) → length h ≡ length rewrite.now → IsTrue (matches pattern.now h) → IsTrue (matches result (rewritten rewrite.now h)) }
{
    let near = near_image(pattern, rewrite);
    // Whatever the words of that pattern are, it is taken only where it has them all.
    if let Some(sources) = rewrite.before(&near) {
        if is_within(pattern, &sources) {
            return near;
        }
    }
    Pattern::all(rewrite.bits())
}

/// The pattern that asks for the bits that all headers of the pattern have in common once they are rewritten.
fn near_image(pattern: &Pattern, rewrite: &Rewrite) -> Pattern
    requires { length pattern.now ≡ length rewrite.now }
    ensures { length result ≡ length rewrite.now }
{
    let bits = rewrite.bits();
    let least = rewrite.apply(&pattern.least()).number();
    let greatest = rewrite.apply(&pattern.greatest()).number();
    let care = Pattern::all(bits).greatest().number() & !(least ^ greatest);
    Pattern::of_words(bits, care, least & care)
}

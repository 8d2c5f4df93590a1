//! Where each rule of a network stands among those by box and precedence, by number.

ghost use Rattle.std.specs.Prelude.{◌≡◌, ◌+◌, ◌<◌, ◌≤◌, ◌^◌, true, [], ◌∷◌, map, length, All, AllPairs, Contains, IfOk};
ghost use Rattle.network_model.specs.Limits.{most_rules};
ghost use Rattle.net_types.specs.Tables.{IsPlaced, comes_before, at_places, raised, lowered};

use super::RulePlace;
use super::precedence::place_in_precedence;
use crate::ids::RuleId;
use crate::rule::Rule;
use no_memory::NoMemory;
use std::alloc::Global;

/// The places of the rules among all in order, as the rules come.
pub fn places_of(
    alloc: Global,
    rules: &[Rule],
    ordered: &[Rule],
) -> Result<Vec<RulePlace>, NoMemory>
    requires order { AllPairs (λ a b. comes_before a b ≡ true) ordered.now }
    requires within { length ordered.now ≤ most_rules }
    requires there { All (Contains ordered.now) rules.now }
    ensures placed { IfOk result (λ places. All (IsPlaced ordered.now) places.items) }
    ensures rules { IfOk result (λ places. at_places ordered.now places.items ≡ rules.now) }
{
    let mut places = Vec::with_capacity(alloc, rules.len())?;
    for rule in rules {
        places.push(place_among(rule, ordered))?;
    }
    Ok(places)
}

fn place_among(rule: &Rule, ordered: &[Rule]) -> RulePlace
    requires order { AllPairs (λ a b. comes_before a b ≡ true) ordered.now }
    requires within { length ordered.now ≤ most_rules }
    requires there { Contains ordered.now rule.now }
    ensures placed { IsPlaced ordered.now result }
    ensures rule { at_places ordered.now (result ∷ []) ≡ rule.now ∷ [] }
{
    RulePlace {
        id: rule.id,
        place: place_in_precedence(ordered, rule) as u32,
    }
}

/// Makes way at a place for the rule of this number, which has its row already.
pub fn raise(places: &mut [RulePlace], id: RuleId, start: u32)
    requires { All (λ row. row.place + 1 < 2 ^ 32) places.old }
    ensures { places.new ≡ map (raised id start) places.old }
{
    for i in 0..places.len() {
        places[i] = raised(&places[i], id, start);
    }
}

fn raised(row: &RulePlace, id: RuleId, start: u32) -> RulePlace
    requires { row.now.place + 1 < 2 ^ 32 }
    ensures { result ≡ raised id start row.now }
{
    let moves = row.id != id && row.place >= start;
    RulePlace {
        id: row.id,
        place: if moves { row.place + 1 } else { row.place },
    }
}

/// Closes the gap that a rule left.
pub fn lower(places: &mut [RulePlace], gap: u32)
    ensures { places.new ≡ map (lowered gap) places.old }
{
    for i in 0..places.len() {
        places[i] = lowered(&places[i], gap);
    }
}

fn lowered(row: &RulePlace, gap: u32) -> RulePlace
    ensures { result ≡ lowered gap row.now }
{
    let moves = row.place > gap;
    RulePlace {
        id: row.id,
        place: if moves { row.place - 1 } else { row.place },
    }
}

//! Marks of rules, each at the rule's place among the rules of a network, which stand in rising order.
ghost use Rattle.std.specs.Prelude.{◌≡◌, ◌<◌, ℕ, Bool, false, not, ◌&&◌, ◌||◌, List, length, slice_index, slice_index_or, IfOk, Contains};
ghost use Rattle.std.specs.List.{filter};
ghost use Rattle.std.specs.List.Sorted.{IsStrictlyIncreasing};
ghost use Rattle.fault_model.specs.Outcomes.{has};
ghost use Rattle.suspect_book.specs.Fewness.{IsFew};
ghost use Rattle.suspect_book.specs.Marked.{Tells, TellsLeft};

use super::few::Few;
use super::sheet::Sheet;
use net_types::{RuleId, RuleList};
use no_memory::NoMemory;
use rule_cover::place_of;
use std::alloc::Global;

/// Marks these rules too.
pub(crate) fn mark(numbers: &[RuleId], marks: &mut [bool], rules: &[RuleId])
    requires rises { IsStrictlyIncreasing numbers.now }
    requires among { (i : ℕ) → i < length rules.now → Contains numbers.now (slice_index rules.now i) }
    requires room { length marks.old ≡ length numbers.now }
    ensures { (test : ℕ → Bool) → Tells numbers.now test marks.old → Tells numbers.now (λ r. has rules.now r || test r) marks.new }
{
    for rule in rules {
        marks[place_of(numbers, *rule)] = true;
    }
}

/// These rules passed too.
pub(crate) fn mark_passed(numbers: &[RuleId], sheet: &mut Sheet, rules: &[RuleId])
    requires rises { IsStrictlyIncreasing numbers.now }
    requires among { (i : ℕ) → i < length rules.now → Contains numbers.now (slice_index rules.now i) }
    requires room { length sheet.old.passed ≡ length numbers.now }
    ensures passed { (test : ℕ → Bool) → Tells numbers.now test sheet.old.passed → Tells numbers.now (λ r. has rules.now r || test r) sheet.new.passed }
    ensures room { length sheet.new.passed ≡ length sheet.old.passed }
    ensures stays { sheet.new ≡ record sheet.old { passed = sheet.new.passed } }
{
    for rule in rules {
        sheet.pass(place_of(numbers, *rule));
    }
}

/// These rules failed too.
pub(crate) fn mark_failed(numbers: &[RuleId], sheet: &mut Sheet, rules: &[RuleId])
    requires rises { IsStrictlyIncreasing numbers.now }
    requires among { (i : ℕ) → i < length rules.now → Contains numbers.now (slice_index rules.now i) }
    requires room { length sheet.old.failed ≡ length numbers.now }
    ensures failed { (test : ℕ → Bool) → Tells numbers.now test sheet.old.failed → Tells numbers.now (λ r. has rules.now r || test r) sheet.new.failed }
    ensures room { length sheet.new.failed ≡ length sheet.old.failed }
    ensures stays { sheet.new ≡ record sheet.old { failed = sheet.new.failed } }
{
    for rule in rules {
        sheet.fail(place_of(numbers, *rule));
    }
}

/// Whether the rule at a place is marked and not cleared.
fn is_left_at(marks: &[bool], cleared: &[bool], place: usize) -> bool
    requires marks { place < length marks.now }
    requires cleared { place < length cleared.now }
    ensures { result ≡ (slice_index_or marks.now place false && not (slice_index_or cleared.now place false)) }
{
    marks[place] && !cleared[place]
}

/// Whether a rule is marked and not cleared.
fn is_left(numbers: &[RuleId], marks: &[bool], cleared: &[bool], rule: RuleId) -> bool
    requires rises { IsStrictlyIncreasing numbers.now }
    requires among { Contains numbers.now rule }
    requires marks { length marks.now ≡ length numbers.now }
    requires cleared { length cleared.now ≡ length numbers.now }
    ensures { (test : ℕ → Bool) → TellsLeft numbers.now test marks.now cleared.now → result ≡ test rule }
{
    is_left_at(marks, cleared, place_of(numbers, rule))
}

/// How many of these rules are marked and not cleared.
pub(crate) fn few_left(
    numbers: &[RuleId],
    marks: &[bool],
    cleared: &[bool],
    rules: &[RuleId],
) -> Few
    requires rises { IsStrictlyIncreasing numbers.now }
    requires among { (i : ℕ) → i < length rules.now → Contains numbers.now (slice_index rules.now i) }
    requires marks { length marks.now ≡ length numbers.now }
    requires cleared { length cleared.now ≡ length numbers.now }
    ensures { (test : ℕ → Bool) → TellsLeft numbers.now test marks.now cleared.now → IsFew (filter test rules.now) result }
{
    let mut few = Few::Nothing;
    for rule in rules {
        if is_left(numbers, marks, cleared, *rule) {
            few = few.with(*rule);
        }
    }
    few
}

/// The rules that are marked and not cleared, in number order.
pub(crate) fn rules_left(
    alloc: Global,
    numbers: &[RuleId],
    marks: &[bool],
    cleared: &[bool],
) -> Result<RuleList, NoMemory>
    requires marks { length marks.now ≡ length numbers.now }
    requires cleared { length cleared.now ≡ length numbers.now }
    ensures { (test : ℕ → Bool) → TellsLeft numbers.now test marks.now cleared.now → IfOk result (λ list. list ≡ filter test numbers.now) }
{
    let mut list = RuleList::new(alloc);
    for (place, number) in numbers.iter().enumerate() {
        if is_left_at(marks, cleared, place) {
            list.push(*number)?;
        }
    }
    Ok(list)
}

//! Words that are pairs of a table.
ghost use Rattle.std.specs.Prelude.{◌≡◌, ◌≢◌, ◌↔◌, ◌+◌, ◌<◌, ◌≤◌, ℕ, List, map, length, Some, None, IsTrue, OnOk, IfOk, IfErr, IfSome, IfNone, Contains, slice_get};
ghost use Rattle.std.specs.Fmt.{decimal};
ghost use Rattle.std.specs.String.{string_bytes};
ghost use Rattle.text_words.specs.Numbers.{AreNumbersIn};
ghost use Rattle.command_line.specs.Table.{Named, named, IsTable, IsRequired, TakesNumber, TakesNumbers, IsGiven, IsNameAt, IsPairAt, IsLine, IsNumberOf, AreNumbersOf, IsBadAt};
ghost use Rattle.command_line.specs.Judging.{IsStuckAt};

use crate::name::{Name, Value, read};
use no_memory::NoMemory;
use std::alloc::Global;
use text_words::numbers;

/// Whether the words are pairs of the table, each name at most once and each that must be given, or else the place, from 1, of
/// the first word that can't stand there, or one past the last where more are needed.
pub fn judge(words: &[String], names: &[Name]) -> Result<(), u64>
    requires { IsTable (map named names.now) }
    ensures ok { OnOk result (IsLine (map named names.now) (map string_bytes words.now)) }
    ensures err { IfErr result (λ at. IsBadAt (IsLine (map named names.now)) (map string_bytes words.now) at) }
{
    let mut at = 0;
    while at < words.len() {
        judge_pair(words, at, names)?;
        at += 2;
    }
    if has_required(words, names) {
        Ok(())
    } else {
        Err(words.len() as u64 + 1)
    }
}

/// The number that good words give for a name of their table, or its usual one.
pub fn number_of(words: &[String], name: &Name) -> u64
    requires { TakesNumber name.now.value }
    ensures { (names : List Named) → IsTable names → Contains names (named name.now) → IsLine names (map string_bytes words.now)
        → IsNumberOf (named name.now) (map string_bytes words.now) result }
{
    let Value::Number { least, most, usual } = name.value else {
        unreachable!()
    };
    match place_of(words, name.word) {
        Some(at) => number_at(words, at + 1, least, most),
        None => usual.unwrap_or(least),
    }
}

/// The numbers that good words give for a name of their table, or none where it isn't given.
pub fn numbers_of(alloc: Global, words: &[String], name: &Name) -> Result<Vec<u64>, NoMemory>
    requires { TakesNumbers name.now.value }
    ensures { IfOk result (λ given. (names : List Named) → IsTable names → Contains names (named name.now) → IsLine names (map string_bytes words.now)
        → AreNumbersOf (named name.now) (map string_bytes words.now) given.items) }
{
    let Value::Numbers { most } = name.value else {
        unreachable!()
    };
    match place_of(words, name.word) {
        Some(at) => numbers_at(alloc, words, at + 1, most),
        None => Ok(Vec::new(alloc)),
    }
}

/// The number that stands at a place, where one of this range stands there.
fn number_at(words: &[String], at: usize, least: u64, most: u64) -> u64
    ensures { (n : ℕ) → slice_get (map string_bytes words.now) at ≡ Some (decimal n) → least ≤ n → n ≤ most
        → (slice_get (map string_bytes words.now) at ≡ Some (decimal result)) × (least ≤ result) × (result ≤ most) }
{
    match words.get(at) {
        Some(word) => read(word.as_str(), least, most).unwrap_or(least),
        None => least,
    }
}

/// The numbers that stand at a place, where a list of such numbers stands there.
fn numbers_at(alloc: Global, words: &[String], at: usize, most: u64) -> Result<Vec<u64>, NoMemory>
    ensures { IfOk result (λ found. (word ns : List ℕ) → slice_get (map string_bytes words.now) at ≡ Some word → AreNumbersIn most word ns
        → AreNumbersIn most word found.items) }
{
    let Some(word) = words.get(at) else {
        return Ok(Vec::new(alloc));
    };
    match numbers(alloc, word.as_bytes(), most)? {
        Some(found) => Ok(found),
        None => Ok(Vec::new(alloc)),
    }
}

/// Whether a name and a word that may follow it stand at a place, counted from 0, and the name at no earlier one.
fn judge_pair(words: &[String], at: usize, names: &[Name]) -> Result<(), u64>
    requires { at < length words.now }
    ensures ok { OnOk result (IsPairAt (map named names.now) (map string_bytes words.now) at) }
    ensures err { IfErr result (λ place. IsStuckAt (map named names.now) (map string_bytes words.now) at place) }
{
    let place = at as u64;
    let Some(name) = name_at(words, at, names) else {
        return Err(place + 1);
    };
    match words.get(at + 1) {
        Some(word) if name.value.takes(word.as_str()) => Ok(()),
        _ => Err(place + 2),
    }
}

/// The name that stands at a place, if it stands at no earlier one.
fn name_at<'a, 'b>(words: &[String], at: usize, names: &'a [Name<'b>]) -> Option<&'a Name<'b>>
    requires { at < length words.now }
    ensures some { IfSome result (λ name. IsNameAt (map named names.now) (map string_bytes words.now) at (named name.now)) }
    ensures none { IfNone result ((name : Named) → IsNameAt (map named names.now) (map string_bytes words.now) at name → ⊥) }
{
    let name = find(names, words[at].as_str())?;
    match place_of(&words[..at], name.word) {
        Some(_) => None,
        None => Some(name),
    }
}

/// The name of the table that is this word.
fn find<'a, 'b>(names: &'a [Name<'b>], word: &str) -> Option<&'a Name<'b>>
    ensures some { IfSome result (λ name. Contains (map named names.now) (named name.now) × (name.now.word.now ≡ word.now)) }
    ensures none { IfNone result ((name : Named) → Contains (map named names.now) name → name.word ≢ word.now) }
{
    for name in names {
        if name.word == word {
            return Some(name);
        }
    }
    None
}

/// Whether each name that must be given is given.
fn has_required(words: &[String], names: &[Name]) -> bool
    ensures { IsTrue result ↔ ((name : Named) → Contains (map named names.now) name → IsRequired name.value → IsGiven (map string_bytes words.now) name.word) }
{
    for name in names {
        if name.value.is_required() && place_of(words, name.word).is_none() {
            return false;
        }
    }
    true
}

/// The place, counted from 0, of the pair that begins with a word.
fn place_of(words: &[String], word: &str) -> Option<usize>
    ensures some { IfSome result (λ at. (j : ℕ) × (at ≡ j + j) × (slice_get (map string_bytes words.now) at ≡ Some word.now)) }
    ensures short { IfSome result (λ at. at < length words.now) }
    ensures none { IfNone result (IsGiven (map string_bytes words.now) word.now → ⊥) }
{
    let mut at = 0;
    while at < words.len() {
        if words[at].as_str() == word {
            return Some(at);
        }
        at += 2;
    }
    None
}

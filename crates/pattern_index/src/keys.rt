//! An order in which patterns stand near each other that have many headers in common.
ghost use Rattle.std.specs.Prelude.{◌<◌, ◌≤◌, ℕ, IfOk, length, map, Contains};

use no_memory::NoMemory;
use std::alloc::Global;
use ternary_bits::Pattern;

/// Each place of the list with the key of its pattern, by rising keys.
pub(super) fn sorted_keys(
    alloc: Global,
    patterns: &[Pattern],
) -> Result<Vec<(u128, usize)>, NoMemory>
    ensures { IfOk result (λ keys. (place : ℕ) → place < length patterns.now → Contains (map (λ key. key.1) keys.items) place) }
{
    let mut keys = Vec::with_capacity(alloc, patterns.len())?;
    for (place, pattern) in patterns.iter().enumerate() {
        keys.push((key_of(pattern), place))?;
    }
    keys.sort()?;
    Ok(keys)
}

/// The pattern's word of bits. Those that don't ask for the leftmost bit come last: a hull of theirs is wide, so it is to be
/// theirs alone.
fn key_of(pattern: &Pattern) -> u128 {
    let value = pattern.value() >> 1;
    let is_wide = (pattern.care() >> (pattern.bits() - 1)) & 1 == 0;
    if is_wide { value | (1 << 127) } else { value }
}

/// How many of the keys stand in the first of two parts: where the leftmost bit at which they go apart turns from 0 to 1.
pub(super) fn first_part(keys: &[(u128, usize)]) -> usize
    requires { 2 ≤ length keys.now }
    ensures { (1 ≤ result) × (result < length keys.now) }
{
    let first = keys[0].0;
    let last = keys[keys.len() - 1].0;
    if first == last {
        return keys.len() / 2;
    }
    let turn = keys.partition_point(|key| key.0 ^ first < key.0 ^ last);
    turn.clamp(1, keys.len() - 1)
}

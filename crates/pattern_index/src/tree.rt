//! The entries of an index: each part of the patterns, and behind its entries a hull of them.
ghost use Rattle.std.specs.Prelude.{◌≡◌, ◌≤◌, ℕ, OnOk, Some, length, map, slice_get, All, Contains};
ghost use Rattle.std.specs.Option.{option_copied};
ghost use Rattle.network_model.specs.Bits as model;
ghost use Rattle.pattern_index.specs.declared.tree.Entry as declared;
ghost use Rattle.pattern_index.specs.Trees.{IsTree, IsOwn, own_entry};

use super::hull::hull_of;
use super::keys::first_part;
use no_memory::NoMemory;
use ternary_bits::Pattern;

/// What the pattern of an entry is.
#[derive(Clone, Copy, Debug)]
pub(super) enum Kind {
    /// That of the list at this place.
    Own(usize),
    /// A hull of all entries from this number on, up to its own.
    Hull(usize),
}

#[derive(Clone, Copy, Debug)]
pub(super) struct Entry {
    pub(super) pattern: Pattern,
    pub(super) kind: Kind,
}

/// Adds the entries of the patterns with these keys: those of two parts of them and then the hull of both.
pub(super) fn add_part(
    entries: &mut Vec<Entry>,
    bits: u32,
    patterns: &[Pattern],
    keys: &[(u128, usize)],
) -> Result<(), NoMemory>
    requires range { (1 ≤ bits) × (bits ≤ 128) }
    requires widths { All (λ pattern. length pattern ≡ bits) patterns.now }
    requires tree { IsTree bits entries.old.items }
    requires own { All (IsOwn patterns.now) entries.old.items }
    ensures grown { OnOk result (length entries.old.items ≤ length entries.new.items) }
    ensures tree { OnOk result (IsTree bits entries.new.items) }
    ensures own { OnOk result (All (IsOwn patterns.now) entries.new.items) }
    ensures kept { OnOk result ((entry : declared.Entry) → Contains entries.old.items entry → Contains entries.new.items entry) }
    ensures every { OnOk result ((place : ℕ) (pattern : model.Pattern) → Contains (map (λ key. key.1) keys.now) place →
        slice_get patterns.now place ≡ Some pattern → Contains entries.new.items (own_entry pattern place)) }
{
    match keys {
        [] => Ok(()),
        [only] => add_own(entries, bits, patterns, only.1),
        _ => {
            let first = entries.len();
            let (left, right) = keys.split_at(first_part(keys));
            add_part(entries, bits, patterns, left)?;
            add_part(entries, bits, patterns, right)?;
            let pattern = hull_of(bits, &entries[first..]);
            entries.push(Entry {
                pattern,
                kind: Kind::Hull(first),
            })?;
            Ok(())
        }
    }
}

/// Adds the entry of the pattern at a place.
fn add_own(
    entries: &mut Vec<Entry>,
    bits: u32,
    patterns: &[Pattern],
    place: usize,
) -> Result<(), NoMemory>
    requires widths { All (λ pattern. length pattern ≡ bits) patterns.now }
    requires tree { IsTree bits entries.old.items }
    requires own { All (IsOwn patterns.now) entries.old.items }
    ensures grown { OnOk result (length entries.old.items ≤ length entries.new.items) }
    ensures tree { OnOk result (IsTree bits entries.new.items) }
    ensures own { OnOk result (All (IsOwn patterns.now) entries.new.items) }
    ensures kept { OnOk result ((entry : declared.Entry) → Contains entries.old.items entry → Contains entries.new.items entry) }
    ensures every { OnOk result ((pattern : model.Pattern) → slice_get patterns.now place ≡ Some pattern →
        Contains entries.new.items (own_entry pattern place)) }
{
    if let Some(pattern) = pattern_at(patterns, place) {
        entries.push(Entry {
            pattern: *pattern,
            kind: Kind::Own(place),
        })?;
    }
    Ok(())
}

fn pattern_at(patterns: &[Pattern], place: usize) -> Option<&Pattern>
    ensures { option_copied result ≡ slice_get patterns.now place }
{
    patterns.get(place)
}

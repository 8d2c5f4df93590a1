ghost use Rattle.std.specs.Prelude.{◌≡◌, ◌≤◌, IfOk, OnOk, List, length, All};
ghost use Rattle.network_model.specs.Bits as model;
ghost use Rattle.pattern_index.specs.Trees.{IsIndexOf, AddsAll};

use super::keys::sorted_keys;
use super::tree::{Entry, Kind, add_part};
use no_memory::NoMemory;
use std::alloc::Global;
use std::marker::Model;
use ternary_bits::Pattern;

/// Which patterns of a list meet a pattern. It is built in about n log n for n patterns, and where few of them meet a pattern, few
/// are looked at.
#[derive(Debug, Drop)]
pub struct PatternIndex {
    bits: u32,
    /// A tree of hulls, each behind all that it has, so that one look passes by them.
    entries: Vec<Entry>,
}

impl Model for PatternIndex {
    ghost use Rattle.pattern_index.specs.Trees.{IndexValue, IsTree};

    ghost Value = { IndexValue };

    ghost view = { λ index. record { width = index.bits; entries = index.entries.items } };

    ghost invariant = { λ index. IsTree index.bits index.entries.items };
}

impl PatternIndex {
    /// The index of the list, whose patterns have so many bits.
    pub fn of(alloc: Global, bits: u32, patterns: &[Pattern]) -> Result<PatternIndex, NoMemory>
        requires range { (1 ≤ bits) × (bits ≤ 128) }
        requires widths { All (λ pattern. length pattern ≡ bits) patterns.now }
        ensures width { IfOk result (λ index. index.width ≡ bits) }
        ensures patterns { IfOk result (λ index. IsIndexOf index patterns.now) }
    {
        let keys = sorted_keys(alloc, patterns)?;
        let mut entries = Vec::with_capacity(alloc, patterns.len())?;
        add_part(&mut entries, bits, patterns, &keys)?;
        Ok(PatternIndex { bits, entries })
    }

    /// Adds the places of the patterns that meet this one, in no particular order.
    pub fn add_meeting(&self, p: &Pattern, places: &mut Vec<usize>) -> Result<(), NoMemory>
        requires { length p.now ≡ self.now.width }
        ensures { OnOk result ((patterns : List model.Pattern) → IsIndexOf self.now patterns →
            AddsAll patterns p.now places.old.items places.new.items) }
    {
        let mut left = self.entries.len();
        while left > 0 {
            left -= 1;
            let entry = self.entries[left];
            match entry.kind {
                Kind::Own(place) => {
                    if entry.pattern.meets(p) {
                        places.push(place)?;
                    }
                }
                Kind::Hull(first) => {
                    if !entry.pattern.meets(p) {
                        left = first;
                    }
                }
            }
        }
        Ok(())
    }
}

//! Lists of places, one behind another in one vector, so that none takes memory of its own.
ghost use Rattle.std.specs.Prelude.{◌≡◌, ◌++◌, ◌<◌, [], ◌∷◌, length, slice_index_or, OnOk};

use no_memory::NoMemory;
use std::alloc::Global;
use std::marker::Model;

/// Where a list begins and ends.
#[derive(Clone, Copy)]
struct Span {
    start: usize,
    end: usize,
}

/// Lists of places, in order.
#[derive(Drop)]
pub(crate) struct PlaceLists {
    places: Vec<u32>,
    spans: Vec<Span>,
}

impl Model for PlaceLists {
    ghost use Rattle.std.specs.Prelude.{ℕ, List, map, vec_len, All};
    ghost use Rattle.rule_cover.specs.Spans.{list_at, IsWithin};

    ghost Value = { List (List ℕ) };

    ghost view = { λ l. map (list_at l.places.items) l.spans.items };

    ghost invariant = { λ l. All (IsWithin (vec_len l.places)) l.spans.items };
}

impl PlaceLists {
    pub(crate) fn new(alloc: Global) -> Self
        ensures { result ≡ [] }
    {
        PlaceLists {
            places: Vec::new(alloc),
            spans: Vec::new(alloc),
        }
    }

    /// How many lists there are.
    pub(crate) fn len(&self) -> usize
        ensures { result ≡ length self.now }
    {
        self.spans.len()
    }

    /// Adds a list.
    pub(crate) fn push(&mut self, list: &[u32]) -> Result<(), NoMemory>
        ensures { OnOk result (self.new ≡ self.old ++ list.now ∷ []) }
    {
        let start = self.places.len();
        self.places.extend_from_slice(list)?;
        let end = self.places.len();
        self.spans.push(Span { start, end })?;
        Ok(())
    }

    /// The list at a place, counted from 0.
    pub(crate) fn list(&self, i: usize) -> &[u32]
        requires { i < length self.now }
        ensures { result.now ≡ slice_index_or self.now i [] }
    {
        let span = self.spans[i];
        let rest = &self.places[span.start..];
        &rest[..span.end - span.start]
    }
}

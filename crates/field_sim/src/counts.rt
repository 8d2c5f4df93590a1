//! Counts that stop at their last value.
ghost use Rattle.std.specs.Prelude.{◌≡◌};
ghost use Rattle.byte_edges.specs.Counts.{raised};

pub(crate) fn one_more(count: u64) -> u64
    ensures { result ≡ raised count 1 }
{
    count.saturating_add(1)
}

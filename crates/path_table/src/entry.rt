ghost use Rattle.std.specs.Prelude.{◌≡◌, IfOk};
ghost use Rattle.network_model.specs.Table as model;
ghost use Rattle.path_table.specs.Entries.{entry_of};

use net_types::{RuleList, TermId};
use no_memory::NoMemory;
use std::cmp::Ordering;
use ternary_bits::Header;

/// A class of packets: those that start at `from`, meet just these rules in this order and are delivered at `to`.
#[derive(Debug, Drop)]
pub struct Entry {
    pub from: TermId,
    pub to: TermId,
    pub rules: RuleList,
    /// The least header of the class, as it is sent.
    pub least: Header,
    /// The greatest header of the class, as it is sent.
    pub greatest: Header,
    /// The header with which the least one is delivered.
    pub arrives: Header,
}

impl Entry {
    /// The same entry once more.
    pub fn copy(&self) -> Result<Entry, NoMemory>
        ensures { IfOk result (λ copy. copy ≡ self.now) }
    {
        Ok(Entry {
            from: self.from,
            to: self.to,
            rules: self.rules.copy()?,
            least: self.least,
            greatest: self.greatest,
            arrives: self.arrives,
        })
    }
}

/// By terminal, and then by rule numbers from the front, a prefix first.
pub fn table_order(a: &Entry, b: &Entry) -> Ordering
    ensures { result ≡ model.entry_cmp (entry_of a.now) (entry_of b.now) }
{
    a.from
        .cmp(&b.from)
        .then_with(|| a.rules.as_slice().cmp(b.rules.as_slice()))
}

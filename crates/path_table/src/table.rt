ghost use Rattle.std.specs.Prelude.{◌≡◌, ◌+◌, ◌-◌, ◌<◌, ◌≤◌, ◌↔◌, ◌++◌, ℕ, map, length, nat_eq, Contains, IfOk, IfSome, IsErrOf, IsPermutation};
ghost use Rattle.std.specs.List.{filter, list_any};
ghost use Rattle.std.specs.Option.{option_copied, option_map};
ghost use Rattle.network_model.specs.Network as model;
ghost use Rattle.network_model.specs.Cover.{entry_at};
ghost use Rattle.network_model.specs.Table.{IsTable, AreApart};
ghost use Rattle.path_table.specs.Entries.{entry_of, starts_among, IsFound, IsInOrder};

use super::entry::{Entry, table_order};
use super::fault::TableFault;
use net_types::TermId;
use no_memory::NoMemory;
use std::alloc::Global;
use std::marker::Model;

/// The entries by terminal, and then by rule numbers compared from the front, a prefix first.
#[derive(Debug, Drop)]
pub struct Table {
    entries: Vec<Entry>,
}

impl Model for Table {
    ghost use Rattle.std.specs.Prelude.{List, map, vec_len, ◌<◌, ◌^◌};
    ghost use Rattle.network_model.specs.Table as model;
    ghost use Rattle.path_table.specs.Entries.{entry_of};

    ghost Value = { List model.Entry };

    ghost view = { λ t. map entry_of t.entries.items };

    ghost invariant = { λ t. vec_len t.entries < 2 ^ 32 };
}

impl Table {
    /// The table of these entries, in any order.
    pub fn of_found(alloc: Global, found: Vec<Entry>, limit: u32) -> Result<Table, TableFault>
        requires { AreApart (map entry_of found.items) }
        ensures same { IfOk result (λ table. IsPermutation (map entry_of found.items) table) }
        ensures order { IfOk result (λ table. IsInOrder table) }
        ensures table { IfOk result (λ table. (net : model.Network) (hops : ℕ) → IsFound net hops (map entry_of found.items) → IsTable net hops table) }
        ensures within { IfOk result (λ table. length table ≤ limit) }
        ensures full { (most : ℕ) → IsErrOf result (TableFault.TableFull most) ↔ ((most ≡ limit) × (limit < length found.items)) }
    {
        if found.len() > limit as usize {
            return Err(TableFault::TableFull { limit });
        }
        let mut entries = found;
        // The stable sort takes runs that are in order as they are, and merges them. Entries that were kept, and copies for twins, are such.
        entries.sort_by(table_order)?;
        Ok(Table { entries })
    }

    /// The table of entries that were kept from another in its order, and of those that were found, in any order.
    pub fn merged(kept: Vec<Entry>, found: Vec<Entry>, limit: u32) -> Result<Table, TableFault>
        requires { AreApart (map entry_of (kept.items ++ found.items)) }
        ensures same { IfOk result (λ table. IsPermutation (map entry_of (kept.items ++ found.items)) table) }
        ensures order { IfOk result (λ table. IsInOrder table) }
        ensures table { IfOk result (λ table. (net : model.Network) (hops : ℕ) → IsFound net hops (map entry_of (kept.items ++ found.items)) → IsTable net hops table) }
        ensures within { IfOk result (λ table. length table ≤ limit) }
        ensures full { (most : ℕ) → IsErrOf result (TableFault.TableFull most) → (most ≡ limit) × (limit < length (kept.items ++ found.items)) }
    {
        let mut all = kept;
        let mut rest = found;
        all.append(&mut rest)?;
        if all.len() > limit as usize {
            let full = TableFault::TableFull { limit };
            return Err(full);
        }
        all.sort_by(table_order)?;
        Ok(Table { entries: all })
    }

    /// How many entries it has.
    pub fn len(&self) -> u32
        ensures { result ≡ length self.now }
    {
        self.entries.len() as u32
    }

    /// The entry of this number, counted from 1.
    pub fn entry(&self, n: u32) -> Option<&Entry>
        ensures { option_map entry_of (option_copied result) ≡ entry_at self.now n }
    {
        match n {
            0 => None,
            _ => self.entries.get(n as usize - 1),
        }
    }

    /// The same table once more.
    pub fn copy(&self) -> Result<Table, NoMemory>
        ensures { IfOk result (λ copy. copy ≡ self.now) }
    {
        let mut entries = Vec::with_capacity(*self.entries.allocator(), self.entries.len())?;
        for entry in &self.entries {
            entries.push(entry.copy()?)?;
        }
        Ok(Table { entries })
    }

    /// The entries that begin at these terminals, in table order.
    pub fn starting_at(&self, terminals: &[TermId]) -> Result<Vec<Entry>, NoMemory>
        ensures { IfOk result (λ entries. map entry_of entries.items ≡ filter (starts_among terminals.now) self.now) }
    {
        let mut some = Vec::new(*self.entries.allocator());
        // Entries of one terminal stand together, so that most begin where the one before does.
        let mut latest = None;
        for entry in &self.entries {
            if is_among(terminals, latest, entry.from) {
                latest = Some(entry.from);
                some.push(entry.copy()?)?;
            }
        }
        Ok(some)
    }
}

/// Whether a terminal is one of these. The one that was found there last is not looked for again.
fn is_among(terminals: &[TermId], latest: Option<TermId>, t: TermId) -> bool
    requires { IfSome latest (Contains terminals.now) }
    ensures { result ≡ list_any (λ other. nat_eq other t) terminals.now }
{
    latest == Some(t) || terminals.contains(&t)
}

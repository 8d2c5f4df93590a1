//! Rows that stand by box, and those of one box among them.

ghost use Rattle.std.specs.Prelude.{◌≡◌, ◌==◌, IfOk};
ghost use Rattle.std.specs.List.{filter};
ghost use Rattle.std.specs.List.Sorted.{IsNonDecreasingBy};
ghost use Rattle.net_types.specs.Tables.{IsByBox};

use crate::ids::BoxId;
use crate::parts::Port;
use crate::rule::Rule;
use no_memory::NoMemory;
use std::alloc::Global;

/// What stands at a box.
pub trait AtBox {
    ghost use Rattle.std.specs.Prelude.{ℕ};

    ghost home: { Self → ℕ };

    fn home(&self) -> BoxId
        ensures { result ≡ home self.now };
}

impl AtBox for Port {
    ghost home = { λ port. port.«at» };

    fn home(&self) -> BoxId {
        self.at
    }
}

impl AtBox for Rule {
    ghost home = { λ rule. rule.«at» };

    fn home(&self) -> BoxId {
        self.at
    }
}

/// The rows of one box, of all rows by box.
pub fn rows_of_box<T: AtBox>(rows: &[T], at: BoxId) -> &[T]
    requires { IsNonDecreasingBy T.home rows.now }
    ensures { result.now ≡ filter (λ row. T.home row == at) rows.now }
{
    let rest = &rows[rows.partition_point(|row| row.home().get() < at.get())..];
    &rest[..rest.partition_point(|row| row.home().get() <= at.get())]
}

/// The ports by box, those of a box by rising numbers as before.
pub fn ports_by_box(alloc: Global, ports: &[Port]) -> Result<Vec<Port>, NoMemory>
    ensures { IfOk result (λ by_box. IsByBox ports.now by_box.items) }
{
    let mut by_box = Vec::from_slice(alloc, ports)?;
    by_box.sort_by_key(|port| port.at.get())?;
    Ok(by_box)
}

//! Rows that stand in a list by rising numbers, and the look-up of one.

ghost use Rattle.std.specs.Prelude.{◌≡◌, ◌==◌, map, IfOk, IfErr};
ghost use Rattle.std.specs.List.{find};
ghost use Rattle.std.specs.Option.{option_copied};
ghost use Rattle.std.specs.List.Sorted.{IsStrictlyIncreasing};
ghost use Rattle.net_types.specs.Places.{IsAt, IsGap};

use super::ids::BoxId;
use super::parts::{Link, Port, Terminal};
use super::rule::Rule;

/// What has a number by which it is sorted and found.
pub trait Row {
    ghost use Rattle.std.specs.Prelude.{ℕ};

    ghost number: { Self → ℕ };

    fn number(&self) -> u32
        ensures { result ≡ number self.now };
}

impl Row for Port {
    ghost number = { λ port. port.id };

    fn number(&self) -> u32 {
        self.id.get()
    }
}

impl Row for Link {
    ghost number = { λ link. link.«from» };

    fn number(&self) -> u32 {
        self.from.get()
    }
}

impl Row for Terminal {
    ghost number = { λ terminal. terminal.id };

    fn number(&self) -> u32 {
        self.id.get()
    }
}

impl Row for Rule {
    ghost number = { λ rule. rule.id };

    fn number(&self) -> u32 {
        self.id.get()
    }
}

impl Row for BoxId {
    ghost number = { λ id. id };

    fn number(&self) -> u32 {
        self.get()
    }
}

/// The row of this number, in a list that rises by number.
pub fn row_of<T: Row>(rows: &[T], number: u32) -> Option<&T>
    requires { IsStrictlyIncreasing (map T.number rows.now) }
    ensures { option_copied result ≡ find (λ row. T.number row == number) rows.now }
{
    match place_of(rows, number) {
        Ok(i) => Some(&rows[i]),
        Err(_) => None,
    }
}

/// Where the row of this number stands in a list that rises by number, or else where it would go.
pub fn place_of<T: Row>(rows: &[T], number: u32) -> Result<usize, usize>
    requires { IsStrictlyIncreasing (map T.number rows.now) }
    ensures found { IfOk result (IsAt T.number rows.now number) }
    ensures gap { IfErr result (IsGap T.number rows.now number) }
{
    rows.binary_search_by_key(&number, |row| row.number())
}

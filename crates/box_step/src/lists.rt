//! Lists of rules, one for each rule of a network, and the look-up of one.
ghost use Rattle.std.specs.Prelude.{◌≡◌, ◌==◌, ℕ, map, IfOk, IfErr};
ghost use Rattle.std.specs.List.{find};
ghost use Rattle.std.specs.Option.{option_copied};
ghost use Rattle.std.specs.List.Sorted.{IsStrictlyIncreasing};
ghost use Rattle.net_types.specs.Places.{IsAt, IsGap};

use net_types::{RuleId, RuleList};

/// A rule, and the rules that precede it and meet it.
#[derive(Debug, Drop)]
pub(super) struct Listed {
    pub(super) rule: RuleId,
    pub(super) preceding: RuleList,
}

/// By rising numbers of rules.
#[derive(Debug, Drop)]
pub(super) struct Lists {
    pub(super) rows: Vec<Listed>,
    ghost rising: { IsStrictlyIncreasing (map (λ row. row.rule) rows.items) },
}

impl Lists {
    /// The list of a rule.
    pub(super) fn of_rule(&self, id: RuleId) -> Option<&Listed>
        ensures { option_copied result ≡ find (λ row. row.rule == id) self.now.rows.items }
    {
        let rows = self.rows.as_slice();
        match place_of(rows, id.get()) {
            Ok(place) => Some(&rows[place]),
            Err(_) => None,
        }
    }
}

/// Where the list of a rule stands, or else where it would go.
fn place_of(rows: &[Listed], number: u32) -> Result<usize, usize>
    requires { IsStrictlyIncreasing (map (λ row. row.rule) rows.now) }
    ensures found { IfOk result (IsAt (λ row. row.rule) rows.now number) }
    ensures gap { IfErr result (IsGap (λ row. row.rule) rows.now number) }
{
    rows.binary_search_by_key(&number, |row| row.rule.get())
}

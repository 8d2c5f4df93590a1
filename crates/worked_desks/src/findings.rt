//! What the outcomes on a small table tell of its rules, rule by rule as the words are meant.
use crate::asking::{Brief, Few};
use suspect_book::Verdict;

/// An entry of a table: its number, its two rules, its verdict if it has one, and whether it is no probe.
#[derive(Clone, Copy)]
pub(crate) struct Row {
    pub(crate) entry: u32,
    pub(crate) rules: [u32; 2],
    pub(crate) verdict: Option<Verdict>,
    pub(crate) reserved: bool,
}

// Whether a row of this verdict has the rule.
fn is_on(rows: &[Row; 4], verdict: Verdict, rule: u32) -> bool {
    for row in rows {
        let [first, second] = row.rules;
        if row.verdict == Some(verdict) && (rule == first || rule == second) {
            return true;
        }
    }
    false
}

fn is_suspect(rows: &[Row; 4], rule: u32) -> bool {
    is_on(rows, Verdict::Fail, rule) && !is_on(rows, Verdict::Pass, rule)
}

// Whether a failed row has this rule alone besides one that is on a passed row.
fn is_guilty(rows: &[Row; 4], rule: u32) -> bool {
    for row in rows {
        let [first, second] = row.rules;
        let others_pass = (rule == first && is_on(rows, Verdict::Pass, second))
            || (rule == second && is_on(rows, Verdict::Pass, first));
        if row.verdict == Some(Verdict::Fail) && others_pass {
            return is_suspect(rows, rule);
        }
    }
    false
}

fn odd(rows: &[Row; 4]) -> Option<u32> {
    for row in rows {
        let [first, second] = row.rules;
        if row.verdict == Some(Verdict::Fail)
            && !is_suspect(rows, first)
            && !is_suspect(rows, second)
        {
            return Some(row.entry);
        }
    }
    None
}

fn next(rows: &[Row; 4]) -> Option<u32> {
    for row in rows {
        let [first, second] = row.rules;
        if row.reserved
            && row.verdict.is_none()
            && is_suspect(rows, first) != is_suspect(rows, second)
        {
            return Some(row.entry);
        }
    }
    None
}

/// The findings of these rows, whose rules are numbered 5 to 8.
pub(crate) fn brief(rows: &[Row; 4]) -> Brief {
    let mut suspects = Few::NONE;
    let mut guilty = Few::NONE;
    for rule in 5..9 {
        if is_suspect(rows, rule) {
            suspects.add(rule);
        }
        if is_guilty(rows, rule) {
            guilty.add(rule);
        }
    }
    Brief {
        suspects,
        guilty,
        odd: odd(rows),
        next: next(rows),
    }
}

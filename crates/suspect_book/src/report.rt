use net_types::RuleList;

/// What verdicts tell of the rules. The lists are in number order.
#[derive(Debug, Drop)]
pub struct Report {
    /// The rules on failed entries and on no passed one.
    pub suspects: RuleList,
    /// The rules that are the only rule of some failed entry that is on no passed entry.
    pub guilty: RuleList,
    /// The first failed entry all of whose rules are on passed entries.
    pub odd: Option<u32>,
    /// The reserved entry to send next.
    pub next: Option<u32>,
}

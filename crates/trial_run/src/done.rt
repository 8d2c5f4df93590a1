use rule_cover::Plan;
use std::sync::Arc;
use suspect_book::{Report, Verdict};

/// What a trial came to.
#[derive(Drop)]
pub struct TrialDone {
    pub plan: Arc<Plan>,
    /// The entries whose packets were sent, by their numbers in the table from 1, in order, each with what it came to.
    pub sent: Vec<(u32, Verdict)>,
    /// What the verdicts tell of the rules.
    pub report: Report,
}

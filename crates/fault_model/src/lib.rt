//! What the packets of a plan come to, which rules may be bad then, and the laws that hold of it. The definitions are in specs/,
//! and each law is a function with an empty body, whose contract is the law.
#![tactic(auto)]

mod laws;

pub use laws::{
    bad_rules_explain, exercised_bad_suspected, findings_in_order, following_ends, guilty_are_bad,
    guilty_in_each, odd_unexplained, sent_entries_tell, suspects_in_some,
};

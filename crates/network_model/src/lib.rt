//! What networks, walks of single headers, tables and plans are, and the laws that hold of them. The definitions are in specs/, and
//! each law is a function with an empty body, whose contract is the law.
#![tactic(auto)]

mod laws;

pub use laws::{
    classes_fit, exercised_on_probe, headers_in_order, idle_never_met, kept_changes_nothing,
    one_cover, one_number, one_plan, one_rewrite, one_table, over_the_limit, packets_travel,
    some_table,
};

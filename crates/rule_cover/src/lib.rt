//! The plan of a network: which few entries of its table try every rule that can be tried, chosen greedily.
#![tactic(auto)]

mod choice;
mod fault;
mod greedy;
mod lists;
mod places;
mod plan;
mod planner;
mod rest;
mod threads;

pub use fault::PlanFault;
pub use greedy::cover;
pub use no_memory::NoMemory;
pub use places::{place_of, rule_numbers};
pub use plan::Plan;
pub use planner::Planner;

#[cfg(test)]
mod tests;

//! Policies: what must and what must not be reached, and by which way, and the least header that breaks one.
#![tactic(auto)]

mod fault;
mod narrowing;
mod outcome;
mod policy;
mod reading;
mod search;
mod unmatched;

pub use fault::PolicyFault;
pub use no_memory::NoMemory;
pub use policy::{Demand, Policy};
pub use reading::read_policy;
pub use search::check;

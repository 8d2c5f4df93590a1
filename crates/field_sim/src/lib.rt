//! A network in memory as a link: packets go by its rules, and some rules may lose theirs. And a link whose calls fail as
//! listed, over any other.
#![tactic(auto)]

mod counts;
mod fault_link;
mod field;
mod schedule;
mod threads;

pub use fault_link::FaultLink;
pub use field::Field;
pub use no_memory::NoMemory;

//! Terminals that can't be told apart: which they are, and what is found from one of them copied for the others.
#![tactic(auto)]

mod copying;
mod grouping;
mod touching;

pub use copying::{stands_for, with_copies};
pub use grouping::{twins_among, worthwhile};
pub use no_memory::NoMemory;
pub use touching::with_twins;

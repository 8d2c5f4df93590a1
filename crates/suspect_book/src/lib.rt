//! What the packets of a plan came to, and the rules behind those that failed: suspects, guilty rules, an odd entry, and the
//! packet that tells most next.
#![tactic(auto)]

mod book;
mod few;
mod firsts;
mod lists;
mod marks;
mod report;
mod sheet;
mod standing;
mod tally;
mod threads;
mod verdict;

pub use book::Book;
pub use no_memory::NoMemory;
pub use report::Report;
pub use verdict::{Counted, Verdict};

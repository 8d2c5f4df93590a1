//! An index over a list of patterns: which of them meet a pattern, without a look at each.
#![tactic(auto)]

mod hull;
mod index;
mod keys;
#[cfg(test)]
mod tests;
mod threads;
mod tree;

pub use hull::is_within;
pub use index::PatternIndex;
pub use no_memory::NoMemory;

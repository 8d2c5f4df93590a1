//! Headers, patterns and rewrites of 1 to 128 bits, each kept in words of 128 bits and seen by contracts as a list,
//! from the leftmost and most significant bit on.
#![tactic(auto)]

mod fault;
mod header;
mod item;
mod letters;
mod moves;
mod narrowing;
mod pattern;
mod rewrite;
mod word;

pub use fault::LetterFault;
pub use header::Header;
pub use item::Item;
pub use moves::MoveFault;
pub use no_memory::NoMemory;
pub use pattern::Pattern;
pub use rewrite::Rewrite;

#[cfg(test)]
mod moves_tests;
#[cfg(test)]
mod tests;

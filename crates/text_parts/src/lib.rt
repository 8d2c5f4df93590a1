//! Parts of a text: a word of a line, and what stands before and after a line of a single word.
#![tactic(auto)]

mod parts;
#[cfg(test)]
mod tests;
mod words;

pub use parts::{part_after, part_before};
pub use words::word;

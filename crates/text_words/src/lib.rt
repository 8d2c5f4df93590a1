//! Lines, words and numbers of a text: what the texts of networks, of sessions and of policies, and command lines, are read by.
#![tactic(auto)]

mod numerals;
#[cfg(test)]
mod tests;
mod words;

pub use no_memory::NoMemory;
pub use numerals::{number, numbers};
pub use words::{before_comment, is_blank, split_words};

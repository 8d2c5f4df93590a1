//! Command lines of pairs as tables: a table of names, each with the number or the list of numbers that may follow it, or a
//! list of commands, each a word with a table of its own. One call judges any of them, and names the first word that can't
//! stand where it stands.
#![tactic(auto)]

mod command;
mod name;
mod pairs;
#[cfg(test)]
mod tests;

pub use command::{Command, judge_command};
pub use name::{Name, Value};
pub use pairs::{judge, number_of, numbers_of};

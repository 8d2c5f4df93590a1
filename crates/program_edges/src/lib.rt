//! What programs have in common at their edges: the words that they were given, a network that is read whole, the lines that
//! tell how they ended, and the telling.
#![tactic(auto)]

mod given_words;
mod input;
mod status_line;
mod telling;
#[cfg(test)]
mod tests;

pub use given_words::arguments;
pub use input::{InputFault, MOST_BYTES, read_network};
pub use status_line::{StatusLine, bad_net_line, fault_word, line, numbered_line};
pub use telling::tell;

//! The text of a network, read and printed: a line for each box, port, link, terminal, permit, forbidden pattern and rule.
//! A text that is none is refused with its first faulty line and that line's first fault.
#![tactic(auto)]

mod declaration;
mod fault;
mod lines;
mod printing;
#[cfg(test)]
mod printing_tests;
mod reader;
mod rule_words;
mod spelling;
#[cfg(test)]
mod tests;
mod version;

pub use fault::{ReadNet, TextFault};
pub use net_types::Network;
pub use printing::print;
pub use reader::read;
pub use rule_words::read_rule;

//! The text of a plan: its entries, probes, reserved packets and idle rules, a line for each.
#![tactic(auto)]

mod entries;
mod numbers;
mod printing;
mod words;

pub use no_memory::NoMemory;
pub use printing::print;

#[cfg(test)]
mod tests;

//! A large network that is generated from a seed: 16 edges with a terminal each, around a core, and 1,552 rules.
#![tactic(auto)]

mod adding;
mod growing;
mod letters;
mod places;
mod rules;
#[cfg(test)]
mod tests;

pub use growing::grow;
pub use no_memory::NoMemory;

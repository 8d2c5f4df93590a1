//! A network whose rules change, how often they did, and the network of a moment kept while it goes on changing.
#![tactic(auto)]

mod change;
mod pin;
mod threads;
mod versions;

pub use change::Change;
pub use no_memory::NoMemory;
pub use pin::Pin;
pub use versions::Versions;

#[cfg(test)]
mod tests;

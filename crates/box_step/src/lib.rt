//! One step of a set of packets: how the rules of a port's box divide it.
#![tactic(auto)]

mod branches;
mod guide;
mod guided;
mod lists;
mod overlaps;
mod taken;
#[cfg(test)]
mod tests;
mod threads;

pub use branches::{Branch, split};
pub use guided::{split_sent, split_with};
pub use no_memory::NoMemory;
pub use overlaps::Overlaps;

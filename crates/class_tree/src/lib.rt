//! Classes of headers that have met the same rules so far: where they begin, and how they grow rule by rule.
#![tactic(auto)]

mod class;
mod expansion;
mod fault;
mod growth;
mod permitted;
mod starting;
mod threads;

pub use class::Class;
pub use fault::GrowFault;
pub use growth::{Grown, grow, grow_with};
pub use no_memory::NoMemory;
pub use permitted::permitted_headers;
pub use starting::roots;

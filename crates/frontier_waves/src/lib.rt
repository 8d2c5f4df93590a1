//! The search through all classes of headers, wave by wave, by many threads.
//!
//! A wave has the classes that still go on after so many rules. Threads draw them one by one from a board and grow each
//! by one more rule, and the classes that go on from there are the next wave.
#![tactic(auto)]

mod frontier;
mod gate;
mod gathering;
mod search;
mod sharing;
mod threads;
mod workers;

pub use frontier::Found;
pub use gate::{FreeGate, Gate};
pub use no_memory::NoMemory;
pub use search::{all_entries, entries_from};

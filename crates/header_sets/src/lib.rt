//! Sets of headers of one width: unions of patterns, cut down by meeting a pattern or leaving one out.
#![tactic(auto)]

mod indexed;
mod piece;
mod search;
mod space;
#[cfg(test)]
mod tests;

pub use indexed::IndexedSpace;
pub use no_memory::NoMemory;
pub use space::Space;

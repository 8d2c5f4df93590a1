//! The packet of a probe: 33 bytes that say which probe it is and which header it carries.
#![tactic(auto)]

mod decoding;
mod encoding;
mod fault;
mod probe;
#[cfg(test)]
mod tests;
mod words;

pub use decoding::decode;
pub use encoding::encode;
pub use fault::WireFault;
pub use probe::{Probe, ProbeId};

//! Probes sent over links: what each comes to, one by one over one link, or shared out over several at a time.
#![tactic(auto)]

mod firing;
mod shares;
mod shot;
mod threads;
mod waiting;

pub use firing::fire;
pub use no_memory::NoMemory;
pub use probe_wire::ProbeId;
pub use shares::fire_all;
pub use shot::Shot;

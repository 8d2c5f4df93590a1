//! The plan of a network, from classes of headers that grow from every terminal that sends, by many workers; and after a
//! change of the network from the plan before, with a search from those terminals alone that the change can reach.
#![tactic(auto)]

mod building;
mod planner;
mod rebuilding;

pub use building::{build, build_counted};
pub use no_memory::NoMemory;
pub use planner::WavePlanner;
pub use rebuilding::rebuild;

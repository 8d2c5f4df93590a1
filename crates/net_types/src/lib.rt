//! Networks of boxes, ports, links, terminals and rules: how one is built, which rule takes a packet, and where it goes.
#![tactic(auto)]

mod builder;
#[cfg(test)]
mod builder_tests;
mod fault;
mod ids;
pub mod limits;
mod network;
#[cfg(test)]
mod network_tests;
mod parts;
mod path;
mod row;
mod rule;
mod rule_list;
#[cfg(test)]
mod same_parts_tests;
mod terminal;
#[cfg(test)]
mod test_parts;
mod threads;
mod walk;

pub use builder::NetBuilder;
pub use fault::NetFault;
pub use ids::{BoxId, PortId, RuleId, TermId};
pub use network::Network;
pub use no_memory::NoMemory;
pub use path::Path;
pub use rule::{Action, InPort, Rule};
pub use rule_list::RuleList;
pub use terminal::Role;
pub use walk::{End, Next};

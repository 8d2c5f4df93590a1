//! The reachability table: for each class of packets that arrive its terminals, its rules, its least and greatest
//! header, and the header with which the least arrives. Beside it, which terminals' packets come to which boxes.
#![tactic(auto)]

mod entry;
mod fault;
mod table;
mod threads;
mod touched;

pub use entry::{Entry, table_order};
pub use fault::TableFault;
pub use no_memory::NoMemory;
pub use table::Table;
pub use touched::Touched;

#[cfg(test)]
mod tests;

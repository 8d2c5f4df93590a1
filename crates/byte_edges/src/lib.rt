//! The outside as a program sees it: sources and sinks of bytes that may fail, forms of them in memory, adapters of std's
//! readers and writers, and calls that read a source to its end and write a text whole.
//!
//! Each of them has a count of faults that never falls, and answers `Failed` only where it rose in the call. What an object
//! holds is told by the forms in memory alone; a source also counts the bytes that it gave and its answers at its end,
//! whether it tells or not.
#![tactic(auto)]

mod counts;
mod door;
mod env_words;
mod fault;
mod harbour;
mod line;
mod link;
mod mem_door;
mod mem_harbour;
mod mem_line;
mod mem_sink;
mod mem_source;
mod mem_words;
mod reading;
mod schedule;
mod sink;
mod source;
mod std_sink;
mod std_source;
mod tcp_door;
mod tcp_harbour;
mod tcp_line;
mod words;
mod writing;

pub use door::Door;
pub use env_words::EnvWords;
pub use fault::{EdgeFault, ReadAll, WriteWhole};
pub use harbour::Harbour;
pub use line::Line;
pub use link::Link;
pub use mem_door::MemDoor;
pub use mem_harbour::MemHarbour;
pub use mem_line::MemLine;
pub use mem_sink::MemSink;
pub use mem_source::MemSource;
pub use mem_words::MemWords;
pub use no_memory::NoMemory;
pub use reading::read_all;
pub use sink::Sink;
pub use source::Source;
pub use std_sink::StdSink;
pub use std_source::StdSource;
pub use tcp_door::TcpDoor;
pub use tcp_harbour::TcpHarbour;
pub use tcp_line::TcpLine;
pub use words::Words;
pub use writing::write_whole;

#[cfg(test)]
mod tests;

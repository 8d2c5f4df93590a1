//! Sessions at a desk, line by line: which command a line says, the text of its answer, and a whole session over a connection.
#![tactic(auto)]

mod commands;
mod ends;
mod fault;
mod lines;
mod pending;
mod place;
mod refusals;
mod replies;
mod sessions;
mod words;

pub use commands::read_command;
pub use ends::SessionEnd;
pub use fault::LineFault;
pub use no_memory::NoMemory;
pub use replies::reply_text;
pub use sessions::session;

#[cfg(test)]
mod tests;

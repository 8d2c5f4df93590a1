//! A desk: which rules there are now, which rounds are open, what their packets came to, and a log of all that it was asked.
//! Each reply is the one that the log's history defines.
#![tactic(auto)]

mod desk;
mod desks;
mod event;
mod laws;
mod performing;
mod posted;
mod reply;
mod round;
mod rounds;
mod threads;

pub use desk::Desk;
pub use desks::{Desks, OwnDesk};
pub use event::{Event, Logged, LoggedEvent};
pub use laws::reported_outcomes;
pub use no_memory::NoMemory;
pub use performing::{Answer, Command, perform};
pub use reply::{Refusal, Reply};

//! A desk that threads share. Each of them has a pass, its calls take turns, and there is one history of all of them.
//!
//! A call draws the next place of the history, waits until it is served, answers its event on the desk and then raises what is
//! served by one, so that the entry joins the history. No lock is taken: two words that change in single steps say who is next
//! and who is served, and the desk lies in a slot that only the one who is served may take.
#![tactic(auto)]

mod closing;
mod dealing;
mod pass;
mod rule;
mod seat;
mod shared;
#[cfg(test)]
mod tests;
mod threads;
mod turns;

pub use no_memory::NoMemory;
pub use pass::Pass;
pub use seat::SeatDesk;
pub use shared::{Called, Full, MOST_SEATS, SharedDesk, at_most_64_seats};

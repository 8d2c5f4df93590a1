//! A board from which threads draw the numbers below some n, each number once.
//!
//! Threads that share work number it, make a board of as many numbers and draw their next piece from it. Each thread
//! has a seat of its own, and one draw is one atomic step on one word: no lock, no wait and no memory.
#![tactic(auto)]

mod board;
mod rule;
mod seats;
#[cfg(test)]
mod tests;
mod threads;

pub use board::{Board, Drawn, MOST_SEATS, at_most_64_seats};
pub use no_memory::NoMemory;
pub use seats::ClaimSeat;

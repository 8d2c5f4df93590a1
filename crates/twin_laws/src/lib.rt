//! Terminals that can't be told apart: their packets go the same ways.
#![tactic(auto)]

mod laws;

pub use laws::twin_terminals;

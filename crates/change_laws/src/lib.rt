//! What a change of a network leaves as it was: the entries of a terminal, and the boxes that its packets come to.
#![tactic(auto)]

mod laws;

pub use laws::unchanged_terminal;

//! Trials: the probes of a plan sent through a field in which some rules lose all their packets, then each entry that tells
//! more, and the rules that stand behind those that failed.
#![tactic(auto)]

mod done;
mod entries;
mod fault;
mod following;
mod printing;
mod running;
mod sending;
mod tried;
mod unknown;

pub use done::TrialDone;
pub use fault::TrialFault;
pub use no_memory::NoMemory;
pub use printing::trial_text;
pub use running::trial;
pub use tried::{Refusal, tried_text};

//! The policies that follow a network text, and the text of the answers: which of them hold, and the least header that breaks
//! each of the others.
#![tactic(auto)]

mod answering;
mod fault;
mod lines;
mod printing;

pub use answering::answers;
pub use fault::CheckFault;
pub use lines::network_part;
pub use no_memory::NoMemory;
pub use policy_check::PolicyFault;

//! Laws of networks, walks and prefixes, which the proofs of several crates cite. They stand in proofs/, just above the definitions.
#![tactic(auto)]

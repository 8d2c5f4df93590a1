//! Laws of lists, pairs and orders over std alone, which the proofs of several crates cite. They stand in proofs/.
#![tactic(auto)]

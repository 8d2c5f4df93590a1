//! Small networks, read from their texts, with what their classes and plans come to: the tests that need a whole network and
//! calls of several crates.
#![tactic(auto)]

#[cfg(test)]
mod classes;
#[cfg(test)]
mod networks;
#[cfg(test)]
mod plans;
#[cfg(test)]
mod policies;
#[cfg(test)]
mod replans;
#[cfg(test)]
mod shots;
#[cfg(test)]
mod suspects;
#[cfg(test)]
mod waves;

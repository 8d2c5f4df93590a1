//! Desks over small networks, which are read from their texts: what they answer, case by case.
#![tactic(auto)]

#[cfg(test)]
mod asking;
#[cfg(test)]
mod cases;
#[cfg(test)]
mod findings;
#[cfg(test)]
mod history;
#[cfg(test)]
mod random;
#[cfg(test)]
mod seen;

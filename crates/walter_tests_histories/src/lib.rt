//! Tests of the definition of isolation, by histories: worked ones, and those that runs would spell where a premise of
//! the protocol is broken. The crate has nothing else.
#![tactic(auto)]

#[cfg(test)]
mod isolation;
#[cfg(test)]
mod moves;
#[cfg(test)]
mod premises;

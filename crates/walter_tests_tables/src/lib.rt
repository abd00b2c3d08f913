//! Tests of the tables of a site, by tables of worked rows, one module for each crate. The crate has nothing else.
#![tactic(auto)]

#[cfg(test)]
mod conflicts;
#[cfg(test)]
mod marks;
#[cfg(test)]
mod propagation;
#[cfg(test)]
mod replays;
#[cfg(test)]
mod slow_commits;

//! Finds what is known at each cut of a program. Nothing is claimed of what is found: it is to be checked.
#![tactic(auto)]

pub mod finding;
mod reached;
mod thresholds;
mod widening;

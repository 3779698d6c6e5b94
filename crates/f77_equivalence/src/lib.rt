//! Programs with one statement changed, when they are equivalent, and what is known where runs of a program start.
#![tactic(auto)]

pub mod start;
pub mod ways;

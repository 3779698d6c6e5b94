//! Which mutants of a plan no test can kill, each by a proof.
#![tactic(auto)]

mod equivalents;
mod prover;
mod unproved;

pub use equivalents::{Equivalent, Found, equivalents_of};
pub use unproved::{Left, Unproved};

//! Verdicts: which tests kill a mutant. A `Bench` has a plan, its tests, and the outcome of the program itself on each;
//! `verdict_of` gives the verdict of one mutant, and `Verdicts::row` that of one mutant after another.
#![tactic(auto)]

mod bench;
mod equivalents;
mod fault;
mod killing;
pub mod law;
mod out_of_memory;
mod running;
mod verdict;

pub use bench::Bench;
pub use fault::BenchFault;
pub use verdict::{Row, Verdicts, verdict_of};

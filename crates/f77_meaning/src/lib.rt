//! What a program means: the values of expressions, the steps of a run and how it ends, in terms of names and labels;
//! and that steps over slots are such steps. `law` has what holds of all runs.
#![tactic(auto)]

mod argument;
pub mod law;
mod outcome;
mod values;

pub use argument::Arg;
pub use outcome::{Outcome, RunFault};
pub use values::Values;

//! The interpreter: runs of programs, and of programs with one statement changed, by their code.
//!
//!     // Outcome::Returned(values), .., Outcome::StepLimit; or a fault such as RunFault::ArgumentShape(2)
//!     let outcome = run(alloc, &checked, &arguments, 1000)?;
//!
//! `run` and `counted_run` compile their program at each call. A `Runner` compiles it once.
#![tactic(auto)]

mod changed;
mod diverging;
mod ending;
mod entering;
mod fitting;
mod interpreter;
mod passing;
mod registers;
mod runner;
mod running;
mod visits;
mod workspace;

pub use changed::ChangedRunner;
pub use f77_actions::{Fault, Finish, Value};
pub use f77_meaning::{Arg, Outcome, RunFault, Values};
pub use fitting::fit;
pub use interpreter::{counted_run, run};
pub use runner::{Runner, Trace};
pub use visits::Visits;

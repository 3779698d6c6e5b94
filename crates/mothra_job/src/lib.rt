//! Jobs, read from a JSON text: a source, its tests and the mutants that are declared equivalent.
#![tactic(auto)]

mod equivalent;
mod job;
mod key;
mod suite;

pub use job::{Job, JobFault, read_job};
pub use key::Key;

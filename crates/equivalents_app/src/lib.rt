//! Which mutants of the program of a job no test can kill: from
//! words and the bytes of the job to the bytes that are written.
#![tactic(auto)]

mod finding;
pub mod law;
mod others;
mod rendering;
mod suite;
mod words;

pub use finding::{Equivalents, report};
pub use mothra_app::{AppFault, Status, Watched, run, serve};
pub use words::{Inquiry, inquiry_of};

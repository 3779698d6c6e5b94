//! The commands of the program: from words and the bytes of a job to the bytes that are written.
#![tactic(auto)]

mod answer;
mod executing;
pub mod fault;
pub mod law;
mod line;
pub mod listing;
mod mothra;
mod outcome_line;
mod printing;
pub mod program;
mod reporting;
mod running;
mod service;
mod serving;
mod status;

pub use mothra::{Mothra, report};
pub use mothra_cli::{AppFault, Watched};
pub use mothra_job::{Job, JobFault, Key, read_job};
pub use running::run;
pub use service::Service;
pub use serving::serve;
pub use status::Status;

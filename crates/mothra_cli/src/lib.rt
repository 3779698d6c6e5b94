//! What the words of the command line ask for, all that the
//! standard input has, and a whole text to the standard output.
#![tactic(auto)]

mod command;
mod fault;
mod input;
mod operators;
mod output;
mod request;
mod watched;

pub use command::{VERSION, every_option, ops_option, steps_option};
pub use fault::AppFault;
pub use input::read_input;
pub use operators::Operators;
pub use output::write_whole;
pub use request::{Request, WordsFault, number_at, operators_at, request_of};
pub use watched::Watched;

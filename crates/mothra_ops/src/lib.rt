//! The operators of the mutation analyser.
#![tactic(auto)]

mod copies;
mod edit;
mod editing;
pub mod law;
pub mod listing;
mod mutant;
mod node_lists;
mod original;
mod plan;
mod site;
mod tickets;

pub use copies::Copies;
pub use edit::Edit;
pub use editing::{apply, edits};
pub use mothra_codes::Op;
pub use mothra_replacements::OpsFault;
pub use mutant::{Mutant, push_name, write_name};
pub use plan::Plan;

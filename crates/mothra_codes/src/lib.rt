//! The operators of the mutation analyser: their codes and their order; and the names of mutants.
#![tactic(auto)]

mod op;
mod ticket;

pub use op::Op;
pub use ticket::Ticket;

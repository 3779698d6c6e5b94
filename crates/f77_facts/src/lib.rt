//! What is known of the slots of a program, and of its DOs, by ranges.
#![tactic(auto)]

pub mod assigning;
pub mod entries;
pub mod facts;
pub mod loops;

pub use entries::{Entry, are_covered, is_covered};
pub use facts::{Fact, filled, hull_of, is_empty, is_inside, numbers_of, set};
pub use loops::LoopFact;

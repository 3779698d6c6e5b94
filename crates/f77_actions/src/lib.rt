//! What statements do, with their names and labels looked up; values, faults, and arithmetic on them.
#![tactic(auto)]

mod action;
pub mod encoded;
mod expression;
mod finish;
pub mod number;
mod resolved;
mod value;

pub use action::{Action, Jump};
pub use expression::{Arithmetic, Condition, Connective, Element, Number, Relation};
pub use finish::{Fault, Finish};
pub use resolved::Resolved;
pub use value::Value;

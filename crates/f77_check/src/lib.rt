//! Which programs are legal, and the resolved form of those that are.
//!
//!     let checked = check(alloc, &program)?;   // or a fault: CheckFault::NoLabel(4) where line 4 names no statement
//!     let shapes = checked.arguments();        // a Shape for each dummy argument
//!     let statements = checked.statements();   // resolved: names as slots, labels as numbers of statements
#![tactic(auto)]

mod checked;
mod checking;
mod lookup;
mod patching;
mod resolve;
mod slots;
mod start;

pub use checked::{Checked, Shape};
pub use checking::check;
pub use f77_actions::{
    Action, Arithmetic, Condition, Connective, Element, Jump, Number, Relation, Resolved,
};
pub use f77_legal::CheckFault;
pub use start::Start;

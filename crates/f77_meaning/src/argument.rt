//! The values of dummy arguments.

use crate::values::Values;

/// The value of a dummy argument: that of a variable, or the elements of an array.
#[derive(Debug, PartialEq, Eq, Drop)]
pub enum Arg {
    /// The value of an INTEGER variable.
    Int(i32),
    /// The value of a LOGICAL variable.
    Truth(bool),
    /// The elements of an INTEGER array.
    Ints(Values<i32>),
    /// The elements of a LOGICAL array.
    Truths(Values<bool>),
}

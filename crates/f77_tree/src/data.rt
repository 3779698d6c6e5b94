//! Groups of names and initial values, as they stand behind DATA.

use crate::name::Name;

/// A constant of a DATA statement, with its sign (ANSI X3.9-1978, section 9).
#[derive(Clone, Copy, Debug, PartialEq, Eq, Drop)]
pub enum Constant {
    /// An INTEGER constant. -2147483648 stands for each constant above 2147483647, whatever its sign.
    Number(i32),
    /// A LOGICAL constant.
    Truth(bool),
}

/// A constant and how often it is repeated (ANSI X3.9-1978, section 9).
#[derive(Clone, Copy, Debug, PartialEq, Eq, Drop)]
pub struct Value {
    /// The repeat, 1 where none is written. 2147483648 stands for each repeat above 2147483647.
    pub times: u32,
    /// The constant that is repeated.
    pub constant: Constant,
}

/// A group: names, and the values that they get, both in the order written (ANSI X3.9-1978, section 9).
#[derive(Debug, Drop)]
pub struct DataGroup {
    /// Variables and arrays. An array takes a value for each element, the first subscript varying fastest (5.2.4).
    pub names: Vec<Name>,
    /// The values between the slashes.
    pub values: Vec<Value>,
}

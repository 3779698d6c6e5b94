//! Expressions over registers.

use f77_actions::{Arithmetic, Connective, Relation};

/// An expression whose variables, constants and arrays are registers. The value of a LOGICAL expression is 0 or 1.
#[cycle(terms)]
#[derive(Drop)]
pub enum Term {
    /// A variable or a constant, in this register.
    Register(u32),
    /// An element of an array of one dimension, which begins in the register `first`. The subscript is in a register.
    Element {
        first: u32,
        bound: u32,
        subscript: u32,
    },
    /// An element of an array of two dimensions. The row and the column are in registers.
    MatrixAt {
        first: u32,
        rows: u32,
        columns: u32,
        row: u32,
        column: u32,
    },
    /// The sum of two registers.
    Sum(u32, u32),
    /// The difference of two registers.
    Difference(u32, u32),
    /// The product of two registers.
    Product(u32, u32),
    /// A relation of two registers.
    Compared(Relation, u32, u32),
    /// A constant above 2147483647: its value is Overflow.
    TooLarge,
    /// An element of an array of one dimension with any subscript.
    Vector {
        first: u32,
        bound: u32,
        subscript: Box<Term>,
    },
    /// An element of an array of two dimensions with any row and column.
    Matrix {
        first: u32,
        rows: u32,
        columns: u32,
        pair: Box<Pair>,
    },
    /// A sum.
    Add(Box<Pair>),
    /// A difference.
    Subtract(Box<Pair>),
    /// A product.
    Multiply(Box<Pair>),
    /// Any other operation on two numbers.
    Calculated(Arithmetic, Box<Pair>),
    /// A minus before its operand.
    Negated(Box<Term>),
    /// IABS.
    Absolute(Box<Term>),
    /// ZPUSH(e), which only mutants have: the value of e, but Trapped where that is 0.
    ZeroPush(Box<Term>),
    /// A relation of two numbers.
    Related(Relation, Box<Pair>),
    /// A logical operator on two truth values.
    Connected(Connective, Box<Pair>),
    /// `.NOT.` before its operand.
    Not(Box<Term>),
}

/// Two operands. The left one is evaluated first.
#[cycle(terms)]
#[derive(Drop)]
pub struct Pair {
    /// The first operand, or a row, or a subscript.
    pub left: Term,
    /// The second operand, or a column, or the value that is assigned.
    pub right: Term,
}

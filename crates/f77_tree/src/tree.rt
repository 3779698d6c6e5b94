//! Expressions as trees. Parentheses leave no trace in them.

ghost use Rattle.std.specs.Prelude.{◌≡◌};
ghost use Rattle.f77_tree.specs.{kind_keyword};

use crate::intrinsic::Intrinsic;
use crate::name::Name;
use crate::operator::{Operator, Sign};
use std::alloc::Global;

/// The type of a value (ANSI X3.9-1978, section 4).
#[derive(Clone, Copy, Debug, PartialEq, Eq)]
pub enum Kind {
    /// INTEGER (4.3).
    Integer,
    /// LOGICAL (4.7).
    Logical,
}

impl Kind {
    /// The keyword of its type statement.
    pub fn keyword(self) -> &'static str
        ensures { result.now ≡ kind_keyword self }
    {
        match self {
            Kind::Integer => "INTEGER",
            Kind::Logical => "LOGICAL",
        }
    }
}

/// An expression (ANSI X3.9-1978, section 6).
#[cycle(tree)]
#[derive(Debug, Drop)]
pub enum Expr {
    /// An unsigned INTEGER constant. 2147483648 stands for each constant above 2147483647.
    Number(u32),
    /// A LOGICAL constant.
    Truth(bool),
    /// A variable, or an array element.
    Reference(Ref),
    /// A call of an intrinsic function.
    Call(Intrinsic, Vec<Expr>),
    /// A sign before its operand.
    Signed(Sign, Box<Expr>),
    /// `.NOT.` before its operand.
    Not(Box<Expr>),
    /// An operator between its operands.
    Binary(Operator, Box<Expr>, Box<Expr>),
    /// ZPUSH(e), which only mutants have in place of an INTEGER expression e: the value of e, but a run is Trapped
    /// where that is 0.
    ZeroPush(Box<Expr>),
}

/// A name with its subscripts; a variable has none.
#[cycle(tree)]
#[derive(Debug, Drop)]
pub struct Ref {
    pub name: Name,
    pub subscripts: Vec<Expr>,
}

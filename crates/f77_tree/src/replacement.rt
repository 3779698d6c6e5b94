//! Nodes that are put in the place of others.

use crate::{Expr, Name, Ref, Stmt, Value};

/// A node that may be put in the place of one of the same sort.
#[derive(Drop)]
pub enum Replacement {
    /// A statement, in the place of the whole statement or of the one inside a logical IF.
    Statement(Stmt),
    /// A reference that an assignment assigns to.
    Target(Ref),
    /// An expression, or a part of one.
    Expression(Expr),
    /// A DO variable.
    Name(Name),
    /// A label that the statement names.
    Label(u32),
    /// A value of DATA with its repeat.
    Value(Value),
}

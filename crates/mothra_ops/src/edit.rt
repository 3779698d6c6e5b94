//! An edit: an operator, a node of a statement, and a number of what the operator puts there.

use mothra_codes::Op;

/// One small change of a program: another node in the place of one.
#[derive(Clone, Copy, Debug, PartialEq, Eq, Drop)]
pub struct Edit {
    /// The operator that makes it.
    pub op: Op,
    /// The number of the statement, from 1 for SUBROUTINE.
    pub statement: usize,
    /// The position of the node in the statement, 0 for the statement itself.
    pub position: usize,
    /// The place of the new node among those that the operator gives for the old one, from 1.
    pub rank: usize,
}

//! A site: a node of a statement, with its place in the program.

use f77_tree::{Node, Stmt};

/// A node of a statement of a program, for which operators give other nodes.
#[derive(Clone, Copy, Drop)]
pub(crate) struct Site<'a> {
    /// The number of the statement, from 1.
    pub(crate) number: usize,
    pub(crate) stmt: &'a Stmt,
    /// The position of the node in the statement, from 0.
    pub(crate) position: usize,
    pub(crate) node: Node<'a>,
}

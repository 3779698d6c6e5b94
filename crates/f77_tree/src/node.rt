//! The nodes of a statement, numbered from 0: the statement itself, then its parts from left to right.

ghost use Rattle.std.specs.Prelude.{◌≡◌, option_map};
ghost use Rattle.f77_tree.specs.Node as nodes;
ghost use Rattle.f77_tree.specs.{tree_of, node_of};

use crate::{Decl, Expr, Name, Ref, Stmt, Value};

/// A node of a statement: the statement itself, or one of its parts.
#[derive(Clone, Copy, Drop)]
pub enum Node<'a> {
    /// The statement itself, or the one inside a logical IF.
    Statement(&'a Stmt),
    /// The reference that an assignment assigns to.
    Target(&'a Ref),
    /// An expression, or a part of one.
    Expression(&'a Expr),
    /// A dummy argument, a name of DATA or a DO variable.
    Name(&'a Name),
    /// A name of a declaration with its bounds.
    Declared(&'a Decl),
    /// A label that the statement names.
    Label(u32),
    /// A value of DATA with its repeat.
    Value(&'a Value),
}

fn reference_name(expr: &Expr) -> Option<&Name>
    ensures { option_map (λ name. name.now) result ≡ nodes.tree_name (tree_of expr.now) }
{
    match expr {
        Expr::Reference(place) => Some(&place.name),
        _ => None,
    }
}

impl<'a> Node<'a> {
    /// The label, if the node is one.
    pub fn label(&self) -> Option<u32>
        ensures { result ≡ nodes.label_of (node_of self.now) }
    {
        match *self {
            Node::Label(label) => Some(label),
            _ => None,
        }
    }

    /// The name of the node, if it is a reference, a declared name or a name alone.
    pub fn name(&self) -> Option<&'a Name>
        ensures { option_map (λ name. name.now) result ≡ nodes.node_name (node_of self.now) }
    {
        match *self {
            Node::Target(place) => Some(&place.name),
            Node::Expression(expr) => reference_name(expr),
            Node::Name(name) => Some(name),
            Node::Declared(item) => Some(&item.name),
            Node::Statement(_) | Node::Label(_) | Node::Value(_) => None,
        }
    }
}

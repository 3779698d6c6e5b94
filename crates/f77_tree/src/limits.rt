//! The limits on constants, bounds, repeats and labels. A limit is asked of the list of nodes, not form by form: a node
//! is in range or not, whatever statement it stands in.

ghost use Rattle.std.specs.Prelude.{◌≡◌, map};
ghost use Rattle.std.specs.List.{list_all};
ghost use Rattle.f77_tree.specs.Limits as limits;
ghost use Rattle.f77_tree.specs.{decl_of, tree_of, NodeOf, node_of};

use crate::node::Node;
use crate::{Constant, Decl, Expr, Value};

/// The largest INTEGER constant.
pub const LARGEST_INTEGER: u32 = 2_147_483_647;

fn is_small_tree(expr: &Expr) -> bool
    ensures { result ≡ limits.is_small_node (NodeOf.Part (tree_of expr.now)) }
{
    match expr {
        Expr::Number(number) => *number <= LARGEST_INTEGER,
        _ => true,
    }
}

fn has_small_bounds(item: &Decl) -> bool
    ensures { result ≡ limits.is_small_node (NodeOf.Declared (decl_of item.now)) }
{
    item.bounds.iter().all(|bound| *bound <= LARGEST_INTEGER)
}

fn is_small_constant(constant: Constant) -> bool
    ensures { result ≡ limits.small_constant constant }
{
    match constant {
        Constant::Number(number) => number.unsigned_abs() <= LARGEST_INTEGER,
        Constant::Truth(_) => true,
    }
}

fn is_small_value(value: &Value) -> bool
    ensures { result ≡ limits.is_small_node (NodeOf.Initial value.now) }
{
    1 <= value.times && value.times <= LARGEST_INTEGER && is_small_constant(value.constant)
}

fn is_label(label: u32) -> bool
    ensures { result ≡ limits.is_label label }
{
    (1..=99999).contains(&label)
}

fn is_small(node: &Node<'_>) -> bool
    ensures { result ≡ limits.is_small_node (node_of node.now) }
{
    match *node {
        Node::Expression(expr) => is_small_tree(expr),
        Node::Declared(item) => has_small_bounds(item),
        Node::Label(label) => is_label(label),
        Node::Value(value) => is_small_value(value),
        Node::Statement(_) | Node::Target(_) | Node::Name(_) => true,
    }
}

/// Whether each constant and each bound among the nodes is at most 2147483647, each repeat 1 to 2147483647, and each
/// label 1 to 99999. It takes no memory.
pub fn are_small(nodes: &[Node<'_>]) -> bool
    ensures { result ≡ list_all limits.is_small_node (map node_of nodes.now) }
{
    for node in nodes {
        if !is_small(node) {
            return false;
        }
    }
    true
}

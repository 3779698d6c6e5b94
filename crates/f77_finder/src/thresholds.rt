//! What the bounds of a range may be widened to.

use f77_check::Checked;
use f77_tree::{Expr, Node, nodes};
use std::alloc::{AllocError, Global};

/// Adds a constant, where it is an INTEGER, and those beside it, with either sign.
fn add(list: &mut Vec<i64>, constant: u32) -> Result<(), AllocError> {
    let number = i64::from(constant);
    if number <= i64::from(i32::MAX) {
        list.extend_from_slice(&[number - 1, number, number + 1])?;
        list.extend_from_slice(&[1 - number, -number, -number - 1])?;
    }
    Ok(())
}

/// Adds the constant or the bounds of arrays that the node is.
fn add_node(list: &mut Vec<i64>, node: &Node<'_>) -> Result<(), AllocError> {
    match node {
        Node::Expression(Expr::Number(constant)) => add(list, *constant),
        Node::Declared(item) => item.bounds.iter().try_for_each(|bound| add(list, *bound)),
        _ => Ok(()),
    }
}

/// 0, the constants of expressions and the bounds of arrays, with either sign, and the numbers beside them, in any
/// order.
pub(crate) fn thresholds_of(alloc: Global, checked: &Checked) -> Result<Vec<i64>, AllocError> {
    let mut list = Vec::new(alloc);
    add(&mut list, 0)?;
    for line in checked.program().lines() {
        for node in nodes(alloc, &line.stmt)?.iter() {
            add_node(&mut list, node)?;
        }
    }
    Ok(list)
}

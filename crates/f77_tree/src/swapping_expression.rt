//! Swapping an expression or a part of one.

ghost use Rattle.std.specs.Prelude.{map, option_map};
ghost use Rattle.f77_tree.specs.{tree_of, trees, replacement_of, item_sites, step_sites, target_sites, tree_sites};
ghost use Rattle.f77_tree.specs.code.{Sought, assigned_reference};

use crate::replacement::Replacement;
use crate::swapping_node::is_next;
use crate::{Expr, Ref};
use std::mem;

/// Swaps the expression with this number, from 1, and says whether it did. The number falls by the nodes that were
/// passed.
#[cycle(swap)]
pub fn swap_expression(expr: &mut Expr, number: &mut usize, node: &mut Replacement) -> bool
    ensures { Sought tree_sites result number.old number.new
        (replacement_of node.old) (replacement_of node.new)
        (tree_of expr.old) (tree_of expr.new) }
{
    if is_next(number) {
        return match node {
            Replacement::Expression(new) => {
                mem::swap(expr, new);
                true
            }
            _ => false,
        };
    }
    match expr {
        Expr::Reference(place) => swap_items(&mut place.subscripts, number, node),
        Expr::Call(_, arguments) => swap_items(arguments, number, node),
        Expr::Signed(_, inner) => swap_boxed(inner, number, node),
        Expr::Not(inner) => swap_boxed(inner, number, node),
        Expr::Binary(_, left, right) => {
            swap_boxed(left, number, node) || swap_boxed(right, number, node)
        }
        Expr::ZeroPush(inner) => swap_boxed(inner, number, node),
        _ => false,
    }
}

#[cycle(swap)]
#[inline]
fn swap_boxed(expr: &mut Box<Expr>, number: &mut usize, node: &mut Replacement) -> bool
    ensures { Sought tree_sites result number.old number.new
        (replacement_of node.old) (replacement_of node.new)
        (tree_of expr.old.value) (tree_of expr.new.value) }
{
    swap_expression(expr, number, node)
}

#[cycle(swap)]
fn swap_items(items: &mut [Expr], number: &mut usize, node: &mut Replacement) -> bool
    ensures { Sought item_sites result number.old number.new
        (replacement_of node.old) (replacement_of node.new)
        (trees (map tree_of items.old)) (trees (map tree_of items.new)) }
{
    for item in items.iter_mut() {
        if swap_expression(item, number, node) {
            return true;
        }
    }
    false
}

/// Swaps a node in the third parameter of a DO.
pub fn swap_step(step: &mut Option<Expr>, number: &mut usize, node: &mut Replacement) -> bool
    ensures { Sought step_sites result number.old number.new
        (replacement_of node.old) (replacement_of node.new)
        (option_map tree_of step.old) (option_map tree_of step.new) }
{
    match step {
        Some(step) => swap_expression(step, number, node),
        None => false,
    }
}

/// Swaps the reference that an assignment assigns to, or a part of its subscripts.
pub fn swap_target(target: &mut Ref, number: &mut usize, node: &mut Replacement) -> bool
    ensures { Sought target_sites result number.old number.new
        (replacement_of node.old) (replacement_of node.new)
        (assigned_reference target.old) (assigned_reference target.new) }
{
    if is_next(number) {
        return match node {
            Replacement::Target(new) => {
                mem::swap(target, new);
                true
            }
            _ => false,
        };
    }
    swap_items(&mut target.subscripts, number, node)
}

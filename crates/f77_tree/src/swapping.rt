//! Swapping a node of a statement with another node. It takes no memory, and done once more with what came out it
//! restores the statement. One pass counts down to the node. A position is a place in the list of nodes, so neither the
//! numbering nor the swap needs arithmetic on positions.

ghost use Rattle.std.specs.Prelude.{◌≡◌, ◌+◌, ◌-◌, ◌<◌, ◌^◌, true, false, option_map};
ghost use Rattle.f77_tree.specs.Statement.{Statement, statement_of};
ghost use Rattle.f77_tree.specs.{tree_of, replacement_of, changed, label_sites, list_sites, sites, sites_behind};
ghost use Rattle.f77_tree.specs.code.{Sought, assigned_reference, assignment};

use crate::replacement::Replacement;
use crate::swapping_data::swap_groups;
use crate::swapping_expression::{swap_expression, swap_step, swap_target};
use crate::swapping_node::{is_next, swap_label, swap_name};
use crate::{Expr, Name, Ref, Stmt};
use std::mem;

/// Swaps the node of the statement at this position, from 0, with another node. If the two are of different sorts,
/// or nothing may be put there, both stay as they are. It takes no memory.
pub fn swap_node(stmt: &mut Stmt, position: usize, node: &mut Replacement)
    requires { position + 1 < 2 ^ 64 }
    ensures put { statement_of stmt.new
        ≡ changed (statement_of stmt.old) position (replacement_of node.old) }
    ensures back { statement_of stmt.old
        ≡ changed (statement_of stmt.new) position (replacement_of node.new) }
{
    let mut number = position + 1;
    let _swapped = swap_statement(stmt, &mut number, node);
}

/// Swaps the node with this number, from 1, and says whether it did. The number falls by the nodes that were
/// passed. All functions of this module that take a number do so.
#[cycle(swap)]
fn swap_statement(stmt: &mut Stmt, number: &mut usize, node: &mut Replacement) -> bool
    ensures { Sought sites result number.old number.new
        (replacement_of node.old) (replacement_of node.new)
        (statement_of stmt.old) (statement_of stmt.new) }
{
    if is_next(number) {
        return match node {
            Replacement::Statement(new) => {
                mem::swap(stmt, new);
                true
            }
            _ => false,
        };
    }
    swap_behind(stmt, number, node)
}

/// Swaps a node behind the statement's own.
#[cycle(swap)]
fn swap_behind(stmt: &mut Stmt, number: &mut usize, node: &mut Replacement) -> bool
    ensures { Sought sites_behind result number.old number.new
        (replacement_of node.old) (replacement_of node.new)
        (statement_of stmt.old) (statement_of stmt.new) }
{
    match stmt {
        Stmt::Subroutine { arguments, .. } => pass(arguments.len(), number),
        Stmt::Declare { items, .. } => pass(items.len(), number),
        Stmt::Dimension { items } => pass(items.len(), number),
        Stmt::Preset { groups } => swap_groups(groups, number, node),
        Stmt::Assign { target, value } => swap_assignment(target, value, number, node),
        Stmt::Goto { label } => swap_label(label, number, node),
        Stmt::ComputedGoto { labels, value } => swap_computed(labels, value, number, node),
        Stmt::ArithIf {
            value,
            negative,
            zero,
            positive,
        } => swap_arithmetic(value, negative, zero, positive, number, node),
        Stmt::LogicalIf {
            condition,
            statement,
        } => swap_logical(condition, statement, number, node),
        Stmt::BlockIf { condition } => swap_expression(condition, number, node),
        Stmt::ElseIf { condition } => swap_expression(condition, number, node),
        Stmt::Loop {
            label,
            variable,
            first,
            last,
            step,
        } => swap_loop(label, variable, first, last, step, number, node),
        _ => false,
    }
}

#[cycle(swap)]
fn swap_logical(
    condition: &mut Expr,
    statement: &mut Box<Stmt>,
    number: &mut usize,
    node: &mut Replacement,
) -> bool
    ensures { Sought sites_behind result number.old number.new
        (replacement_of node.old) (replacement_of node.new)
        (Statement.LogicalIf (tree_of condition.old) (statement_of statement.old.value))
        (Statement.LogicalIf (tree_of condition.new) (statement_of statement.new.value)) }
{
    swap_expression(condition, number, node) || swap_statement(statement, number, node)
}

/// Passes nodes that can not be swapped.
fn pass(count: usize, number: &mut usize) -> bool
    ensures none { result ≡ false }
    ensures counted { number.new ≡ number.old - count }
{
    *number = number.saturating_sub(count);
    false
}

fn swap_labels(labels: &mut [u32], number: &mut usize, node: &mut Replacement) -> bool
    ensures { Sought (list_sites label_sites) result number.old number.new
        (replacement_of node.old) (replacement_of node.new) labels.old labels.new }
{
    for label in labels.iter_mut() {
        if swap_label(label, number, node) {
            return true;
        }
    }
    false
}

fn swap_assignment(
    target: &mut Ref,
    value: &mut Expr,
    number: &mut usize,
    node: &mut Replacement,
) -> bool
    ensures { Sought sites_behind result number.old number.new
        (replacement_of node.old) (replacement_of node.new)
        (assignment (assigned_reference target.old) (tree_of value.old))
        (assignment (assigned_reference target.new) (tree_of value.new)) }
{
    swap_target(target, number, node) || swap_expression(value, number, node)
}

fn swap_computed(
    labels: &mut [u32],
    value: &mut Expr,
    number: &mut usize,
    node: &mut Replacement,
) -> bool
    ensures { Sought sites_behind result number.old number.new
        (replacement_of node.old) (replacement_of node.new)
        (Statement.ComputedGoto labels.old (tree_of value.old))
        (Statement.ComputedGoto labels.new (tree_of value.new)) }
{
    swap_labels(labels, number, node) || swap_expression(value, number, node)
}

fn swap_arithmetic(
    value: &mut Expr,
    negative: &mut u32,
    zero: &mut u32,
    positive: &mut u32,
    number: &mut usize,
    node: &mut Replacement,
) -> bool
    ensures { Sought sites_behind result number.old number.new
        (replacement_of node.old) (replacement_of node.new)
        (Statement.ArithIf (tree_of value.old) negative.old zero.old positive.old)
        (Statement.ArithIf (tree_of value.new) negative.new zero.new positive.new) }
{
    if swap_expression(value, number, node) {
        return true;
    }
    if swap_label(negative, number, node) {
        return true;
    }
    swap_label(zero, number, node) || swap_label(positive, number, node)
}

fn swap_loop(
    label: &mut u32,
    variable: &mut Name,
    first: &mut Expr,
    last: &mut Expr,
    step: &mut Option<Expr>,
    number: &mut usize,
    node: &mut Replacement,
) -> bool
    ensures { Sought sites_behind result number.old number.new
        (replacement_of node.old) (replacement_of node.new)
        (Statement.Loop label.old variable.old
        (tree_of first.old) (tree_of last.old) (option_map tree_of step.old))
        (Statement.Loop label.new variable.new
        (tree_of first.new) (tree_of last.new) (option_map tree_of step.new)) }
{
    if swap_label(label, number, node) {
        return true;
    }
    if swap_name(variable, number, node) {
        return true;
    }
    if swap_expression(first, number, node) {
        return true;
    }
    swap_expression(last, number, node) || swap_step(step, number, node)
}

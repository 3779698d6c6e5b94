//! The table of the operators: `gives` says what each operator puts in the place of a node, in the order of
//! `replacements` (`specs/Replacements.antt`). The rank of an edit is a place in such a list, from 1.

ghost use Rattle.std.specs.Prelude.{◌≡◌, ◌∷◌, [], not, map, option_map, if◌then◌else◌, IfOk};
ghost use Rattle.std.specs.List.{filter_map};
ghost use Rattle.f77_tree.specs.Statement.{same_statement, statement_of};
ghost use Rattle.f77_tree.specs.Node.{NodeOf, node_of};
ghost use Rattle.f77_tree.specs.Replacement.{replacement_of};
ghost use Rattle.f77_tree.specs.View.{tree_of};
ghost use Rattle.mothra_replacements.specs.Replacements as model;
ghost use Rattle.mothra_replacements.specs.{pool_fields};

use crate::expressions::in_expression;
use crate::operands::{has_subscripts, scalar};
use crate::pools::Pools;
use f77_tree::{Constant, Expr, Form, LARGEST_INTEGER, Node, Replacement, Stmt, Value};
use mothra_codes::Op;
use std::alloc::{AllocError, Global};

/// The largest number that a value of DATA may have; the least is its negative.
const LARGEST: i32 = LARGEST_INTEGER as i32;

/// Whether statements of this form are DOs.
fn is_loop(form: Form) -> bool
    ensures { result ≡ model.is_loop_form form }
{
    matches!(form, Form::Loop)
}

/// Whether statements of this form are DATA.
fn is_preset(form: Form) -> bool
    ensures { result ≡ model.is_preset form }
{
    matches!(form, Form::Preset)
}

/// Whether the operator has sites in the statement.
fn stands_in(op: Op, stmt: &Stmt) -> bool
    ensures { result ≡ model.stands_in op (statement_of stmt.now) }
{
    match op {
        Op::Der => is_loop(stmt.form()),
        Op::Dsa => is_preset(stmt.form()),
        Op::Glr => stmt.form().is_executable() && !is_loop(stmt.form()),
        _ => stmt.form().is_executable(),
    }
}

/// SDL: whether a CONTINUE may stand in the place of a statement of this form.
fn acts(form: Form) -> bool
    ensures { result ≡ model.is_replaceable_action form }
{
    match form {
        Form::LogicalIf => true,
        Form::Continue | Form::Trap => false,
        _ => form.acts(),
    }
}

/// RSR and SAN: whether a RETURN, or a trap, may stand in the place of a statement of this form.
fn acts_or_continues(form: Form) -> bool
    ensures { result ≡ model.acts_or_continues form }
{
    matches!(form, Form::Continue) || acts(form)
}

/// The new statement, or nothing where it equals the old one.
fn replaced_by(alloc: Global, new: Stmt, stmt: &Stmt) -> Result<Vec<Replacement>, AllocError>
    ensures { IfOk result (λ list. map replacement_of list.items
        ≡ (if not (same_statement (statement_of new) (statement_of stmt.now))
        then NodeOf.Itself (statement_of new) ∷ [] else [])) }
{
    if new == *stmt {
        Ok(Vec::new(alloc))
    } else {
        Ok(vec![in alloc; Replacement::Statement(new)]?)
    }
}

/// What the operator puts in the place of a statement.
fn in_statement(alloc: Global, op: Op, stmt: &Stmt) -> Result<Vec<Replacement>, AllocError>
    ensures { IfOk result (λ list. map replacement_of list.items ≡ model.in_statement op (statement_of stmt.now)) }
{
    let form = stmt.form();
    match op {
        Op::Rsr if acts_or_continues(form) => replaced_by(alloc, Stmt::Return, stmt),
        Op::San if acts_or_continues(form) => replaced_by(alloc, Stmt::Trap, stmt),
        Op::Sdl if acts(form) => replaced_by(alloc, Stmt::Continue, stmt),
        _ => Ok(Vec::new(alloc)),
    }
}

/// The labels without `own`.
fn other_labels(alloc: Global, labels: &[u32], own: u32) -> Result<Vec<Replacement>, AllocError>
    ensures { IfOk result (λ list. map replacement_of list.items ≡ model.other_labels labels.now own) }
{
    let mut list = Vec::new(alloc);
    for label in labels {
        if *label != own {
            list.push(Replacement::Label(*label))?;
        }
    }
    Ok(list)
}

/// What the operator puts in the place of a label.
fn in_label(
    alloc: Global,
    op: Op,
    pools: &Pools,
    label: u32,
) -> Result<Vec<Replacement>, AllocError>
    ensures { IfOk result (λ list. map replacement_of list.items ≡ model.in_label op (pool_fields pools.now) label) }
{
    match op {
        Op::Der | Op::Glr => other_labels(alloc, &pools.labels, label),
        _ => Ok(Vec::new(alloc)),
    }
}

/// DSA: a number plus one and less one, where these are in the range; the other truth value.
fn next_constants(alloc: Global, constant: Constant) -> Result<Vec<Constant>, AllocError>
    ensures { IfOk result (λ list. list.items ≡ model.next_constants constant) }
{
    let mut list = Vec::new(alloc);
    match constant {
        Constant::Number(number) => {
            if number < LARGEST {
                list.push(Constant::Number(number + 1))?;
            }
            if number > -LARGEST {
                list.push(Constant::Number(number - 1))?;
            }
        }
        Constant::Truth(truth) => list.push(Constant::Truth(!truth))?,
    }
    Ok(list)
}

/// The next constants as values of DATA, each repeated as often as this one.
fn next_values(alloc: Global, value: &Value) -> Result<Vec<Replacement>, AllocError>
    ensures { IfOk result (λ list. map replacement_of list.items ≡ model.next_values value.now) }
{
    let constants = next_constants(alloc, value.constant)?;
    let times = value.times;
    let mut list = Vec::with_capacity(alloc, constants.len())?;
    for constant in constants {
        list.push(Replacement::Value(Value { times, constant }))?;
    }
    Ok(list)
}

/// What the operator puts in the place of a value of DATA.
fn in_value(alloc: Global, op: Op, value: &Value) -> Result<Vec<Replacement>, AllocError>
    ensures { IfOk result (λ list. map replacement_of list.items ≡ model.in_value op value.now) }
{
    match op {
        Op::Dsa => next_values(alloc, value),
        _ => Ok(Vec::new(alloc)),
    }
}

/// The expression in the place of the node, where it may stand there: only a reference is assigned to, and a DO
/// variable is a scalar.
#[tactic(auto, using(crate::proofs::Elements::as_expression, crate::proofs::Elements::named))]
fn placed(node: Node<'_>, expr: Expr) -> Option<Replacement>
    ensures { option_map replacement_of result ≡ model.placed (node_of node.entry) (tree_of expr) }
{
    match node {
        Node::Expression(_) => Some(Replacement::Expression(expr)),
        Node::Target(_) => match expr {
            Expr::Reference(place) => Some(Replacement::Target(place)),
            _ => None,
        },
        Node::Name(_) => match expr {
            Expr::Reference(place) => {
                if has_subscripts(&place) {
                    None
                } else {
                    Some(Replacement::Name(place.name))
                }
            }
            _ => None,
        },
        _ => None,
    }
}

/// The expressions in the place of the node, where they may stand there.
fn all_placed(
    alloc: Global,
    node: Node<'_>,
    list: Vec<Expr>,
) -> Result<Vec<Replacement>, AllocError>
    ensures { IfOk result (λ made. map replacement_of made.items
        ≡ filter_map (model.placed (node_of node.entry)) (map tree_of list.items)) }
{
    let mut made = Vec::with_capacity(alloc, list.len())?;
    for expr in list {
        if let Some(replacement) = placed(node, expr) {
            made.push(replacement)?;
        }
    }
    Ok(made)
}

/// What the operator puts in the place of an expression, a target or a DO variable, for which `expr` stands.
fn in_place(
    alloc: Global,
    op: Op,
    pools: &Pools,
    node: Node<'_>,
    expr: &Expr,
) -> Result<Vec<Replacement>, AllocError>
    ensures { IfOk result (λ list. map replacement_of list.items ≡ filter_map (model.placed (node_of node.entry))
        (model.in_expression op (pool_fields pools.now) (tree_of expr.now))) }
{
    let list = in_expression(alloc, op, pools, expr)?;
    all_placed(alloc, node, list)
}

/// What the operator puts in the place of a node of a statement in which it has sites.
fn at_node(
    alloc: Global,
    op: Op,
    pools: &Pools,
    node: Node<'_>,
) -> Result<Vec<Replacement>, AllocError>
    ensures { IfOk result
        (λ list. map replacement_of list.items ≡ model.replacements op (pool_fields pools.now) (node_of node.entry)) }
{
    match node {
        Node::Statement(stmt) => in_statement(alloc, op, stmt),
        Node::Target(place) => {
            let expr = Expr::Reference(place.clone()?);
            in_place(alloc, op, pools, node, &expr)
        }
        Node::Expression(expr) => in_place(alloc, op, pools, node, expr),
        Node::Name(name) => in_place(alloc, op, pools, node, &scalar(alloc, *name)),
        Node::Declared(_) => Ok(Vec::new(alloc)),
        Node::Label(label) => in_label(alloc, op, pools, label),
        Node::Value(value) => in_value(alloc, op, value),
    }
}

/// What the operator puts in the place of this node of the statement, in the order of `replacements`.
pub fn gives(
    alloc: Global,
    op: Op,
    pools: &Pools,
    stmt: &Stmt,
    node: Node<'_>,
) -> Result<Vec<Replacement>, AllocError>
    ensures list { IfOk result (λ list. map replacement_of list.items
        ≡ model.gives op (pool_fields pools.now) (statement_of stmt.now) (node_of node.entry)) }
{
    if stands_in(op, stmt) {
        at_node(alloc, op, pools, node)
    } else {
        Ok(Vec::new(alloc))
    }
}

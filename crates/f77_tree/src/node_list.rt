//! All nodes of a statement, as one list. The limits on constants and on the number of nodes, and the operators, ask
//! this list alone.

ghost use Rattle.std.specs.Prelude.{◌≡◌, ◌++◌, IfOk, OnOk, map, flat_map, option_map};
ghost use Rattle.f77_tree.specs.Statement.{statement_of, jumps_of};
ghost use Rattle.f77_tree.specs.{data_group_of, decl_of, NodeOf, node_of, nodes_of, tree_nodes, all_parts, value_nodes};
ghost use Rattle.f77_tree.specs.{group_nodes, tree_of, trees};

use crate::node::Node;
use crate::{DataGroup, Decl, Expr, Name, Stmt, Value};
use std::alloc::{AllocError, Global};

/// The nodes of the statement, in the order of their positions: the statement itself first.
pub fn nodes(alloc: Global, stmt: &Stmt) -> Result<Vec<Node<'_>>, AllocError>
    ensures { IfOk result (λ list. map node_of list.items ≡ nodes_of (statement_of stmt.now)) }
{
    let mut list = Vec::new(alloc);
    add_statement(&mut list, stmt)?;
    Ok(list)
}

fn add_statement<'a>(list: &mut Vec<Node<'a>>, stmt: &'a Stmt) -> Result<(), AllocError>
    ensures { OnOk result
        (map node_of list.new.items ≡ map node_of list.old.items ++ nodes_of (statement_of stmt.now)) }
{
    list.push(Node::Statement(stmt))?;
    match stmt {
        Stmt::Subroutine { arguments, .. } => add_names(list, arguments),
        Stmt::Declare { items, .. } | Stmt::Dimension { items } => add_declared(list, items),
        Stmt::Preset { groups } => add_groups(list, groups),
        Stmt::Assign { target, value } => {
            list.push(Node::Target(target))?;
            add_items(list, &target.subscripts)?;
            add_tree(list, value)
        }
        Stmt::ArithIf { value, .. } => {
            add_tree(list, value)?;
            add_jumps(list, stmt)
        }
        Stmt::LogicalIf {
            condition,
            statement,
        } => {
            add_tree(list, condition)?;
            add_statement(list, statement)
        }
        Stmt::Loop {
            label,
            variable,
            first,
            last,
            step,
        } => {
            list.push(Node::Label(*label))?;
            list.push(Node::Name(variable))?;
            add_tree(list, first)?;
            add_tree(list, last)?;
            add_value(list, step.as_ref())
        }
        _ => {
            add_jumps(list, stmt)?;
            add_value(list, stmt.value())
        }
    }
}

/// Adds an expression and its parts, in preorder.
#[cycle(parts)]
fn add_tree<'a>(list: &mut Vec<Node<'a>>, expr: &'a Expr) -> Result<(), AllocError>
    ensures { OnOk result (map node_of list.new.items ≡ map node_of list.old.items ++ tree_nodes (tree_of expr.now)) }
{
    list.push(Node::Expression(expr))?;
    match expr {
        Expr::Reference(place) => add_items(list, &place.subscripts),
        Expr::Call(_, arguments) => add_items(list, arguments),
        Expr::Signed(_, inner) | Expr::Not(inner) | Expr::ZeroPush(inner) => add_tree(list, inner),
        Expr::Binary(_, left, right) => {
            add_tree(list, left)?;
            add_tree(list, right)
        }
        _ => Ok(()),
    }
}

#[cycle(parts)]
fn add_items<'a>(list: &mut Vec<Node<'a>>, items: &'a [Expr]) -> Result<(), AllocError>
    ensures { OnOk result (map node_of list.new.items
        ≡ map node_of list.old.items ++ map NodeOf.Part (all_parts (trees (map tree_of items.now)))) }
{
    for item in items {
        add_tree(list, item)?;
    }
    Ok(())
}

/// Adds an expression and its parts, if there is one.
fn add_value<'a>(list: &mut Vec<Node<'a>>, value: Option<&'a Expr>) -> Result<(), AllocError>
    ensures { OnOk result (map node_of list.new.items
        ≡ map node_of list.old.items ++ value_nodes (option_map (λ value. tree_of value.now) value.entry)) }
{
    match value {
        Some(value) => add_tree(list, value),
        None => Ok(()),
    }
}

/// Adds the labels to which control may go from the statement.
fn add_jumps(list: &mut Vec<Node<'_>>, stmt: &Stmt) -> Result<(), AllocError>
    ensures { OnOk result (map node_of list.new.items
        ≡ map node_of list.old.items ++ map NodeOf.Labelled (jumps_of (statement_of stmt.now))) }
{
    for k in 0..stmt.jump_count() {
        let Some(label) = stmt.jump(k) else {
            unreachable!()
        };
        list.push(Node::Label(label))?;
    }
    Ok(())
}

fn add_names<'a>(list: &mut Vec<Node<'a>>, names: &'a [Name]) -> Result<(), AllocError>
    ensures { OnOk result (map node_of list.new.items ≡ map node_of list.old.items ++ map NodeOf.Named names.now) }
{
    for name in names {
        list.push(Node::Name(name))?;
    }
    Ok(())
}

fn add_declared<'a>(list: &mut Vec<Node<'a>>, items: &'a [Decl]) -> Result<(), AllocError>
    ensures { OnOk result
        (map node_of list.new.items ≡ map node_of list.old.items ++ map NodeOf.Declared (map decl_of items.now)) }
{
    for item in items {
        list.push(Node::Declared(item))?;
    }
    Ok(())
}

fn add_groups<'a>(list: &mut Vec<Node<'a>>, groups: &'a [DataGroup]) -> Result<(), AllocError>
    ensures { OnOk result (map node_of list.new.items
        ≡ map node_of list.old.items ++ flat_map group_nodes (map data_group_of groups.now)) }
{
    for group in groups {
        add_group(list, group)?;
    }
    Ok(())
}

fn add_group<'a>(list: &mut Vec<Node<'a>>, group: &'a DataGroup) -> Result<(), AllocError>
    ensures { OnOk result
        (map node_of list.new.items ≡ map node_of list.old.items ++ group_nodes (data_group_of group.now)) }
{
    add_names(list, &group.names)?;
    add_values(list, &group.values)
}

fn add_values<'a>(list: &mut Vec<Node<'a>>, values: &'a [Value]) -> Result<(), AllocError>
    ensures { OnOk result (map node_of list.new.items ≡ map node_of list.old.items ++ map NodeOf.Initial values.now) }
{
    for value in values {
        list.push(Node::Value(value))?;
    }
    Ok(())
}

//! The pools: the operands, arrays and labels of a program from which the operators draw.

ghost use Rattle.std.specs.Prelude.{◌≡◌, not, is_some, map, filter, IfOk, option_map};
ghost use Rattle.std.specs.List.{filter_map};
ghost use Rattle.indexmap.specs.IndexMap.{keys};
ghost use Rattle.f77_tree.specs.Comparing.{same_tree};
ghost use Rattle.f77_tree.specs.Node.{node_of};
ghost use Rattle.f77_program.specs.Program.{line_of};
ghost use Rattle.f77_tree.specs.View.{tree_of};
ghost use Rattle.f77_legal.specs.Labels as labelled;
ghost use Rattle.f77_legal.specs.Names.{some_items};
ghost use Rattle.f77_legal.specs.NameTable.{array_bounds};
ghost use Rattle.mothra_replacements.specs.Pools as model;
ghost use Rattle.mothra_replacements.specs.{each_once, ascending, operand_at, pool_fields};

use crate::operands::{Operand, is_operand, is_reference, scalar};
use f77_legal::Names;
use f77_program::Line;
use f77_tree::{Expr, Name, Node, Shared, nodes};
use std::alloc::{AllocError, Global};

/// What the operators draw from: the names of a program with their kinds and bounds, its scalars, its arrays, its array
/// references, its constants and its labels.
#[derive(Drop)]
pub struct Pools {
    pub names: Names,
    /// The names without bounds, in order of first appearance.
    pub scalars: Vec<Expr>,
    /// The names with bounds, in order of first appearance.
    pub arrays: Vec<Name>,
    /// The array references of executable statements, each once, in order of first occurrence.
    pub references: Vec<Expr>,
    /// The constants of executable statements, each once, in order of first occurrence.
    pub constants: Vec<Expr>,
    /// The labels that stand on statements, ascending, each once. Some may be labels to which a jump may not go: the
    /// legality of the changed program decides that.
    pub labels: Vec<u32>,
}

/// The nodes of the executable statements, in order.
fn executable_nodes(alloc: Global, lines: &[Shared<Line>]) -> Result<Vec<Node<'_>>, AllocError>
    ensures { IfOk result (λ list. map node_of list.items ≡ model.executable_nodes (map line_of lines.now)) }
{
    let mut list = Vec::new(alloc);
    for line in lines {
        if line.stmt.form().is_executable() {
            list.append(&mut nodes(alloc, &line.stmt)?)?;
        }
    }
    Ok(list)
}

/// The operand of this sort that a node is, in an expression or as a target.
fn operand_at(sort: Operand, node: Node<'_>) -> Result<Option<Expr>, AllocError>
    ensures { IfOk result (λ operand. option_map tree_of operand ≡ operand_at sort (node_of node.entry)) }
{
    match node {
        Node::Expression(expr) if is_operand(sort, expr) => Ok(Some(expr.clone()?)),
        Node::Target(place) if is_reference(sort, place) => {
            Ok(Some(Expr::Reference(place.clone()?)))
        }
        _ => Ok(None),
    }
}

/// The operands of this sort among the nodes, each once, in order of first occurrence.
fn operands(alloc: Global, sort: Operand, nodes: &[Node<'_>]) -> Result<Vec<Expr>, AllocError>
    ensures { IfOk result (λ list. map tree_of list.items
        ≡ each_once same_tree (filter_map (operand_at sort) (map node_of nodes.now))) }
{
    let mut list = Vec::new(alloc);
    for node in nodes {
        if let Some(operand) = operand_at(sort, *node)?
            && !list.contains(&operand)
        {
            list.push(operand)?;
        }
    }
    Ok(list)
}

/// Whether the name is that of an array.
fn has_bounds(names: &Names, name: &Name) -> bool
    ensures { result ≡ is_some (some_items (array_bounds names.now name.now)) }
{
    !names.bounds(name).is_empty()
}

/// The names without bounds, as operands, and those with bounds, both in the order of the table.
fn scalars_and_arrays(alloc: Global, names: &Names) -> Result<(Vec<Expr>, Vec<Name>), AllocError>
    ensures scalars { IfOk result (λ lists. map tree_of lists.0.items ≡ map model.scalar
        (filter (λ name. not (is_some (some_items (array_bounds names.now name)))) (keys names.now.facts))) }
    ensures arrays { IfOk result (λ lists. lists.1.items
        ≡ filter (λ name. is_some (some_items (array_bounds names.now name))) (keys names.now.facts)) }
{
    let mut scalars = Vec::new(alloc);
    let mut arrays = Vec::new(alloc);
    for name in names.facts.keys() {
        if has_bounds(names, name) {
            arrays.push(*name)?;
        } else {
            scalars.push(scalar(alloc, *name))?;
        }
    }
    Ok((scalars, arrays))
}

impl Pools {
    /// The pools of the program of these lines. `labels` has the labels that stand on its statements, in any order.
    pub fn of(
        alloc: Global,
        lines: &[Shared<Line>],
        mut labels: Vec<u32>,
    ) -> Result<Pools, AllocError>
        requires { labels.items ≡ labelled.labels (map line_of lines.now) }
        ensures pools { IfOk result (λ pools. pool_fields pools ≡ model.pools_of (map line_of lines.now)) }
    {
        sort(&mut labels);
        let nodes = executable_nodes(alloc, lines)?;
        let names = Names::of(alloc, lines)?;
        let (scalars, arrays) = scalars_and_arrays(alloc, &names)?;
        let references = operands(alloc, Operand::ArrayReference, &nodes)?;
        let constants = operands(alloc, Operand::Constant, &nodes)?;
        Ok(Pools {
            names,
            scalars,
            arrays,
            references,
            constants,
            labels,
        })
    }

    /// The operands of this sort.
    pub(crate) fn of_sort(&self, sort: Operand) -> &[Expr]
        ensures { map tree_of result.now ≡ model.pool (pool_fields self.now) sort }
    {
        match sort {
            Operand::ArrayReference => &self.references,
            Operand::Constant => &self.constants,
            Operand::Scalar => &self.scalars,
        }
    }
}

/// Sorts the labels and keeps each once.
fn sort(labels: &mut Vec<u32>)
    ensures { labels.new.items ≡ ascending labels.old.items }
{
    labels.sort_unstable();
    labels.dedup();
}

//! The nodes of the statements of a program.

ghost use Rattle.std.specs.Prelude.{◌≡◌, ◌<◌, ◌+◌, ◌^◌, map, option_map, slice_get, IfOk, IfSome};
ghost use Rattle.std.specs.Option.{option_and_then};
ghost use Rattle.f77_tree.specs.Node.{node_of};
ghost use Rattle.f77_program.specs.Program.{line_of};
ghost use Rattle.mothra_ops.specs.code.Original.{nodes_at};

use f77_program::Line;
use f77_tree::{Node, Shared, nodes};
use std::alloc::{AllocError, Global};
use std::marker::Model;

/// The nodes of the statements of these lines. They are found once, since mutants are asked for edit by edit.
#[derive(Drop)]
pub(crate) struct NodeLists<'a> {
    lines: &'a [Shared<Line>],
    /// The nodes of each line, in the order of the lines.
    lists: Vec<Vec<Node<'a>>>,
}

impl<'a> Model for NodeLists<'a> {
    ghost use Rattle.std.specs.Prelude.{List, map};
    ghost use Rattle.std.specs.Coded.{codes};
    ghost use Rattle.f77_program.specs.Program.{line_of};
    ghost use Rattle.f77_program.specs.declared.program.Line.{Line as LineModel};
    ghost use Rattle.f77_tree.specs.contracts.tree.Expr as expr;
    ghost use Rattle.f77_tree.specs.contracts.statement.Stmt as stmt;
    ghost use Rattle.mothra_ops.specs.code.Original.{AreNodesOf};

    ghost Value = { List LineModel };

    ghost coded = { Prim.hlevel (codes, expr.the_row.coded, stmt.the_row.coded) };

    ghost view = { λ nodes. nodes.lines.now };

    ghost invariant = { λ nodes. AreNodesOf (map line_of nodes.lines.now) nodes.lists.items };
}

impl<'a> NodeLists<'a> {
    pub(crate) fn of(alloc: Global, lines: &'a [Shared<Line>]) -> Result<NodeLists<'a>, AllocError>
        ensures lines { IfOk result (λ lists. lists ≡ lines.now) }
    {
        let mut lists = Vec::with_capacity(alloc, lines.len())?;
        for line in lines {
            lists.push(nodes(alloc, &line.stmt)?)?;
        }
        Ok(NodeLists { lines, lists })
    }

    /// The nodes of the statement with this number, from 1, in the order of their positions; None where there is no
    /// such line.
    pub(crate) fn at<'s>(&'s self, number: usize) -> Option<&'s [Node<'a>]>
    where
        'a: 's,
        ensures { option_map (λ list. map node_of list.now) result ≡ nodes_at (map line_of self.now) number }
    {
        if number == 0 {
            return None;
        }
        match self.lists.get(number - 1) {
            Some(list) => Some(list),
            None => None,
        }
    }

    /// The node at this position, from 0, of the statement with this number, from 1; None where there is none.
    pub(crate) fn node(&self, number: usize, position: usize) -> Option<Node<'a>>
        ensures node { option_map node_of result
            ≡ option_and_then (λ list. slice_get list position) (nodes_at (map line_of self.now) number) }
        ensures counted { IfSome result (λ node. position + 1 < 2 ^ 64) }
    {
        match self.at(number) {
            Some(list) => list.get(position).copied(),
            None => None,
        }
    }
}

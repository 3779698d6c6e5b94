//! Copies of the statements of a program, into which the nodes of mutants are put one after another.

ghost use Rattle.std.specs.Prelude.{◌≡◌, ◌<◌, ◌+◌, ◌^◌, map, option_map, IfOk};
ghost use Rattle.f77_program.specs.Program.{line_of};
ghost use Rattle.f77_tree.specs.Replacement.{replacement_of};
ghost use Rattle.f77_tree.specs.Statement.{statement_of};
ghost use Rattle.mothra_ops.specs.{changed_at, copied, statements_in, numbered};

use f77_program::Line;
use f77_tree::{Replacement, Shared, Stmt};
use std::alloc::{AllocError, Global};

/// Copies of the statements of a program. A mutant's node is put into one and taken out again, so that no statement has
/// to be copied for a mutant.
#[derive(Drop)]
pub struct Copies {
    pub(crate) stmts: Vec<Stmt>,
}

impl Copies {
    /// Copies of the statements of these lines.
    pub fn of(alloc: Global, lines: &[Shared<Line>]) -> Result<Copies, AllocError>
        ensures copies { IfOk result (λ copies. copied copies ≡ statements_in (map line_of lines.now)) }
    {
        let mut stmts = Vec::with_capacity(alloc, lines.len())?;
        for line in lines {
            stmts.push(line.stmt.clone()?)?;
        }
        Ok(Copies { stmts })
    }

    /// The copy of the statement of this number, from 1. It takes no memory.
    pub fn get(&self, number: usize) -> Option<&Stmt>
        ensures { option_map (λ stmt. statement_of stmt.now) result ≡ numbered (copied self.now) number }
    {
        if number == 0 {
            return None;
        }
        match self.stmts.get(number - 1) {
            Some(stmt) => Some(stmt),
            None => None,
        }
    }

    /// Swaps this node with the one at this position of the copy of the statement of this number,
    /// from 1, if both are of one sort. It takes no memory.
    pub fn swap(&mut self, number: usize, position: usize, node: &mut Replacement)
        requires { position + 1 < 2 ^ 64 }
        ensures put { copied self.new ≡ changed_at (copied self.old) number position (replacement_of node.old) }
        ensures back { copied self.old ≡ changed_at (copied self.new) number position (replacement_of node.new) }
    {
        if number == 0 || number > self.stmts.len() {
            return;
        }
        f77_tree::swap_node(&mut self.stmts[number - 1], position, node);
    }
}

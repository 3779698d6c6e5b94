//! Programs with one statement changed. All other lines are shared with the old program.

ghost use Rattle.std.specs.Prelude.{◌≡◌, true, false, map, IfOk};
ghost use Rattle.f77_tree.specs.Statement.{statement_of};
ghost use Rattle.f77_program.specs.{line_of, Fits, patched};

use crate::formed::is_formed;
use crate::group::group_of;
use crate::program::{Line, Program};
use f77_tree::{Shared, Stmt};
use std::alloc::AllocError;

/// The line with another statement. Its label and its line number stay.
fn with_stmt(line: &Line, stmt: &Stmt) -> Result<Line, AllocError>
    ensures { IfOk result (λ changed. line_of changed ≡ record (line_of line.now) { stmt = statement_of stmt.now }) }
{
    Ok(Line {
        label: line.label,
        stmt: stmt.clone()?,
        line: line.line,
    })
}

impl Program {
    /// Whether the statement may be put in the place of the statement with this number, counted from 1. It may if both
    /// are of the same group, some text spells it, and its names have at most six characters. It takes no memory.
    pub fn fits(&self, number: usize, stmt: &Stmt) -> bool
        ensures yes { result ≡ true → Fits (map line_of self.now) number (statement_of stmt.now) }
        ensures no { result ≡ false → ¬ (Fits (map line_of self.now) number (statement_of stmt.now)) }
    {
        match self.line(number) {
            Some(line) => group_of(stmt) == group_of(&line.stmt) && is_formed(stmt),
            None => false,
        }
    }

    /// The program with another statement in the place of the one with this number, counted from 1.
    pub fn with_statement(&self, number: usize, stmt: &Stmt) -> Result<Program, AllocError>
        requires { Fits (map line_of self.now) number (statement_of stmt.now) }
        ensures { IfOk result
            (λ program. map line_of program ≡ patched (map line_of self.now) number (statement_of stmt.now)) }
    {
        let mut lines = self.lines().to_vec(self.allocator())?;
        let changed = with_stmt(&lines[number - 1], stmt)?;
        lines[number - 1] = Shared::new(self.allocator(), changed)?;
        Ok(Program::from_lines(lines))
    }
}

//! Programs: none can be made that breaks `IsProgram`.

ghost use Rattle.std.specs.Prelude.{◌≡◌, List, None, true, false, map, option_map, IfOk, IfErr, IfSome, IsSome, IsNone};
ghost use Rattle.std.specs.Coded.{codes};
ghost use Rattle.std.specs.Cmp.{on_equiv, partial_equiv_from_equiv};
ghost use Rattle.std.specs.Ordering.{on};
ghost use Rattle.f77_tree.specs.contracts.tree.Expr as expr;
ghost use Rattle.f77_tree.specs.contracts.statement.Stmt as stmt;
ghost use Rattle.f77_program.specs.Comparing.{same_line, same_lines};
ghost use Rattle.f77_program.specs.SameLines.{line_equiv, lines_equiv};
ghost use Rattle.f77_program.specs.Program.{IsProgram, MayFollow, line_of, line_at};
ghost use Rattle.f77_program.specs.declared.program.Line.{Line};

use crate::fault::SyntaxFault;
use crate::formed::is_formed;
use crate::group::{Group, group_of, is_end};
use f77_tree::{Shared, Stmt};
use std::alloc::{AllocError, Global};
use std::marker::Model;

/// A statement with its label, if it has one, and the number of its initial line.
#[derive(Debug, Drop)]
pub struct Line {
    pub label: Option<u32>,
    pub stmt: Stmt,
    pub line: u32,
}

impl Clone for Line {
    ghost is_clone = { λ source copy. line_of copy ≡ line_of source };

    fn clone(&self) -> Result<Line, AllocError> {
        Ok(Line {
            label: self.label,
            stmt: self.stmt.clone()?,
            line: self.line,
        })
    }
}

impl PartialEq for Line {
    ghost eq = { on line_of same_line };

    ghost laws = { partial_equiv_from_equiv (on_equiv line_of line_equiv) };

    fn eq(&self, other: &Line) -> bool {
        self.label == other.label && self.stmt == other.stmt && self.line == other.line
    }
}

impl Eq for Line {
    ghost laws = { on_equiv line_of line_equiv };
}

/// A subroutine: SUBROUTINE first, then declarations, then DATA, then executable statements, and END last (ANSI
/// X3.9-1978, 3.5). Each is a statement that some text spells, with names of at most six characters. Copies share their
/// lines.
#[derive(Debug, Drop)]
pub struct Program {
    lines: Vec<Shared<Line>>,
}

impl Model for Program {
    ghost Value = { List Line };

    ghost coded = { Prim.hlevel (codes, expr.the_row.coded, stmt.the_row.coded) };

    ghost view = { λ p. p.lines.items };

    ghost invariant = { λ p. IsProgram None (map line_of p.lines.items) };
}

impl Clone for Program {
    ghost is_clone = { λ source copy. map line_of copy ≡ map line_of source };

    #[tactic(auto, using(crate::proofs::Lines::same_lines, crate::proofs::Lines::same_program))]
    fn clone(&self) -> Result<Program, AllocError> {
        Ok(Program {
            lines: self.lines.clone()?,
        })
    }
}

impl PartialEq for Program {
    ghost eq = { on (map line_of) same_lines };

    ghost laws = { partial_equiv_from_equiv (on_equiv (map line_of) lines_equiv) };

    #[tactic(auto, using(crate::proofs::Lines::lines_by_view))]
    fn eq(&self, other: &Program) -> bool {
        self.lines == other.lines
    }
}

impl Eq for Program {
    ghost laws = { on_equiv (map line_of) lines_equiv };
}

/// Whether the line may follow a statement of the group `before`, or be the first, and some text spells its statement.
fn follows(before: Option<Group>, line: &Line) -> bool
    ensures yes { result ≡ true → MayFollow before (line_of line.now) }
    ensures no { result ≡ false → ¬ (MayFollow before (line_of line.now)) }
{
    group_of(&line.stmt).may_stand(before) && is_formed(&line.stmt)
}

/// Whether the lines are a program.
fn are_program(lines: &[Shared<Line>]) -> bool
    ensures yes { result ≡ true → IsProgram None (map line_of lines.now) }
    ensures no { result ≡ false → ¬ (IsProgram None (map line_of lines.now)) }
{
    let mut last = None;
    for line in lines {
        if !follows(last, line) {
            return false;
        }
        last = Some(group_of(&line.stmt));
    }
    is_end(last)
}

/// The lines, each as a value that programs can share.
fn shared_lines(alloc: Global, lines: Vec<Line>) -> Result<Vec<Shared<Line>>, AllocError>
    ensures { IfOk result (λ shared. shared.items ≡ lines.items) }
{
    let mut shared = Vec::with_capacity(alloc, lines.len())?;
    for line in lines {
        shared.push(Shared::new(alloc, line)?)?;
    }
    Ok(shared)
}

impl Program {
    /// The program of lines that are known to be one. It takes no memory.
    pub fn from_lines(lines: Vec<Shared<Line>>) -> Program
        requires { IsProgram None (map line_of lines.items) }
        ensures { result ≡ lines.items }
    {
        Program { lines }
    }

    /// The program of these lines, or None where they are no program: each statement has to stand in its place, and has
    /// to be one that some text spells, with names of at most six characters.
    pub fn of(alloc: Global, lines: Vec<Line>) -> Result<Option<Program>, SyntaxFault>
        ensures given { IfOk result (λ answer. IfSome answer (λ program. program ≡ lines.items)) }
        ensures program { IfOk result (λ answer. IsSome answer → IsProgram None (map line_of lines.items)) }
        ensures no_program { IfOk result (λ answer. IsNone answer → ¬ (IsProgram None (map line_of lines.items))) }
        ensures memory { IfErr result (λ fault. fault ≡ SyntaxFault.Memory) }
    {
        let shared = shared_lines(alloc, lines)?;
        if are_program(&shared) {
            Ok(Some(Program { lines: shared }))
        } else {
            Ok(None)
        }
    }

    /// The lines in order. It takes no memory.
    pub fn lines(&self) -> &[Shared<Line>]
        ensures lines { result.now ≡ self.now }
        ensures program { IsProgram None (map line_of self.now) }
    {
        &self.lines
    }

    /// The line with this number, if there is one. SUBROUTINE is number 1. It takes no memory.
    pub fn line(&self, number: usize) -> Option<&Line>
        ensures { option_map (λ line. line.now) result ≡ line_at self.now number }
    {
        if number == 0 {
            return None;
        }
        match self.lines.get(number - 1) {
            Some(line) => Some(line),
            None => None,
        }
    }

    /// The allocator from which the lists of the program take their memory.
    pub fn allocator(&self) -> Global {
        *Vec::allocator(&self.lines)
    }
}

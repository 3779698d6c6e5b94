//! Checked programs with one statement changed.
//!
//! Where the changed statement alone decides, the tables, the start and all other lines and resolved statements are
//! shared with the old program. The table of names may then have names that the program no longer has, in an order of
//! its own; `IsStock` says what holds of them. Any other change is checked as a whole.
//!
//! Memory comes from where that of the old program came (`Program::allocator`), so no call needs an allocator.

ghost use Rattle.std.specs.Prelude.{◌≡◌, ◌<◌, ◌⊎◌, ◌-◌, true, false, List, length, map, slice_set};
ghost use Rattle.std.specs.Prelude.{IfOk, IfErr, None, Some};
ghost use Rattle.f77_program.specs.Program.{LineFields, IsProgram, line_of};
ghost use Rattle.f77_program.specs.Patching.{Fits, replaced, patched};
ghost use Rattle.f77_tree.specs.Statement.{statement_of};
ghost use Rattle.f77_check.specs.Checked.{shapes};
ghost use Rattle.f77_check.specs.code.Patching.{FrameStays};
ghost use Rattle.f77_check.specs.Patching.{IsInPlace};
ghost use Rattle.f77_check.specs.Resolved.{IsResolved};
ghost use Rattle.f77_legal.specs.Legal.{IsLegal, first_fault};
ghost use Rattle.f77_legal.specs.Alone.{StandsAlone};
ghost use Rattle.f77_legal.specs.declared.fault.CheckFault.TheVariants.{Memory};

use crate::checked::Checked;
use crate::checking::{checked_by, judged};
use f77_actions::Resolved;
use f77_legal::{Broken, CheckFault, Tables, is_terminal, keeps_frame};
use f77_tree::{Shared, Stmt};
use std::alloc::{AllocError, Global};

impl Checked {
    /// Whether the statement may be put in the place of the statement with this number, counted from 1. It may if both
    /// are of the same group, some text spells it, and its names have at most six characters. It takes no memory.
    pub fn fits(&self, number: usize, stmt: &Stmt) -> bool
        ensures yes { result ≡ true → Fits (map line_of self.now.program) number (statement_of stmt.now) }
        ensures no { result ≡ false → ¬ (Fits (map line_of self.now.program) number (statement_of stmt.now)) }
    {
        self.program.fits(number, stmt)
    }

    /// Whether the program keeps its frame, and the statement may end the DOs that end there. It takes no memory.
    fn frame_stays(&self, number: usize, stmt: &Stmt) -> bool
        requires { Fits (map line_of self.now.program) number (statement_of stmt.now) }
        ensures { result ≡ true → FrameStays (map line_of self.now.program) (number - 1) (statement_of stmt.now) }
    {
        let i = number - 1;
        keeps_frame(&self.program.lines()[i].stmt, stmt)
            && (is_terminal(stmt) || self.statements[i].ends.is_empty())
    }

    /// What follows from the changed statement alone: true if the changed program is legal, false if the whole of it
    /// has to be judged, or its first fault. It takes no memory.
    fn judged_alone(&self, number: usize, stmt: &Stmt) -> Result<bool, CheckFault>
        requires { Fits (map line_of self.now.program) number (statement_of stmt.now) }
        ensures alone { IfOk result (λ alone. alone ≡ true
            → StandsAlone self.now.names (map line_of self.now.program) (number - 1) (statement_of stmt.now)) }
        ensures legal { IfOk result (λ alone. alone ≡ true
            → IsLegal (patched (map line_of self.now.program) number (statement_of stmt.now))) }
        ensures fault { IfErr result (λ fault.
            first_fault (patched (map line_of self.now.program) number (statement_of stmt.now)) ≡ Some fault) }
    {
        if !self.frame_stays(number, stmt) {
            return Ok(false);
        }
        let i = number - 1;
        let lines = self.program.lines();
        match self.resolver.tables.first_broken(lines, i, stmt) {
            Broken::Nothing => Ok(true),
            Broken::First(clause) => Err(clause.fault(lines[i].line)),
            Broken::UnknownName => Ok(false),
        }
    }

    /// Judges the program with another statement in the place of the one with this number, counted from 1. Gives true
    /// if it is legal by that statement alone, false if it is legal and had to be judged as a whole; else its first
    /// fault, in the order of test.
    ///
    /// Memory may be reported in place of any answer. None is taken where the statement alone decides.
    pub fn judge(&self, number: usize, stmt: &Stmt) -> Result<bool, CheckFault>
        requires { Fits (map line_of self.now.program) number (statement_of stmt.now) }
        ensures legal { IfOk result
            (λ _. IsLegal (patched (map line_of self.now.program) number (statement_of stmt.now))) }
        ensures alone { IfOk result (λ alone. alone ≡ true
            → StandsAlone self.now.names (map line_of self.now.program) (number - 1) (statement_of stmt.now)) }
        ensures fault { let program = patched (map line_of self.now.program) number (statement_of stmt.now) in
            IfErr result (λ fault. (fault ≡ Memory) ⊎ (first_fault program ≡ Some fault)) }
    {
        if self.judged_alone(number, stmt)? {
            return Ok(true);
        }
        let program = self.program.with_statement(number, stmt)?;
        judged(program.allocator(), program.lines())?;
        Ok(false)
    }

    /// The resolved form of the statement in its new place, where the changed program is legal by this statement alone.
    /// With it in the place of the old one, the resolved statements are those of the changed program.
    pub fn resolved(&self, number: usize, stmt: &Stmt) -> Result<Shared<Resolved>, AllocError>
        requires fits { Fits (map line_of self.now.program) number (statement_of stmt.now) }
        requires alone { StandsAlone self.now.names (map line_of self.now.program) (number - 1)
            (statement_of stmt.now) }
        requires legal { IsLegal (patched (map line_of self.now.program) number (statement_of stmt.now)) }
        ensures in_place { IfOk result (IsInPlace self.now number (statement_of stmt.now)) }
    {
        let alloc = self.program.allocator();
        let resolved = self.resolved_for(alloc, number - 1, stmt)?;
        let shared = Shared::new(alloc, resolved)?;
        Ok(shared)
    }

    /// The resolved form of statement `i` of the changed program.
    fn resolved_for(&self, alloc: Global, i: usize, stmt: &Stmt) -> Result<Resolved, AllocError>
        ghost program: { List LineFields }
        requires changed { program ≡ replaced (map line_of self.now.program) i (statement_of stmt.now) }
        requires alone { StandsAlone self.now.names (map line_of self.now.program) i (statement_of stmt.now) }
        requires formed { IsProgram None program }
        requires legal { IsLegal program }
        ensures { IfOk result
            (λ resolved. IsResolved program self.now.names i (statement_of stmt.now) resolved) }
    {
        let next = self.statements[i].next;
        self.resolver.resolved(alloc, i, stmt, next)
    }

    /// The resolved statements, with this one in the place of statement `i`.
    fn statements_with(
        &self,
        i: usize,
        resolved: Shared<Resolved>,
    ) -> Result<Vec<Shared<Resolved>>, AllocError>
        requires { i < length self.now.statements }
        ensures { IfOk result (λ list. list.items ≡ slice_set self.now.statements i resolved) }
    {
        let mut statements = self.statements.to_vec(self.program.allocator())?;
        statements[i] = resolved;
        Ok(statements)
    }

    /// The changed program, checked, where it is legal by the changed statement alone.
    fn patched_alone(&self, number: usize, stmt: &Stmt) -> Result<Checked, AllocError>
        requires fits { Fits (map line_of self.now.program) number (statement_of stmt.now) }
        requires alone { StandsAlone self.now.names (map line_of self.now.program) (number - 1)
            (statement_of stmt.now) }
        requires legal { IsLegal (patched (map line_of self.now.program) number (statement_of stmt.now)) }
        ensures program { IfOk result (λ checked. map line_of checked.program
            ≡ patched (map line_of self.now.program) number (statement_of stmt.now)) }
        ensures arguments { IfOk result (λ checked. checked.arguments ≡ self.now.arguments) }
    {
        let resolved = self.resolved(number, stmt)?;
        let program = self.program.with_statement(number, stmt)?;
        let statements = self.statements_with(number - 1, resolved)?;
        Ok(Checked {
            program,
            arguments: self.arguments.clone()?,
            resolver: self.resolver.clone()?,
            statements,
            start: self.start.clone()?,
        })
    }

    /// The program with another statement in the place of the one with this number, counted from 1, where it is legal.
    /// `is_alone` is what `judge` gives. The old program stays as it is.
    pub fn with_statement(
        &self,
        number: usize,
        stmt: &Stmt,
        is_alone: bool,
    ) -> Result<Checked, AllocError>
        requires fits { Fits (map line_of self.now.program) number (statement_of stmt.now) }
        requires alone { is_alone ≡ true → StandsAlone self.now.names (map line_of self.now.program) (number - 1)
            (statement_of stmt.now) }
        requires legal { IsLegal (patched (map line_of self.now.program) number (statement_of stmt.now)) }
        ensures program { IfOk result (λ checked. map line_of checked.program
            ≡ patched (map line_of self.now.program) number (statement_of stmt.now)) }
        ensures arguments { IfOk result (λ checked. checked.arguments
            ≡ shapes (patched (map line_of self.now.program) number (statement_of stmt.now))) }
    {
        if is_alone {
            return self.patched_alone(number, stmt);
        }
        let program = self.program.with_statement(number, stmt)?;
        let alloc = program.allocator();
        let tables = Tables::of(alloc, program.lines())?;
        checked_by(alloc, &program, tables)
    }

    /// Checks the program with another statement in the place of the one with this number, counted from 1. Where it is
    /// not legal, its first fault is reported, clause by clause in the order of test.
    ///
    /// Memory may be reported in place of any answer. The old program stays as it is.
    pub fn patched(&self, number: usize, stmt: &Stmt) -> Result<Checked, CheckFault>
        requires { Fits (map line_of self.now.program) number (statement_of stmt.now) }
        ensures legal { let program = patched (map line_of self.now.program) number (statement_of stmt.now) in
            IfOk result (λ checked. IsLegal program) }
        ensures program { let program = patched (map line_of self.now.program) number (statement_of stmt.now) in
            IfOk result (λ checked. map line_of checked.program ≡ program) }
        ensures arguments { let program = patched (map line_of self.now.program) number (statement_of stmt.now) in
            IfOk result (λ checked. checked.arguments ≡ shapes program) }
        ensures fault { let program = patched (map line_of self.now.program) number (statement_of stmt.now) in
            IfErr result (λ fault. (fault ≡ Memory) ⊎ (first_fault program ≡ Some fault)) }
    {
        let is_alone = self.judge(number, stmt)?;
        Ok(self.with_statement(number, stmt, is_alone)?)
    }
}

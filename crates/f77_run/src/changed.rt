//! Runs of a program with one statement changed. One change follows another, and all runs use the same memory.

ghost use Rattle.std.specs.Prelude.{◌≡◌, ◌<◌, ◌-◌, length, map, slice_set, None, IfOk, OnErr, OnOk};
ghost use Rattle.std.specs.Bool.{Decides};
ghost use Rattle.f77_program.specs.Patching.{Fits, patched};
ghost use Rattle.f77_program.specs.Program.{line_of};
ghost use Rattle.f77_tree.specs.Statement.{statement_of};
ghost use Rattle.f77_legal.specs.Alone.{StandsAlone};
ghost use Rattle.f77_legal.specs.Legal.{IsLegal};
ghost use Rattle.f77_code.specs.Replacing.{HaveOneOwn, IsAllOwn, IsChangedCode, own_instructions};
ghost use Rattle.f77_code.specs.Program.{IsCode};
ghost use Rattle.f77_code.specs.Together.{AgreeButAt};
ghost use Rattle.f77_meaning.specs.Interpreter.{IsOutcomeOf};
ghost use Rattle.f77_meaning.specs.declared.outcome.Outcome.{Outcome};
ghost use Rattle.f77_run.specs.Changed.{changed_program};
ghost use Rattle.f77_run.specs.code.Changing.{BeginsImage, CanReplace};
ghost use Rattle.f77_run.specs.Registers.{IsImage};
ghost use Rattle.f77_run.specs.Visits.{IsFollowed};

use crate::diverging::end_beside;
use crate::ending::is_outcome_for;
use crate::registers::{Registers, add_constants};
use crate::visits::Visits;
use crate::workspace::{Workspace, prepared};
use f77_check::{Checked, Resolved};
use f77_code::ChangedCode;
use f77_meaning::{Arg, Outcome};
use f77_tree::Stmt;
use std::alloc::{AllocError, Global};
use std::marker::Model;
use std::snapshot::Snapshot;

/// A changed statement.
#[derive(Drop)]
pub(crate) struct Change {
    /// The number of the statement, from 0.
    pub(crate) place: usize,
    /// The statement that stands in its place. Only clauses read it.
    pub(crate) stmt: Snapshot<Stmt>,
}

/// Runs a program with one statement changed. One change follows another, and memory is taken once.
#[derive(Drop)]
pub struct ChangedRunner<'a> {
    alloc: Global,
    checked: &'a Checked,
    code: ChangedCode,
    space: Workspace,
    change: Option<Change>,
}

impl<'a> Model for ChangedRunner<'a> {
    ghost use Rattle.std.specs.Coded.{codes};
    ghost use Rattle.f77_tree.specs.contracts.statement.Stmt as stmt;
    ghost use Rattle.f77_check.specs.contracts.checked.Checked as legal;
    ghost use Rattle.f77_run.specs.Changed.{ChangedFields, IsChanged, changed_fields};

    ghost Value = { ChangedFields };

    ghost coded = { Prim.hlevel (codes, stmt.the_row.coded, legal.the_row.coded) };

    ghost view = { λ runner. changed_fields runner.checked.now runner.change };

    ghost invariant = { λ runner. IsChanged (changed_fields runner.checked.now runner.change)
        runner.code runner.space.image };
}

/// Makes the code, and the registers at the start of its runs, those of the program itself again.
fn restore(checked: &Checked, code: &mut ChangedCode, image: &mut Registers)
    requires code { IsChangedCode checked.now.statements code.old }
    requires slots { code.old.code.constants.slots ≡ checked.now.slots }
    requires image { BeginsImage checked.now code.old image.old }
    ensures code { IsChangedCode checked.now.statements code.new }
    ensures own { IsAllOwn code.new }
    ensures same { HaveOneOwn code.old code.new }
    ensures image { IsImage checked.now code.new.code.constants.values.items image.new }
{
    code.restore();
    let own = code.code().constants().values().len();
    image.items.truncate(checked.slots() + own);
}

/// Puts the instruction of a statement in the place `place` of code that is the program's own. If memory runs out, the
/// code is still the program's own.
fn put(
    alloc: Global,
    checked: &Checked,
    code: &mut ChangedCode,
    image: &mut Registers,
    place: usize,
    resolved: &Resolved,
) -> Result<(), AllocError>
    requires code { IsChangedCode checked.now.statements code.old }
    requires own { IsAllOwn code.old }
    requires slots { code.old.code.constants.slots ≡ checked.now.slots }
    requires image { IsImage checked.now code.old.code.constants.values.items image.old }
    requires place { place < length checked.now.statements }
    requires change { CanReplace checked.now place resolved.now }
    ensures code { IsChangedCode checked.now.statements code.new }
    ensures same { HaveOneOwn code.old code.new }
    ensures image { IsImage checked.now code.new.code.constants.values.items image.new }
    ensures compiled { OnOk result (IsCode (slice_set checked.now.statements place resolved.now) code.new.code) }
    ensures others { OnOk result (AgreeButAt place (own_instructions code.new) code.new.code.instructions.items) }
{
    let own = code.code().constants().values().len();
    code.replace(alloc, checked.statements(), place, resolved)?;
    let constants = &code.code().constants().values()[own..];
    if add_constants(&mut image.items, constants).is_err() {
        restore(checked, code, image);
        return Err(AllocError);
    }
    Ok(())
}

impl<'a> ChangedRunner<'a> {
    /// A runner for this program, with no statement changed. It takes all memory that its runs need, apart from that
    /// for registers, which the first run takes, and that for a state that is kept in a long run.
    pub fn of(alloc: Global, checked: &'a Checked) -> Result<ChangedRunner<'a>, AllocError>
        ensures program { IfOk result (λ runner. runner.checked ≡ checked.now) }
        ensures unchanged { IfOk result (λ runner. runner.stmt ≡ None) }
    {
        let (code, space) = prepared(alloc, checked)?;
        Ok(ChangedRunner {
            alloc,
            checked,
            code: ChangedCode::of(code),
            space,
            change: None,
        })
    }

    /// Puts a statement in the place of the statement with this number, counted from 1. All others are the program's
    /// own, and the changed program has to be legal by that statement alone. From now on runs are those of the changed
    /// program. If memory runs out, they are those of the program itself.
    pub fn change(&mut self, number: usize, stmt: &Stmt) -> Result<(), AllocError>
        requires fits { Fits (map line_of self.old.checked.program) number (statement_of stmt.now) }
        requires alone { StandsAlone self.old.checked.names (map line_of self.old.checked.program) (number - 1)
            (statement_of stmt.now) }
        requires legal { IsLegal (patched (map line_of self.old.checked.program) number (statement_of stmt.now)) }
        ensures program { self.new.checked ≡ self.old.checked }
        ensures changed { OnOk result (changed_program self.new
            ≡ patched (map line_of self.old.checked.program) number (statement_of stmt.now)) }
        ensures unchanged { OnErr result (self.new.stmt ≡ None) }
    {
        restore(self.checked, &mut self.code, &mut self.space.image);
        self.change = None;
        let place = number - 1;
        let resolved = self.checked.resolved(number, stmt)?;
        let image = &mut self.space.image;
        let code = &mut self.code;
        put(self.alloc, self.checked, code, image, place, &resolved)?;
        let stmt = Snapshot::of(stmt);
        self.change = Some(Change { place, stmt });
        Ok(())
    }

    /// Whether the run of the changed program, with these values of the dummy arguments in order and this limit on
    /// steps, has the outcome `outcome`, which is that of the program itself. The run begins where it may diverge from
    /// the run of the program, at the first visit of the changed statement; it is not made if the two do not diverge.
    ///
    /// Memory may be reported in place of any answer.
    pub fn comes_to(
        &mut self,
        visits: &Visits,
        arguments: &[Arg],
        steps: u32,
        outcome: &Outcome,
    ) -> Result<bool, AllocError>
        requires visits { IsFollowed self.old.checked arguments.now steps visits.now }
        requires outcome { IsOutcomeOf (map line_of self.old.checked.program) arguments.now steps outcome.now }
        ensures program { self.new ≡ self.old }
        ensures outcome { IfOk result (λ same. (other : Outcome)
            × IsOutcomeOf (changed_program self.old) arguments.now steps other × Decides same (outcome.now ≡ other)) }
    {
        let Some(change) = &self.change else {
            return Ok(true);
        };
        let checked = self.checked;
        let end = end_beside(
            checked,
            self.code.code(),
            &mut self.space,
            change,
            &visits.list[change.place],
            arguments,
            visits.made,
            steps,
        )?;
        let Some(finish) = end else { return Ok(true) };
        let registers = &self.space.registers.items;
        Ok(is_outcome_for(checked, finish, registers, outcome, true))
    }
}

//! Runs of one program, one after another, in the same memory.

ghost use Rattle.std.specs.Prelude.{◌≡◌, ◌⊎◌, ◌+◌, map, Some, Err, IfOk, IfErr, IfSome};
ghost use Rattle.std.specs.Bool.{Decides};
ghost use Rattle.f77_program.specs.Program.{line_of};
ghost use Rattle.f77_code.specs.Follow.{numbers_kept};
ghost use Rattle.f77_meaning.specs.Interpreter.{IsOutcomeOf, refusal};
ghost use Rattle.f77_meaning.specs.declared.outcome.Outcome.{Outcome};
ghost use Rattle.f77_meaning.specs.declared.outcome.RunFault.TheVariants as fault;
ghost use Rattle.f77_run.specs.Visits.{IsFollowed};

use crate::ending::{answer, has_fitting_values, is_outcome_for};
use crate::fitting::fit;
use crate::visits::Visits;
use crate::workspace::{Workspace, prepared};
use f77_check::Checked;
use f77_code::{Code, finish_at, follow};
use f77_meaning::{Arg, Outcome, RunFault};
use std::alloc::{AllocError, Global};
use std::marker::Model;

/// What is kept of the trace of a run: its outcome, and the first visit of each statement.
#[derive(Drop)]
pub struct Trace {
    /// The outcome of the run.
    pub outcome: Outcome,
    /// The states in which control first came to the statements. A run of a changed program may begin from these.
    pub visits: Visits,
}

/// Runs one program, again and again, in memory that is taken once.
#[derive(Drop)]
pub struct Runner<'a> {
    checked: &'a Checked,
    code: Code,
    space: Workspace,
}

impl<'a> Model for Runner<'a> {
    ghost use Rattle.std.specs.Prelude.{◌≡◌};
    ghost use Rattle.f77_check.specs.Checked.{CheckedFields, IsChecked};
    ghost use Rattle.f77_check.specs.contracts.checked.Checked as legal;
    ghost use Rattle.f77_code.specs.Program.{IsCode};
    ghost use Rattle.f77_run.specs.Registers.{IsImage};

    ghost Value = { CheckedFields };

    ghost coded = { legal.the_row.coded };

    ghost view = { λ runner. runner.checked.now };

    ghost invariant = { λ runner. IsChecked runner.checked.now
        × IsCode runner.checked.now.statements runner.code
        × (runner.code.constants.slots ≡ runner.checked.now.slots)
        × IsImage runner.checked.now runner.code.constants.values.items runner.space.image };
}

impl<'a> Runner<'a> {
    /// A runner for this program, which is compiled here. It takes all memory that its runs need, apart from that for a
    /// trace, that for registers, which the first run takes, and that for a state that is kept in a long run.
    pub fn of(alloc: Global, checked: &'a Checked) -> Result<Runner<'a>, AllocError>
        ensures program { IfOk result (λ runner. runner ≡ checked.now) }
    {
        let (code, space) = prepared(alloc, checked)?;
        Ok(Runner {
            checked,
            code,
            space,
        })
    }

    /// Whether the run with these values of the dummy arguments, in order, has this outcome within the limit `steps`.
    ///
    /// N2 and N3 are reported before any step. Memory (N1) may be reported in place of any answer.
    pub fn comes_to(
        &mut self,
        arguments: &[Arg],
        steps: u32,
        outcome: &Outcome,
    ) -> Result<bool, RunFault>
        ensures program { self.new ≡ self.old }
        ensures outcome { IfOk result (λ same. (other : Outcome)
            × IsOutcomeOf (map line_of self.old.program) arguments.now steps other
            × Decides same (outcome.now ≡ other)) }
        ensures refused { IfSome (refusal self.old.arguments arguments.now) (λ e. result ≡ Err e) }
        ensures fault { IfErr result (λ e. (e ≡ fault.Memory) ⊎ (refusal self.old.arguments arguments.now ≡ Some e)) }
    {
        let checked = self.checked;
        fit(checked.arguments(), arguments)?;
        let end = self.space.end_of(checked, &self.code, arguments, 0, steps)?;
        let registers = &self.space.registers.items;
        let fit = has_fitting_values(checked, outcome);
        Ok(is_outcome_for(checked, end.finish, registers, outcome, fit))
    }

    /// Runs the program once with these values of the dummy arguments, in order, within the limit `steps`, and keeps
    /// its trace: the first step at each statement, while there is room. `room` counts numbers, and falls by those that
    /// are kept: for a step, two for each slot and two for each DO. This run does no cycle detection, so a program that
    /// does not end makes all steps of the limit here, once.
    ///
    /// N2 and N3 are reported before any step. Memory (N1) may be reported in place of any answer.
    pub fn trace(
        &mut self,
        alloc: Global,
        arguments: &[Arg],
        steps: u32,
        room: &mut usize,
    ) -> Result<Trace, RunFault>
        ensures program { self.new ≡ self.old }
        ensures outcome { IfOk result
            (λ trace. IsOutcomeOf (map line_of self.old.program) arguments.now steps trace.outcome) }
        ensures only { IfOk result (λ trace. (other : Outcome)
            → IsOutcomeOf (map line_of self.old.program) arguments.now steps other → other ≡ trace.outcome) }
        ensures visits { IfOk result (λ trace. IsFollowed self.old arguments.now steps trace.visits) }
        ensures room { IfOk result (λ trace. room.new + numbers_kept trace.visits.list.items ≡ room.old) }
        ensures refused { IfSome (refusal self.old.arguments arguments.now) (λ e. result ≡ Err e) }
        ensures fault { IfErr result (λ e. (e ≡ fault.Memory) ⊎ (refusal self.old.arguments arguments.now ≡ Some e)) }
    {
        let checked = self.checked;
        fit(checked.arguments(), arguments)?;
        self.space.restart(checked, arguments)?;
        let mut visits = Visits::none(alloc, checked.count())?;
        let stand = follow(
            alloc,
            self.code.instructions(),
            &mut self.space.registers.items,
            &mut self.space.registers.counters,
            checked.slots(),
            checked.start().entry,
            &mut visits.list,
            steps,
            room,
        )?;
        visits.made = stand.made;
        let finish = finish_at(stand.place);
        let outcome = answer(alloc, checked, finish, &self.space.registers.items)?;
        Ok(Trace { outcome, visits })
    }
}

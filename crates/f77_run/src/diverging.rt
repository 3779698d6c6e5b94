//! The end of the run of a changed program, which begins where it may diverge from the run of the program.
//!
//! If control never came to the changed statement, the run is that of the program and is not made. If its first visit
//! is kept, the changed code makes that one step: if the step leads to the same state, and control came there once, the
//! run is that of the program; otherwise it goes on from there. If no visit is kept, the run begins at the start.

ghost use Rattle.std.specs.Prelude.{◌≡◌, map, IfNone, IfOk, IfSome};
ghost use Rattle.f77_program.specs.Program.{line_of};
ghost use Rattle.f77_meaning.specs.Interpreter.{IsOutcomeOf};
ghost use Rattle.f77_meaning.specs.declared.outcome.Outcome.{Outcome};
ghost use Rattle.f77_run.specs.code.Diverging.{Divergence, IsDivergence};
ghost use Rattle.f77_run.specs.code.Ends.{ShowsEnd};

use crate::changed::Change;
use crate::running::advance;
use crate::workspace::Workspace;
use f77_actions::Finish;
use f77_check::Checked;
use f77_code::{Code, Passed, finish_at, first_step};
use f77_meaning::Arg;
use std::alloc::AllocError;

/// How the run of the changed program ends; None if it is known to have the outcome of the program. `passed` has the
/// first time at which control was at the changed statement.
pub(crate) fn end_beside(
    checked: &Checked,
    code: &Code,
    space: &mut Workspace,
    change: &Change,
    passed: &Passed,
    arguments: &[Arg],
    patience: u32,
    steps: u32,
) -> Result<Option<Finish>, AllocError>
    ghost divergence: { Divergence }
    requires divergence { IsDivergence divergence checked.now code.now space.old.image }
    requires place { change.now.place ≡ divergence.place }
    requires passed { passed.now ≡ divergence.passed }
    requires arguments { divergence.run.arguments ≡ arguments.now }
    requires steps { steps ≡ divergence.steps }
    ensures same { IfOk result (λ end. IfNone end ((outcome : Outcome)
        → IsOutcomeOf (map line_of checked.now.program) divergence.run.arguments steps outcome
        → IsOutcomeOf divergence.run.program divergence.run.arguments steps outcome)) }
    ensures shows { IfOk result (λ end. IfSome end
        (λ finish. ShowsEnd divergence.run steps finish space.new.registers.items.items)) }
    ensures image { space.new.image ≡ space.old.image }
{
    let Some(kept) = &passed.first else {
        if !passed.more {
            return Ok(None);
        }
        let end = space.end_of(checked, code, arguments, patience, steps)?;
        return Ok(Some(end.finish));
    };
    space.registers.copy_behind(kept.slots.len(), &space.image)?;
    let registers = &mut space.registers;
    let list = code.instructions();
    let items = &mut registers.items;
    let turns = &mut registers.counters;
    let Some(next) = first_step(list, change.place, kept, passed.more, items, turns) else {
        return Ok(None);
    };
    let left = steps - kept.made - 1;
    let stand = advance(list, registers, next, &mut space.kept, patience, left)?;
    Ok(Some(finish_at(stand.place)))
}

//! The outcome for an end of a run, and whether a given outcome is the one for an end.

ghost use Rattle.std.specs.Prelude.{◌≡◌, map, IfOk, IfSome};
ghost use Rattle.std.specs.Bool.{Decides};
ghost use Rattle.f77_program.specs.Program.{line_of};
ghost use Rattle.f77_meaning.specs.Interpreter as meaning;
ghost use Rattle.f77_meaning.specs.Interpreter.{AreArguments, AreFitting};
ghost use Rattle.f77_meaning.specs.Site.{held};
ghost use Rattle.f77_run.specs.code.{outcome_values, ReportsOf, HoldDummies, shown_by};

use crate::entering::have_arguments;
use crate::fitting::are_fitting;
use crate::passing::arguments as held_arguments;
use crate::registers::shown;
use f77_actions::{Fault, Finish};
use f77_check::Checked;
use f77_meaning::{Arg, Outcome, Values};
use std::alloc::{AllocError, Global};

/// Whether the registers of the dummy arguments have these values. `fit` says whether the values fit these.
fn have_dummies(checked: &Checked, registers: &[i64], arguments: &[Arg], fit: bool) -> bool
    requires fit { Decides fit (AreFitting checked.now.arguments arguments.now) }
    requires dummies { HoldDummies checked.now registers.now }
    ensures { Decides result (AreArguments (map line_of checked.now.program)
        (held checked.now (shown_by checked.now registers.now)) arguments.now) }
{
    let start = checked.start();
    if !fit {
        return false;
    }
    have_arguments(registers, &start.kinds, &start.dummies, arguments)
}

/// Whether the values that the outcome has fit the dummy arguments. True where it has none. It takes no memory.
pub(crate) fn has_fitting_values(checked: &Checked, outcome: &Outcome) -> bool
    ensures { IfSome (outcome_values outcome.now)
        (λ arguments. Decides result (AreFitting checked.now.arguments arguments)) }
{
    match outcome {
        Outcome::Returned(arguments) | Outcome::Stopped(arguments) => {
            are_fitting(checked.arguments(), arguments.as_slice())
        }
        _ => true,
    }
}

/// Whether this is the outcome of a run that failed with this fault.
fn is_fault(fault: Fault, outcome: &Outcome) -> bool
    ensures { Decides result (outcome.now ≡ meaning.fault_outcome fault) }
{
    match outcome {
        Outcome::Overflow => matches!(fault, Fault::Overflow),
        Outcome::DivideByZero => matches!(fault, Fault::DivideByZero),
        Outcome::ZeroPower => matches!(fault, Fault::ZeroPower),
        Outcome::BadSubscript => matches!(fault, Fault::BadSubscript),
        Outcome::ZeroStep => matches!(fault, Fault::ZeroStep),
        Outcome::Undefined => matches!(fault, Fault::Undefined),
        Outcome::Trapped => matches!(fault, Fault::Trapped),
        Outcome::Returned(_) | Outcome::Stopped(_) | Outcome::StepLimit => false,
    }
}

/// Whether this is the outcome for an end with these registers. `fit` says whether its values fit the dummy arguments:
/// those of an outcome of the program do. It takes no memory.
pub(crate) fn is_outcome_for(
    checked: &Checked,
    finish: Finish,
    registers: &[i64],
    outcome: &Outcome,
    fit: bool,
) -> bool
    requires fit { IfSome (outcome_values outcome.now)
        (λ arguments. Decides fit (AreFitting checked.now.arguments arguments)) }
    requires dummies { HoldDummies checked.now registers.now }
    ensures { Decides result (ReportsOf checked.now finish registers.now outcome.now) }
{
    match (finish, outcome) {
        (Finish::Returned, Outcome::Returned(arguments))
        | (Finish::Stopped, Outcome::Stopped(arguments)) => {
            have_dummies(checked, registers, arguments.as_slice(), fit)
        }
        (Finish::Failed(fault), outcome) => is_fault(fault, outcome),
        (Finish::StepLimit, Outcome::StepLimit) => true,
        (Finish::Returned | Finish::Stopped | Finish::StepLimit, _) => false,
    }
}

/// The outcome of a run that failed with this fault.
fn fault_outcome(fault: Fault) -> Outcome
    ensures { result ≡ meaning.fault_outcome fault }
{
    match fault {
        Fault::Overflow => Outcome::Overflow,
        Fault::DivideByZero => Outcome::DivideByZero,
        Fault::ZeroPower => Outcome::ZeroPower,
        Fault::BadSubscript => Outcome::BadSubscript,
        Fault::ZeroStep => Outcome::ZeroStep,
        Fault::Undefined => Outcome::Undefined,
        Fault::Trapped => Outcome::Trapped,
    }
}

/// The values of the dummy arguments, from the registers.
fn dummies(alloc: Global, checked: &Checked, registers: &[i64]) -> Result<Values<Arg>, AllocError>
    requires dummies { HoldDummies checked.now registers.now }
    ensures arguments { IfOk result (λ arguments. AreArguments (map line_of checked.now.program)
        (held checked.now (shown_by checked.now registers.now)) arguments) }
{
    let start = checked.start();
    let cells = shown(alloc, &start.kinds, registers)?;
    held_arguments(alloc, checked.arguments(), &start.dummies, &cells)
}

/// The outcome for an end with these registers. Only RETURNED and STOPPED take memory.
pub(crate) fn answer(
    alloc: Global,
    checked: &Checked,
    finish: Finish,
    registers: &[i64],
) -> Result<Outcome, AllocError>
    requires dummies { HoldDummies checked.now registers.now }
    ensures reports { IfOk result (λ outcome. ReportsOf checked.now finish registers.now outcome) }
{
    match finish {
        Finish::Returned => Ok(Outcome::Returned(dummies(alloc, checked, registers)?)),
        Finish::Stopped => Ok(Outcome::Stopped(dummies(alloc, checked, registers)?)),
        Finish::Failed(fault) => Ok(fault_outcome(fault)),
        Finish::StepLimit => Ok(Outcome::StepLimit),
    }
}

//! Comparing the outcomes of the model and of `run`.

use crate::model::outcome;
use crate::unit::Unit;
use f77_check::Checked;
use f77_meaning::{Arg, Outcome};
use f77_run::run;
use std::test::Fail;

/// `run` has this outcome within this limit on steps.
fn assert_run(
    rt: &impl AllocGlobal,
    name: &str,
    checked: &Checked,
    arguments: &[Arg],
    steps: u32,
    expected: &Outcome,
) -> Result<(), Fail> {
    let outcome = run(rt.alloc(), checked, arguments, steps)?;
    if outcome == *expected {
        return Ok(());
    }
    Err(Fail::new(format_args!(
        "{name}: within {steps} steps {outcome:?} in place of {expected:?}"
    )))
}

/// `run` has this outcome within the limit, and within the steps that the model makes, but not within one step less.
fn assert_runs(
    rt: &impl AllocGlobal,
    name: &str,
    checked: &Checked,
    arguments: &[Arg],
    steps: u32,
    expected: &Outcome,
    made: u32,
) -> Result<(), Fail> {
    assert_run(rt, name, checked, arguments, steps, expected)?;
    if *expected == Outcome::StepLimit {
        return Ok(());
    }
    assert_run(rt, name, checked, arguments, made, expected)?;
    let fewer = made.saturating_sub(1);
    assert_run(rt, name, checked, arguments, fewer, &Outcome::StepLimit)
}

/// The outcome of the model, which is that of `run` too.
pub(crate) fn agreed(
    rt: &impl AllocGlobal,
    name: &str,
    checked: &Checked,
    arguments: &[Arg],
    steps: u32,
) -> Result<Outcome, Fail> {
    let unit = Unit {
        alloc: rt.alloc(),
        lines: checked.program().lines(),
    };
    let (expected, made) = outcome(&unit, arguments, steps)?;
    assert_runs(rt, name, checked, arguments, steps, &expected, made)?;
    Ok(expected)
}

//! Runs and their outcomes, written as words.

use f77_meaning::{Arg, Outcome, Values};
use samples::{arguments, parts};
use std::test::Fail;

/// What a row asks for: a run with these arguments and this limit on steps.
#[derive(Drop)]
pub(crate) struct Run<'a> {
    pub(crate) row: &'a str,
    pub(crate) arguments: Vec<Arg>,
    pub(crate) steps: u32,
    pub(crate) answer: &'a str,
}

/// The texts before and behind a mark.
pub(crate) fn halves<'a>(text: &'a str, mark: &str) -> Result<(&'a str, &'a str), Fail> {
    match text.split_once(mark) {
        Some(halves) => Ok(halves),
        None => Err(Fail::new(text)),
    }
}

/// A row, written as `ARGUMENTS within STEPS => ANSWER`.
pub(crate) fn run_of<'a>(rt: &impl AllocGlobal, row: &'a str) -> Result<Run<'a>, Fail> {
    let (input, answer) = parts(row)?;
    let (words, steps) = halves(input, " within ")?;
    let steps = steps.parse()?;
    let arguments = arguments(rt, words)?;
    Ok(Run {
        row,
        arguments,
        steps,
        answer,
    })
}

/// An outcome without values, by its name.
fn named(name: &str) -> Result<Outcome, Fail> {
    match name {
        "Overflow" => Ok(Outcome::Overflow),
        "DivideByZero" => Ok(Outcome::DivideByZero),
        "ZeroPower" => Ok(Outcome::ZeroPower),
        "BadSubscript" => Ok(Outcome::BadSubscript),
        "ZeroStep" => Ok(Outcome::ZeroStep),
        "Undefined" => Ok(Outcome::Undefined),
        "StepLimit" => Ok(Outcome::StepLimit),
        _ => Err(Fail::new(name)),
    }
}

/// An outcome, written as `Returned 2 3`, `Stopped 2 3`, or as its name alone.
pub(crate) fn outcome_of(rt: &impl AllocGlobal, text: &str) -> Result<Outcome, Fail> {
    match text.split_once(' ') {
        Some(("Returned", words)) => Ok(Outcome::Returned(Values::new(arguments(rt, words)?))),
        Some(("Stopped", words)) => Ok(Outcome::Stopped(Values::new(arguments(rt, words)?))),
        _ => named(text),
    }
}

/// The outcome is that of the row.
pub(crate) fn assert_outcome(
    rt: &impl AllocGlobal,
    run: &Run<'_>,
    outcome: &Outcome,
) -> Result<(), Fail> {
    if outcome_of(rt, run.answer)? == *outcome {
        return Ok(());
    }
    let row = run.row;
    Err(Fail::new(format_args!("{row:?} comes to {outcome:?}")))
}

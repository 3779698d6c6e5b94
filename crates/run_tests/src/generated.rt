//! Programs made by chance: `run` has the outcome that the model has.

use crate::chance::Chance;
use crate::changes::with_change;
use crate::comparing::agreed;
use crate::generating::{arguments_text, cards};
use crate::tally::Tally;
use f77_check::{Checked, check};
use f77_meaning::Outcome;
use f77_source::{read_form, write_form};
use f77_syntax::{Program, parse};
use samples::arguments;
use std::alloc::Global;
use std::process::Abort;
use std::test::Fail;

/// The program of a seed, written and read again.
fn program(alloc: Global, seed: u64) -> Result<Program, Fail> {
    let lines = write_form(alloc, &cards(alloc, seed)?)?;
    let cards = read_form(alloc, lines.as_bytes())?;
    Ok(parse(alloc, &cards)?)
}

/// A limit on steps. Most runs end within it.
fn limit(chance: &mut Chance) -> u32 {
    let limit = match chance.below(10) {
        0 => chance.below(12),
        1 | 2 => chance.below(60),
        3 => 700,
        _ => 300,
    };
    u32::try_from(limit).unwrap_or(u32::MAX)
}

/// The outcome with these arguments, written as words, which model and `run` share.
fn compared(
    rt: &impl AllocGlobal,
    seed: u64,
    checked: &Checked,
    words: &str,
    steps: u32,
) -> Result<Outcome, Fail> {
    let values = arguments(rt, words)?;
    let name = format!(in rt.alloc(); "seed {seed} at {words}")?;
    agreed(rt, name.as_str(), checked, &values, steps)
}

fn compare_run(
    rt: &impl AllocGlobal,
    tally: &mut Tally,
    chance: &mut Chance,
    checked: &Checked,
) -> Result<(), Fail> {
    let words = arguments_text(rt.alloc(), chance, tally.seed)?;
    let outcome = compared(rt, tally.seed, checked, words.as_str(), limit(chance))?;
    tally.note_outcome(&outcome);
    Ok(())
}

fn compare_runs(
    rt: &impl AllocGlobal,
    tally: &mut Tally,
    chance: &mut Chance,
    checked: &Checked,
) -> Result<(), Fail> {
    tally.note_program(checked.program())?;
    for _ in 0..5 {
        compare_run(rt, tally, chance, checked)?;
    }
    Ok(())
}

/// Compares runs of the program of a seed, and of one with a change, where these are legal.
fn compare_seed(rt: &impl AllocGlobal, tally: &mut Tally) -> Result<(), Fail> {
    let mut chance = Chance::new(tally.seed);
    let program = program(rt.alloc(), tally.seed)?;
    let Ok(checked) = check(rt.alloc(), &program) else {
        return Ok(());
    };
    compare_runs(rt, tally, &mut chance, &checked)?;
    match with_change(rt.alloc(), &mut chance, &checked)? {
        Some(changed) => compare_runs(rt, tally, &mut chance, &changed),
        None => Ok(()),
    }
}

/// Compares the programs of 150 seeds.
fn compare_seeds(rt: &(impl AllocGlobal + Abort), first: u64) -> Result<(), Fail> {
    let mut tally = Tally::new(rt.alloc());
    for seed in first..first.saturating_add(150) {
        tally.seed = seed;
        compare_seed(rt, &mut tally)?;
    }
    tally.assert_least(rt, 150, 1);
    Ok(())
}

#[test]
fn first_programs_come_to_what_the_model_comes_to(rt: HostRuntime) -> Result<(), Fail> {
    compare_seeds(&rt, 0)
}

#[test]
fn other_programs_come_to_what_the_model_comes_to(rt: HostRuntime) -> Result<(), Fail> {
    compare_seeds(&rt, 150)
}

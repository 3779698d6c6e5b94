//! Runs of the program itself on the tests of a bench.

ghost use Rattle.std.specs.Prelude.{◌≡◌, ◌↔◌, All, IsTrue, None, IfOk, IfErr, IfSome, IfNone, map};
ghost use Rattle.f77_program.specs.Program.{line_of};
ghost use Rattle.f77_check.specs.Checked.{shapes};
ghost use Rattle.f77_meaning.specs.Interpreter.{IsEnd, IsOutcomeOf, refusal};
ghost use Rattle.f77_run.specs.Visits.{IsFollowed};
ghost use Rattle.mothra_ops.specs.Mutants.{program_of};
ghost use Rattle.mothra_verdicts.specs.{FitsProgram, EndsOn, IsFirstNot};
ghost use Rattle.mothra_verdicts.specs.code.{AreTraces, IsNoRun};

use crate::fault::BenchFault;
use crate::out_of_memory;
use f77_check::Shape;
use f77_meaning::{Arg, Outcome, RunFault, Values};
use f77_run::{Runner, Trace, Visits, fit};
use mothra_ops::Plan;
use std::alloc::{AllocError, Global};

/// How many numbers may be kept of the runs in all. Each takes 16 bytes at most, so all take 32 MiB at most.
const ROOM: usize = 2_097_152;

/// The shapes of the program's dummy arguments.
fn dummies(plan: &Plan) -> &[Shape]
    ensures { result.now ≡ shapes (program_of plan.now) }
{
    let checked = plan.program();
    // This call is for the proof: its contract says that the shapes are those of the program.
    let _ = checked.program();
    checked.arguments()
}

/// Whether the values fit the dummy arguments.
fn fits(plan: &Plan, test: &Values<Arg>) -> bool
    ensures { IsTrue result ↔ FitsProgram (program_of plan.now) test.now }
{
    match fit(dummies(plan), test.as_slice()) {
        Ok(()) => true,
        Err(RunFault::ArgumentCount | RunFault::ArgumentShape(_)) => false,
        Err(RunFault::Memory) => unreachable!(),
    }
}

/// The number, from 1, of the first test whose values do not fit the dummy arguments.
pub(crate) fn first_misfit(plan: &Plan, tests: &[Values<Arg>]) -> Option<usize>
    ensures fit { IfNone result (All (FitsProgram (program_of plan.now)) tests.now) }
    ensures misfit { IfSome result (λ test. IsFirstNot (FitsProgram (program_of plan.now)) tests.now test) }
{
    for (index, test) in tests.iter().enumerate() {
        if !fits(plan, test) {
            return Some(index + 1);
        }
    }
    None
}

/// Whether the program returned or stopped.
fn is_end(outcome: &Outcome) -> bool
    ensures { IsTrue result ↔ IsEnd outcome.now }
{
    match outcome {
        Outcome::Returned(_) | Outcome::Stopped(_) => true,
        Outcome::Overflow
        | Outcome::DivideByZero
        | Outcome::ZeroPower
        | Outcome::BadSubscript
        | Outcome::ZeroStep
        | Outcome::Undefined
        | Outcome::Trapped
        | Outcome::StepLimit => false,
    }
}

/// The run of the program on a test: its outcome and where control came. None where it neither returns nor stops.
fn trace_on(
    alloc: Global,
    original: &mut Runner<'_>,
    test: &Values<Arg>,
    steps: u32,
    room: &mut usize,
) -> Result<Option<Trace>, AllocError>
    requires { refusal original.old.arguments test.now ≡ None }
    ensures program { original.new ≡ original.old }
    ensures outcome { IfOk result (λ trace. IfSome trace
        (λ trace. IsOutcomeOf (map line_of original.old.program) test.now steps trace.outcome)) }
    ensures end { IfOk result (λ trace. IfSome trace (λ trace. IsEnd trace.outcome)) }
    ensures visits { IfOk result
        (λ trace. IfSome trace (λ trace. IsFollowed original.old test.now steps trace.visits)) }
    ensures fails { IfOk result
        (λ trace. IfNone trace (¬ (EndsOn (map line_of original.old.program) steps test.now))) }
{
    match original.trace(alloc, test.as_slice(), steps, room) {
        Ok(trace) => {
            if is_end(&trace.outcome) {
                Ok(Some(trace))
            } else {
                Ok(None)
            }
        }
        Err(fault) => Err(out_of_memory::of_run(fault)),
    }
}

/// The outcomes of the program on tests, and where control came, test by test.
#[derive(Drop)]
pub(crate) struct Traces {
    pub(crate) outcomes: Vec<Outcome>,
    /// For each test, where control came.
    pub(crate) visits: Vec<Visits>,
}

/// Runs the program once on each test. B4 at the first test on which it neither returns nor stops.
fn traces_in_turn(
    alloc: Global,
    original: &mut Runner<'_>,
    tests: &[Values<Arg>],
    steps: u32,
) -> Result<Traces, BenchFault>
    requires { All (λ arguments. refusal original.old.arguments arguments ≡ None) tests.now }
    ensures traces { IfOk result
        (λ traces. AreTraces original.old steps tests.now
        traces.outcomes.items traces.visits.items) }
    ensures refused { IfErr result (λ fault. IsNoRun (map line_of original.old.program) steps tests.now fault) }
{
    let mut outcomes = Vec::with_capacity(alloc, tests.len())?;
    let mut visits = Vec::with_capacity(alloc, tests.len())?;
    let mut room = ROOM;
    for (index, test) in tests.iter().enumerate() {
        let Some(trace) = trace_on(alloc, original, test, steps, &mut room)? else {
            return Err(BenchFault::OriginalFails(index + 1));
        };
        outcomes.push(trace.outcome)?;
        visits.push(trace.visits)?;
    }
    Ok(Traces { outcomes, visits })
}

/// Runs the program of the plan once on each test. B4 at the first test on which it neither returns nor stops.
pub(crate) fn traces_on(
    alloc: Global,
    plan: &Plan,
    tests: &[Values<Arg>],
    steps: u32,
) -> Result<Traces, BenchFault>
    requires { All (FitsProgram (program_of plan.now)) tests.now }
    ensures traces { IfOk result
        (λ traces. AreTraces plan.now.checked steps tests.now
        traces.outcomes.items traces.visits.items) }
    ensures refused { IfErr result (λ fault. IsNoRun (program_of plan.now) steps tests.now fault) }
{
    let checked = plan.program();
    // This call is for the proof: its contract says that the shapes are those of the program.
    let _ = checked.program();
    let mut original = Runner::of(alloc, checked)?;
    traces_in_turn(alloc, &mut original, tests, steps)
}

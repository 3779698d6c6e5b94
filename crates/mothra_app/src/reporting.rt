//! The command `run`: the report on the mutants of the program of a job.

ghost use Rattle.std.specs.Prelude.{◌≤◌, length, string_bytes};
ghost use Rattle.mothra_app.specs.{of_reports, GivesOutcome, IsBenched, IsReported};

use crate::fault::Fault;
use crate::program::plan_of;
use mothra_bench::{Bench, analyse};
use mothra_cli::Operators;
use mothra_job::Job;
use std::alloc::Global;
use std::sync::Wait;
use std::thread::Threads;

/// The bench of a job for these operators, with this limit on steps. Of each list every q-th item is kept, from the
/// first, where `every` is q.
fn bench_of(
    alloc: Global,
    job: Job,
    operators: &Operators,
    every: u32,
    steps: u32,
) -> Result<Bench, Fault>
    requires some { 1 ≤ every }
    requires few { length job.suite ≤ 256 }
    ensures { GivesOutcome (λ bench. bench) (IsBenched job operators.now every steps) of_reports result }
{
    let plan = plan_of(alloc, &job, operators, every)?;
    let (suite, equivalent) = job.into_lists();
    Ok(Bench::new(alloc, plan, suite, steps, equivalent)?)
}

/// The report on a job, as `bench_of` has it, made with so many threads. Of all commands this one alone may wait.
pub(crate) fn report_of(
    rt: &(impl AllocGlobal + Threads + Wait + Sync),
    job: Job,
    operators: &Operators,
    every: u32,
    steps: u32,
    workers: u32,
) -> Result<String, Fault>
    requires some { 1 ≤ every }
    requires few { length job.suite ≤ 256 }
    requires workers { (1 ≤ workers) × (workers ≤ 32) }
    ensures { GivesOutcome string_bytes (IsReported job operators.now every steps) of_reports result }
{
    let bench = bench_of(rt.alloc(), job, operators, every, steps)?;
    Ok(analyse(rt, rt.alloc(), &bench, workers)?)
}

//! The command `exec`: the outcome of the program of a job on one of its tests.

ghost use Rattle.std.specs.Prelude.{string_bytes};
ghost use Rattle.mothra_app.specs.{of_runs, GivesOutcome, IsExecuted};

use crate::fault::Fault;
use crate::outcome_line::outcome_line;
use crate::program::legal_program_of;
use f77_run::run;
use mothra_job::{Job, JobFault};
use std::alloc::Global;

/// The line of the outcome of the program of a job on the test with this number, from 1, within `steps` steps. J8,
/// where there is no such test, comes behind the faults of the program.
pub(crate) fn execute(alloc: Global, job: &Job, test: u32, steps: u32) -> Result<String, Fault>
    ensures { GivesOutcome string_bytes (IsExecuted job.now test steps) of_runs result }
{
    let checked = legal_program_of(alloc, job)?;
    let Some(arguments) = job.test(test) else {
        return Err(Fault::Job(JobFault::NoTest(test)));
    };
    let outcome = run(alloc, &checked, arguments, steps)?;
    Ok(outcome_line(alloc, &outcome)?)
}

//! The program of a job, and the plan of its mutants.

ghost use Rattle.std.specs.Prelude.{◌≡◌, ◌≤◌, IfOk, map};
ghost use Rattle.f77_program.specs.Program.{line_of};
ghost use Rattle.f77_check.specs.Checked.{shapes};
ghost use Rattle.mothra_app.specs.{of_programs, of_legal_programs, of_mutants};
ghost use Rattle.mothra_app.specs.{GivesOutcome, IsProgramOf, IsLegalProgramOf, IsPlanned};

use crate::fault::Fault;
use f77_check::{Checked, check};
use f77_source::read_form;
use f77_syntax::{Program, parse};
use mothra_cli::Operators;
use mothra_job::Job;
use mothra_ops::Plan;
use std::alloc::Global;

/// The program that the source of a job is, in fixed form.
pub(crate) fn program_of(alloc: Global, job: &Job) -> Result<Program, Fault>
    ensures { GivesOutcome (map line_of) (IsProgramOf job.now.source) of_programs result }
{
    let cards = read_form(alloc, job.source().as_bytes())?;
    Ok(parse(alloc, &cards)?)
}

/// The legal program that the source of a job is.
pub(crate) fn legal_program_of(alloc: Global, job: &Job) -> Result<Checked, Fault>
    ensures program { GivesOutcome (λ checked. map line_of checked.program)
        (IsLegalProgramOf job.now.source) of_legal_programs result }
    ensures shapes { IfOk result (λ checked. checked.arguments ≡ shapes (map line_of checked.program)) }
{
    let program = program_of(alloc, job)?;
    Ok(check(alloc, &program)?)
}

/// The plan of the mutants of a job's program, for these operators. Of each list every q-th item is kept, from the
/// first, where `every` is q.
pub fn plan_of(alloc: Global, job: &Job, operators: &Operators, every: u32) -> Result<Plan, Fault>
    requires { 1 ≤ every }
    ensures { GivesOutcome (λ plan. plan) (IsPlanned job.now.source operators.now every) of_mutants result }
{
    let checked = legal_program_of(alloc, job)?;
    Ok(Plan::new(alloc, checked, operators.as_slice(), every)?)
}

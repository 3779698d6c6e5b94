//! The command `print`: the program of a job in fixed form.

ghost use Rattle.std.specs.Prelude.{string_bytes};
ghost use Rattle.mothra_app.specs.{of_programs, GivesOutcome, IsPrinted};

use crate::fault::Fault;
use crate::program::program_of;
use f77_syntax::print;
use mothra_job::Job;
use std::alloc::Global;

/// The text of the program of a job.
pub(crate) fn print_program(alloc: Global, job: &Job) -> Result<String, Fault>
    ensures { GivesOutcome string_bytes (IsPrinted job.now) of_programs result }
{
    let program = program_of(alloc, job)?;
    Ok(print(alloc, &program)?)
}

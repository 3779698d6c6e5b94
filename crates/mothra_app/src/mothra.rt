//! The four commands of the program `mothra`.

ghost use Rattle.std.specs.Prelude.{string_bytes};
ghost use Rattle.mothra_app.specs.{command_faults, mothra_promise, GivesOutcome, IsCommandOutcome, IsTask};

use crate::executing::execute;
use crate::fault::Fault;
use crate::listing::list_mutants;
use crate::printing::print_program;
use crate::reporting::report_of;
use crate::service::Service;
use mothra_cli::{Request, WordsFault, request_of};
use mothra_job::Job;
use std::alloc::Global;
use std::convert::AsStr;
use std::sync::Wait;
use std::thread::Threads;

/// The program `mothra`. What it reports is `report`.
#[derive(Drop)]
pub struct Mothra {
    /// What gives memory.
    pub alloc: Global,
}

impl Service for Mothra {
    type Request = Request;

    ghost promise = { mothra_promise };

    fn alloc(&self) -> Global {
        self.alloc
    }

    fn request_of<S: AsStr>(&self, words: &[S]) -> Result<Request, WordsFault> {
        request_of(self.alloc, words)
    }
}

/// The text that a command makes of a job, or the first fault. The command `run` runs the mutants in threads.
pub fn report(
    rt: &(impl AllocGlobal + Threads + Wait + Sync),
    request: &Request,
    job: Job,
) -> Result<String, Fault>
    requires { IsTask mothra_promise request.now job }
    ensures { GivesOutcome string_bytes (IsCommandOutcome request.now job) (command_faults request.now) result }
{
    let alloc = rt.alloc();
    match request {
        Request::Print => print_program(alloc, &job),
        Request::Exec { test, steps } => execute(alloc, &job, *test, *steps),
        Request::List { operators, every } => list_mutants(alloc, &job, operators, *every),
        Request::Run {
            operators,
            every,
            steps,
            workers,
        } => report_of(rt, job, operators, *every, *steps, *workers),
    }
}

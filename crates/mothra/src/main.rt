//! The program `mothra`: reads a job from standard input, and writes the answer to standard output alone.
#![tactic(auto)]

ghost use Rattle.mothra_app.specs.Answer.{IsTask};
ghost use Rattle.mothra_app.specs.Commands.{mothra_promise};

use mothra_app::{Mothra, report, run};
use std::process::ExitCode;

fn main(rt: HostRuntime) -> ExitCode {
    run(
        &rt,
        &Mothra { alloc: rt.alloc() },
        &|request, job|
            requires { IsTask mothra_promise request.now job }
        { report(&rt, request, job) },
        rt.stdin(),
        rt.stdout(),
    )
}

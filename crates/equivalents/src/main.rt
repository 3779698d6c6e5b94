//! The program `equivalents`: reads a job from standard input,
//! and names on standard output mutants that no test can kill.
#![tactic(auto)]

use equivalents_app::{Equivalents, report, run};
use std::process::ExitCode;

fn main(rt: HostRuntime) -> ExitCode {
    let alloc = rt.alloc();
    run(
        &rt,
        &Equivalents { alloc },
        &|inquiry, job| report(alloc, inquiry, job),
        rt.stdin(),
        rt.stdout(),
    )
}

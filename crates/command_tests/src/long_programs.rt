//! A program of 500 statements.

use crate::answers::answer;
use std::alloc::Global;
use std::sync::Wait;
use std::test::Fail;
use std::thread::Threads;

/// The job of a subroutine and a test. The subroutine has 500 statements, each with a label; all but the first and the
/// last are jumps to the next one.
fn jumps(alloc: Global) -> Result<String, Fail> {
    let mut job = String::from_str(alloc, "{\"source\":\"    1 SUBROUTINE JUMPS(K)\\n")?;
    for label in 2..500u32 {
        let next = label + 1;
        write!(job, "{label:>5} GO TO {next}\\n")?;
    }
    job.push_str("  500 END\\n\",\"suite\":[[1]]}")?;
    Ok(job)
}

/// The answer to words for that job.
fn answer_to_jumps(
    rt: &(impl AllocGlobal + Threads + Wait + Sync),
    words: &str,
) -> Result<Vec<u8>, Fail> {
    let job = jumps(rt.alloc())?;
    let (_, text) = answer(rt, words, job.as_bytes())?;
    Ok(text)
}

// Each of the 498 jumps may lead to 498 other labels.
#[test]
fn lists_a_program_of_jumps(rt: HostRuntime) -> Result<(), Fail> {
    let text = answer_to_jumps(&rt, "mothra list --ops GLR --every 1000")?;
    assert!(rt; text.as_slice().ends_with(b"\nTOTAL 249\n"));
    Ok(())
}

// A mutant that jumps back comes to the limit on steps.
#[test]
fn runs_a_program_of_jumps(rt: HostRuntime) -> Result<(), Fail> {
    let text = answer_to_jumps(&rt, "mothra run --ops GLR --every 1000")?;
    assert!(rt; text.as_slice().starts_with(REPORT));
    assert!(rt; text.as_slice().ends_with(b"\nEND\n"));
    Ok(())
}

const REPORT: &[u8] = b"\
REPORT 2
UNIT JUMPS
TESTS 1
STEPS 10000
EVERY 1000
GLR 249 125 0
";

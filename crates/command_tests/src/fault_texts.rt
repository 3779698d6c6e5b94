//! The texts of faults, as `Display` gives them.

use mothra_app::{AppFault, JobFault, Key};
use std::fmt::Display;
use std::process::Abort;
use std::test::Fail;

/// Compares the text of a fault.
fn assert_text(
    rt: &(impl AllocGlobal + Abort),
    fault: &impl Display,
    expected: &str,
) -> Result<(), Fail> {
    let text = format!(in rt.alloc(); "{fault}")?;
    assert_eq!(rt; text.as_str(), expected);
    Ok(())
}

#[test]
fn faults_of_jobs_have_texts(rt: HostRuntime) -> Result<(), Fail> {
    let key = Key::new(String::from_str(rt.alloc(), "source")?);
    assert_text(
        &rt,
        &JobFault::Key(key),
        "a key of the job is absent, unknown or of the wrong kind",
    )?;
    assert_text(&rt, &JobFault::Memory, "memory ran out")?;
    assert_text(&rt, &JobFault::NotJson, "the job is no JSON object")?;
    assert_text(
        &rt,
        &JobFault::TooLarge,
        "the job has more than 1048576 bytes",
    )
}

#[test]
fn faults_of_suites_have_texts(rt: HostRuntime) -> Result<(), Fail> {
    assert_text(
        &rt,
        &JobFault::Suite(1),
        "number 1 of the tests is no list of values of dummy arguments",
    )?;
    assert_text(
        &rt,
        &JobFault::Equivalent(2),
        "entry 2 of the declared equivalents is no name of a mutant",
    )?;
    assert_text(
        &rt,
        &JobFault::TooManyTests,
        "the suite has more than 256 tests",
    )?;
    assert_text(
        &rt,
        &JobFault::NoTest(2),
        "the suite has fewer than 2 tests",
    )
}

#[test]
fn faults_of_the_program_have_texts(rt: HostRuntime) -> Result<(), Fail> {
    assert_text(&rt, &AppFault::Memory, "memory ran out")?;
    assert_text(&rt, &AppFault::Read, "a read failed")?;
    assert_text(&rt, &AppFault::Write, "a write failed")
}

//! The answer to a row: the exit status, and what the program writes.

ghost use Rattle.mothra_app.specs.Answer.{IsTask};
ghost use Rattle.mothra_app.specs.Commands.{mothra_promise};

use anyhow::Result;
use equivalents_app::Equivalents;
use mothra_app::{AppFault, Mothra, Status, Watched, serve};
use std::alloc::AllocError;
use std::fmt::Write;
use std::str::from_utf8;
use std::sync::Wait;
use std::thread::Threads;

/// The exit status of a program that gives such an answer, as a digit.
fn exit_status(status: Status) -> char {
    match status {
        Status::Report | Status::Help => '0',
        Status::Fault => '1',
        Status::Words => '2',
    }
}

/// Calls the program that the first word names, with the job as its standard input. What it writes is put into
/// `written`.
fn call(
    rt: &(impl AllocGlobal + Threads + Wait + Sync),
    words: &str,
    job: &str,
    written: &mut Vec<u8>,
) -> Result<Status, AppFault> {
    let alloc = rt.alloc();
    let words: Vec<&str> = words.split_whitespace().collect(alloc)?;
    let mut reader = Watched::new(job.as_bytes());
    let mut writer = Watched::new(written);
    match words.first() {
        Some(&"equivalents") => serve(
            &Equivalents { alloc },
            &|inquiry, job| equivalents_app::report(alloc, inquiry, job),
            &words,
            &mut reader,
            &mut writer,
        ),
        _ => serve(
            &Mothra { alloc },
            &|request, job|
                requires { IsTask mothra_promise request.now job }
            { mothra_app::report(rt, request, job) },
            &words,
            &mut reader,
            &mut writer,
        ),
    }
}

/// Adds a text to the answers. Its first line stands behind the exit status, each other line behind blanks.
fn push_text(answers: &mut String, status: char, text: &str) -> Result<(), AllocError> {
    write!(answers, "{status}:")?;
    if text.is_empty() {
        answers.push('\n')?;
    }
    for (place, line) in text.lines().enumerate() {
        let front = if place == 0 { " " } else { "   " };
        writeln!(answers, "{front}{line}")?;
    }
    Ok(())
}

/// Adds the answer to these words and this job.
pub(crate) fn push_answer(
    rt: &(impl AllocGlobal + Threads + Wait + Sync),
    words: &str,
    job: &str,
    answers: &mut String,
) -> Result<()> {
    let mut written = Vec::new(rt.alloc());
    let status = call(rt, words, job, &mut written)?;
    push_text(answers, exit_status(status), from_utf8(&written)?)?;
    Ok(())
}

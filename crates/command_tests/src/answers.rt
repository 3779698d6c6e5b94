//! Answers of `mothra` and `equivalents` to words and a job.

ghost use Rattle.std.specs.Prelude.{◌≡◌, false};
ghost use Rattle.mothra_app.specs.Answer.{IsTask};
ghost use Rattle.mothra_app.specs.Commands.{mothra_promise};
ghost use Rattle.mothra_cli.specs.Watched.{has_failed};

use equivalents_app::Equivalents;
use mothra_app::{AppFault, Mothra, Status, Watched, serve};
use std::io::{Read, Write};
use std::process::Abort;
use std::str::from_utf8;
use std::sync::Wait;
use std::test::Fail;
use std::thread::Threads;

/// What `mothra` serves.
pub(crate) fn serve_mothra<R: Read, W: Write>(
    rt: &(impl AllocGlobal + Threads + Wait + Sync),
    words: &[&str],
    reader: &mut Watched<R>,
    writer: &mut Watched<W>,
) -> Result<Status, AppFault>
    requires reader_works { has_failed reader.old ≡ false }
    requires writer_works { has_failed writer.old ≡ false }
{
    serve(
        &Mothra { alloc: rt.alloc() },
        &|request, job|
            requires { IsTask mothra_promise request.now job }
        { mothra_app::report(rt, request, job) },
        words,
        reader,
        writer,
    )
}

/// What `equivalents` serves.
pub(crate) fn serve_equivalents<R: Read, W: Write>(
    rt: &impl AllocGlobal,
    words: &[&str],
    reader: &mut Watched<R>,
    writer: &mut Watched<W>,
) -> Result<Status, AppFault>
    requires reader_works { has_failed reader.old ≡ false }
    requires writer_works { has_failed writer.old ≡ false }
{
    let alloc = rt.alloc();
    serve(
        &Equivalents { alloc },
        &|inquiry, job| equivalents_app::report(alloc, inquiry, job),
        words,
        reader,
        writer,
    )
}

/// The answer to words, separated by blanks, and the bytes of a job.
pub(crate) fn answer(
    rt: &(impl AllocGlobal + Threads + Wait + Sync),
    words: &str,
    job: &[u8],
) -> Result<(Status, Vec<u8>), Fail> {
    let words: Vec<&str> = words.split_whitespace().collect(rt.alloc())?;
    let mut out = Vec::new(rt.alloc());
    let mut reader = Watched::new(job);
    let mut writer = Watched::new(&mut out);
    let status = serve_mothra(rt, &words, &mut reader, &mut writer)?;
    Ok((status, out))
}

/// Compares a text with the line that is expected. Where they differ, the test fails and names the
/// case.
fn assert_line(rt: &impl Abort, bytes: &[u8], expected: &str, case: &str) {
    let Ok(text) = from_utf8(bytes) else {
        panic!(rt; "{case}: the answer is no text")
    };
    assert_eq!(rt; text.strip_suffix('\n'), Some(expected), "{case}");
}

/// The status of an answer: that of a fault where the line begins with FAULT, else that of a report.
fn status_of(expected: &str) -> Status {
    if expected.starts_with("FAULT") {
        Status::Fault
    } else {
        Status::Report
    }
}

/// Compares the answer to words and a job with the line that is expected.
pub(crate) fn assert_answer(
    rt: &(impl AllocGlobal + Abort + Threads + Wait + Sync),
    words: &str,
    job: &[u8],
    expected: &str,
    case: &str,
) -> Result<(), Fail> {
    let (status, bytes) = answer(rt, words, job)?;
    assert_line(rt, &bytes, expected, case);
    assert!(rt; status == status_of(expected), "{case}");
    Ok(())
}

//! Words that rows can not have: words with blanks, and no words at all. For words that are refused, help and the
//! version nothing is read.

use crate::answers::{serve_equivalents, serve_mothra};
use crate::streams::Stumbling;
use mothra_app::{Status, Watched};
use std::process::Abort;
use std::sync::Wait;
use std::test::Fail;
use std::thread::Threads;

/// What is written for the words, with a reader whose first read fails.
fn unread(
    rt: &(impl AllocGlobal + Abort + Threads + Wait + Sync),
    words: &[&str],
) -> Result<(Status, Vec<u8>), Fail> {
    let mut out: Vec<u8> = Vec::new(rt.alloc());
    let mut reader = Watched::new(Stumbling::new(b"", 0));
    let mut writer = Watched::new(&mut out);
    let status = if words.first() == Some(&"equivalents") {
        serve_equivalents(rt, words, &mut reader, &mut writer)?
    } else {
        serve_mothra(rt, words, &mut reader, &mut writer)?
    };
    assert!(rt; !reader.failed() && !writer.failed());
    Ok((status, out))
}

/// The answer to the words begins so, and nothing is read for them.
fn assert_unread(
    rt: &(impl AllocGlobal + Abort + Threads + Wait + Sync),
    words: &[&str],
    expected: Status,
    front: &str,
) -> Result<(), Fail> {
    let (status, text) = unread(rt, words)?;
    assert!(rt; status == expected, "{front}");
    assert!(rt; text.as_slice().starts_with(front.as_bytes()), "{front}");
    Ok(())
}

#[test]
fn nothing_is_read_for_words_help_and_version(rt: HostRuntime) -> Result<(), Fail> {
    assert_unread(
        &rt,
        &[],
        Status::Words,
        "error: 'mothra' requires a subcommand",
    )?;
    assert_unread(&rt, &["mothra", "list", "1"], Status::Words, "error: ")?;
    assert_unread(&rt, &["mothra", "run", "--help"], Status::Help, "Prints ")?;
    assert_unread(&rt, &["mothra", "-V"], Status::Help, "mothra ")?;
    assert_unread(&rt, &["equivalents", "list"], Status::Words, "error: ")?;
    assert_unread(&rt, &["equivalents", "--help"], Status::Help, "Names ")?;
    let words = ["equivalents", "--version"];
    assert_unread(&rt, &words, Status::Help, "equivalents ")
}

#[test]
fn operators_have_no_blank_between(rt: HostRuntime) -> Result<(), Fail> {
    for operators in ["", " AOR", "AOR, UOI"] {
        let words = ["mothra", "list", "--ops", operators];
        assert_unread(&rt, &words, Status::Words, "BAD OPERATOR LIST\n")?;
    }
    Ok(())
}

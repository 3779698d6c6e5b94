//! Readers and writers that fail at one call and then go on: the answer is the fault of that call, whichever it is.

use crate::answers::{serve_equivalents, serve_mothra};
use crate::streams::{Faltering, Stumbling};
use mothra_app::{AppFault, Status, Watched};
use std::process::Abort;
use std::sync::Wait;
use std::thread::Threads;

/// A call of a program: its words, its job, and the text that it writes where nothing fails.
#[derive(Clone, Copy)]
struct Call {
    words: &'static [&'static str],
    job: &'static str,
    text: &'static str,
}

const CALLS: [Call; 2] = [
    Call {
        words: &["mothra", "print"],
        job: r#"{"source":"      subroutine s ( k )\n      end\n"}"#,
        text: "      SUBROUTINE S(K)\n      END\n",
    },
    Call {
        words: &["equivalents", "--ops", "AAR"],
        job: r#"{"source":"      SUBROUTINE S(K)\n      END\n"}"#,
        text: "PROVED 0 OF 0\n",
    },
];

/// The result of a call, and whether a read or a write has failed.
#[derive(Drop)]
struct Ended {
    result: Result<Status, AppFault>,
    read_failed: bool,
    write_failed: bool,
}

/// Makes the call over a reader and a writer.
fn end_of(
    rt: &(impl AllocGlobal + Threads + Wait + Sync),
    call: Call,
    reader: Stumbling<'_>,
    writer: Faltering<'_>,
) -> Ended {
    let mut reader = Watched::new(reader);
    let mut writer = Watched::new(writer);
    let result = if call.words.len() == 2 {
        serve_mothra(rt, call.words, &mut reader, &mut writer)
    } else {
        serve_equivalents(rt, call.words, &mut reader, &mut writer)
    };
    Ended {
        result,
        read_failed: reader.failed(),
        write_failed: writer.failed(),
    }
}

/// The read after `good` reads fails: it is not tried again, and nothing is written.
fn assert_failed_read(
    rt: &(impl AllocGlobal + Abort + Threads + Wait + Sync),
    call: Call,
    good: usize,
) {
    let mut taken = Vec::new(rt.alloc());
    let reader = Stumbling::new(call.job.as_bytes(), good);
    let writer = Faltering::new(&mut taken, usize::MAX, true);
    let ended = end_of(rt, call, reader, writer);
    assert!(rt; ended.result == Err(AppFault::Read), "{good}");
    assert!(rt; ended.read_failed && !ended.write_failed, "{good}");
    assert!(rt; taken.is_empty(), "{good}");
}

#[test]
fn a_read_that_fails_is_reported(rt: HostRuntime) {
    for call in CALLS {
        for good in 0..=call.job.len() {
            assert_failed_read(&rt, call, good);
        }
    }
}

/// The write after `good` writes fails or takes no byte: it is not tried again.
fn assert_failed_write(
    rt: &(impl AllocGlobal + Abort + Threads + Wait + Sync),
    call: Call,
    good: usize,
    fails: bool,
) {
    let mut taken = Vec::new(rt.alloc());
    let reader = Stumbling::new(call.job.as_bytes(), usize::MAX);
    let writer = Faltering::new(&mut taken, good, fails);
    let ended = end_of(rt, call, reader, writer);
    assert!(rt; ended.result == Err(AppFault::Write), "{good}");
    assert!(rt; ended.write_failed && !ended.read_failed, "{good}");
    assert!(rt;
        call.text.as_bytes().get(..good) == Some(taken.as_slice()),
        "{good}"
    );
}

#[test]
fn a_write_that_fails_is_reported(rt: HostRuntime) {
    for call in CALLS {
        for good in 0..call.text.len() {
            assert_failed_write(&rt, call, good, true);
            assert_failed_write(&rt, call, good, false);
        }
    }
}

/// Where no call fails, the whole text is written.
fn assert_written(rt: &(impl AllocGlobal + Abort + Threads + Wait + Sync), call: Call) {
    let mut taken = Vec::new(rt.alloc());
    let reader = Stumbling::new(call.job.as_bytes(), usize::MAX);
    let writer = Faltering::new(&mut taken, call.text.len(), true);
    let ended = end_of(rt, call, reader, writer);
    assert!(rt; ended.result == Ok(Status::Report));
    assert!(rt; !ended.read_failed && !ended.write_failed);
    assert!(rt; taken.as_slice() == call.text.as_bytes());
}

#[test]
fn bytes_may_come_and_go_one_by_one(rt: HostRuntime) {
    for call in CALLS {
        assert_written(&rt, call);
    }
}

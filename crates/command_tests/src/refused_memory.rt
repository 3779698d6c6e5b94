//! Each allocation is refused in turn. The answer is then A1, the line of a fault for lack of
//! memory, for `run` also that of a thread that can not begin, or the answer that comes when
//! nothing is refused.

use crate::answers::serve_mothra;
use mothra_app::{AppFault, Status, Watched};
use std::process::Abort;
use std::sync::Wait;
use std::thread::Threads;

/// Room for a text; each text here is shorter.
const ROOM: usize = 1024;

/// The line is that of lack of memory, with one of these letters, or of a thread that can not
/// begin.
fn assert_fault(rt: &impl Abort, line: &[u8; ROOM], letters: &[u8]) {
    assert!(rt; line.starts_with(b"FAULT ") && line[8..].starts_with(b"\n\0"));
    assert!(rt; letters.contains(&line[6]));
    assert!(rt; line[7] == b'1' || line[6] == b'B' && line[7] == b'2');
}

/// The text is the whole report, and nothing follows the end of its last line.
fn assert_report(rt: &impl Abort, text: &[u8; ROOM], report: &str) {
    assert!(rt; text.starts_with(report.as_bytes()));
    let end = text.get(report.len()..);
    assert!(rt; end.is_some_and(|end| end.starts_with(b"\n\0")));
}

/// Serves a job; a fault for lack of memory has one of these letters.
fn assert_undisturbed(
    rt: &(impl AllocGlobal + Abort + Threads + Wait + Sync),
    words: &[&str],
    job: &str,
    report: &str,
    letters: &[u8],
) {
    let mut out = [0u8; ROOM];
    let mut reader = Watched::new(job.as_bytes());
    let mut writer = Watched::new(out.as_mut_slice());
    match serve_mothra(rt, words, &mut reader, &mut writer) {
        Ok(Status::Report) => assert_report(rt, &out, report),
        Ok(Status::Fault) => assert_fault(rt, &out, letters),
        served => {
            assert!(rt; served == Err(AppFault::Memory));
            assert!(rt; out[0] == 0);
        }
    }
}

#[test]
fn refused_memory_changes_no_program(rt: HostRuntime) {
    assert_undisturbed(&rt, &["mothra", "print"], NEGATED, PRINTED, b"JFS");
}

#[test]
fn refused_memory_changes_no_outcome(rt: HostRuntime) {
    let words = ["mothra", "exec", "--test", "1"];
    assert_undisturbed(&rt, &words, NEGATED, "RETURNED (-3,4) T", b"JFSCN");
    assert_undisturbed(&rt, &words, LOOP, "RETURNED 3 7", b"JFSCN");
}

#[test]
fn refused_memory_changes_no_list(rt: HostRuntime) {
    let words = ["mothra", "list", "--ops", "RSR,GLR,DER"];
    assert_undisturbed(&rt, &words, LOOP, LISTED, b"JFSCO");
}

#[test]
fn refused_memory_changes_no_run(rt: HostRuntime) {
    let words = ["mothra", "run", "--ops", "AOR"];
    assert_undisturbed(&rt, &words, SUM, REPORT, b"JFSCOB");
}

/// A job with an array and a truth value.
const NEGATED: &str =
    r#"{"source":"      SUBROUTINE S(M,P)\n      INTEGER M(2)\n      LOGICAL P\n      DO 10 I=1,2\n   10 M(I)=-M(I)\n      END\n","suite":[[[3,-4],true]]}"#;

const PRINTED: &str = "      SUBROUTINE S(M,P)
      INTEGER M(2)
      LOGICAL P
      DO 10 I=1,2
   10 M(I)=-M(I)
      END";

/// A job with a loop, two labels behind it, and a test.
const LOOP: &str =
    r#"{"source":"      SUBROUTINE LOOP(N,K)\n      K=0\n      IF (N.LT.0) GO TO 20\n      DO 10 I=1,N\n   10 K=K+I\n   20 K=K+1\n   30 RETURN\n      END\n","suite":[[3,0]]}"#;

const LISTED: &str = "\
DER 0
GLR 1
GLR 1 1 LINE 3 IF (N.LT.0) GO TO 30
RSR 4
RSR 1 1 LINE 2 RETURN
RSR 2 2 LINE 3 RETURN
RSR 3 3 LINE 3 IF (N.LT.0) RETURN
RSR 4 4 LINE 6 RETURN
TOTAL 5";

/// The job of a sum and a test.
const SUM: &str =
    r#"{"source":"      SUBROUTINE ADD(I,J,K)\n      K=I+J\n      END\n","suite":[[2,2,0]]}"#;

const REPORT: &str = "\
REPORT 2
UNIT ADD
TESTS 1
STEPS 10000
EVERY 1
AOR 6 4 0
TOTAL 6 4 0
SCORE 66.66
MUTANT AOR 1 1 K 1
MUTANT AOR 2 2 S 0
MUTANT AOR 3 3 K 1
MUTANT AOR 4 4 S 0
MUTANT AOR 5 5 K 1
MUTANT AOR 6 6 K 1
SURVIVOR AOR 2 2 LINE 2 K=I*J
SURVIVOR AOR 4 4 LINE 2 K=I**J
END";

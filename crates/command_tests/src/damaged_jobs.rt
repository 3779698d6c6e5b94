//! A job in which one byte is replaced by one that no JSON text may have there.

use crate::answers::assert_answer;
use std::process::Abort;
use std::sync::Wait;
use std::test::Fail;
use std::thread::Threads;

/// The end of a text in C, the end of a line, and bytes that are no character.
const BYTES: &[u8] = b"\0\n\x80\xff";

const JOB: &[u8] =
    br#"{"source":"      SUBROUTINE ADD(I,J,K)\n      K=I+J\n      END\n","suite":[[2,3,0]]}"#;

/// With the byte at this place replaced by any of these, the bytes are no job.
fn assert_none(
    rt: &(impl AllocGlobal + Abort + Threads + Wait + Sync),
    place: usize,
) -> Result<(), Fail> {
    for byte in BYTES {
        let mut job = JOB.to_vec(rt.alloc())?;
        if let Some(old) = job.get_mut(place) {
            *old = *byte;
        }
        assert_answer(
            rt,
            "mothra exec --test 1",
            &job,
            "FAULT J2",
            "a byte is replaced",
        )?;
    }
    Ok(())
}

#[test]
fn a_job_with_such_a_byte_is_none(rt: HostRuntime) -> Result<(), Fail> {
    for place in 0..JOB.len() {
        assert_none(&rt, place)?;
    }
    Ok(())
}

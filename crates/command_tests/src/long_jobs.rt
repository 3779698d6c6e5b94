//! Jobs that are as long as they may be, that nest, or that have many items.

use crate::answers::assert_answer;
use std::alloc::Global;
use std::process::Abort;
use std::sync::Wait;
use std::test::Fail;
use std::thread::Threads;

/// The parts of a text before and after a mark.
fn halves<'a>(text: &'a str, mark: &str) -> Result<(&'a str, &'a str), Fail> {
    match text.split_once(mark) {
        Some(halves) => Ok(halves),
        None => Err(text.into()),
    }
}

/// Adds what `TIMES*PART` stands for: the part, repeated.
fn push_repeated(whole: &mut String, repeated: &str) -> Result<(), Fail> {
    let (times, part) = halves(repeated, "*")?;
    let Ok(times) = times.parse::<u32>() else {
        return Err(times.into());
    };
    for _ in 0..times {
        whole.push_str(part)?;
    }
    Ok(())
}

/// The text, with each `@TIMES*PART@` replaced by the part as many times.
fn expanded(alloc: Global, text: &str) -> Result<String, Fail> {
    let mut whole = String::new(alloc);
    let mut is_repeated = false;
    for piece in text.split('@') {
        if is_repeated {
            push_repeated(&mut whole, piece)?;
        } else {
            whole.push_str(piece)?;
        }
        is_repeated = !is_repeated;
    }
    Ok(whole)
}

/// A row `WORDS | JOB => ANSWER`.
fn assert_row(
    rt: &(impl AllocGlobal + Abort + Threads + Wait + Sync),
    row: &str,
) -> Result<(), Fail> {
    let (words, behind) = halves(row, " | ")?;
    let (job, expected) = halves(behind, " => ")?;
    let job = expanded(rt.alloc(), job)?;
    let expected = expanded(rt.alloc(), expected)?;
    assert_answer(rt, words, job.as_bytes(), &expected, row)
}

/// The rows of a table.
fn assert_rows(
    rt: &(impl AllocGlobal + Abort + Threads + Wait + Sync),
    rows: &str,
) -> Result<(), Fail> {
    for row in rows.trim_matches('\n').lines() {
        assert_row(rt, row)?;
    }
    Ok(())
}

#[test]
fn texts_nest_and_have_a_million_bytes(rt: HostRuntime) -> Result<(), Fail> {
    assert_rows(&rt, TEXTS)
}

// Values of a job may nest 127 deep: the object and 126 lists.
const TEXTS: &str = r#"
mothra print | @200*[@ => FAULT J2
mothra print | @100000*[@ => FAULT J2
mothra print | @100000*{"a":@ => FAULT J2
mothra print | {"source":"","suite":@100000*[@ => FAULT J2
mothra print | {"source":"","x":@126*[@@126*]@} => FAULT J3 x
mothra print | {"source":"","x":@127*[@@127*]@} => FAULT J2
mothra print | {"source":"@1000000*k@"} => FAULT F2
mothra print | {"source":"","@1000000*k@":1} => FAULT J3 @1000000*k@
mothra print | {"source":"","suite":"@1000000*k@"} => FAULT J3 suite
mothra print | {"source":"","equivalent":["@1000000*k@"]} => FAULT J5 1
"#;

#[test]
fn lists_have_many_items(rt: HostRuntime) -> Result<(), Fail> {
    assert_rows(&rt, LISTS)
}

// A suite has at most 256 tests. A job with no other fault has the fault S7 here: its source has no line of a program.
const LISTS: &str = r#"
mothra print | {@10000*"source":1,@"source":""} => FAULT S7
mothra print | {"source":"","suite":[@10000*[],@[]]} => FAULT J6
mothra print | {"source":"","suite":[[@10000*1,@1]]} => FAULT S7
mothra print | {"source":"","equivalent":[@10000*"ABS 1",@"ABS"]} => FAULT J5 10001
mothra exec --test 256 | {"source":"      SUBROUTINE S(K)\n      END\n","suite":[[1]@255*,[4]@]} => RETURNED 4
mothra exec --test 256 | {"source":"      SUBROUTINE S(K)\n      END\n","suite":[[1]@255*,[4]@,0]} => FAULT J6
mothra print | {"source":"","suite":[[1]@255*,[4]@,0],"equivalent":[1]} => FAULT J6
"#;

#[test]
fn numbers_have_400_digits(rt: HostRuntime) -> Result<(), Fail> {
    assert_rows(&rt, NUMBERS)
}

// A number larger than a float can hold is refused by the reader of JSON: J2. A number with a point or an exponent that
// a float can hold is no whole number: J4.
const NUMBERS: &str = r#"
mothra print | {"source":"","suite":[[@400*7@]]} => FAULT J2
mothra print | {"source":"","suite":[[-@400*7@]]} => FAULT J2
mothra print | {"source":"","suite":[[0@400*7@]]} => FAULT J2
mothra print | {"source":"","suite":[[0.@400*7@]]} => FAULT J4 1
mothra print | {"source":"","suite":[[-0.@400*7@]]} => FAULT J4 1
mothra print | {"source":"","suite":[[1e@400*7@]]} => FAULT J2
mothra print | {"source":"","suite":[[1e-@400*7@]]} => FAULT J4 1
mothra print | {"source":"","suite":[[0e@400*7@]]} => FAULT J4 1
mothra print | {"source":"","suite":[[@400*7@e-@400*7@]]} => FAULT J4 1
mothra print | {"source":"","x":@400*7@} => FAULT J2
mothra print | {"source":"","x":1e-@400*7@} => FAULT J3 x
mothra print | {"source":"","equivalent":["ABS @400*7@"]} => FAULT J5 1
"#;

#[test]
fn jobs_and_sources_have_limits(rt: HostRuntime) -> Result<(), Fail> {
    assert_rows(&rt, LIMITS)
}

// A job has at most 1048576 bytes: here 61 and blanks. A source has at most 65536 bytes: here one line, which is a
// comment, blank, or a label that is too long; as many empty cards as there can be; and a program of 32 bytes with a
// comment after it. The last byte of each source is a line's end.
const LIMITS: &str = r#"
mothra exec --test 1 | {"source":"      SUBROUTINE S(K)\n      END\n","suite":[[4]]}@1048515* @ => RETURNED 4
mothra exec --test 1 | {"source":"      SUBROUTINE S(K)\n      END\n","suite":[[4]]}@1048516* @ => FAULT J7
mothra print | {"source":"@65535*C@\n"} => FAULT S7
mothra print | {"source":"@65536*C@\n"} => FAULT F2
mothra print | {"source":"@65535* @\n"} => FAULT S7
mothra print | {"source":"@65535*9@\n"} => FAULT F5 1
mothra print | {"source":"@9362*    1 \n@\n"} => FAULT S2 1
mothra exec --test 1 | {"source":"      SUBROUTINE S(K)\n      END\n@65503*C@\n","suite":[[4]]} => RETURNED 4
mothra exec --test 1 | {"source":"      SUBROUTINE S(K)\n      END\n@65504*C@\n","suite":[[4]]} => FAULT F2
"#;

/// A job with ten thousand unknown keys, from k9000 to k18999.
fn with_keys(alloc: Global) -> Result<String, Fail> {
    let mut job = String::from_str(alloc, "{\"source\":\"\"")?;
    for number in 9_000..19_000u32 {
        write!(job, ",\"k{number}\":1")?;
    }
    job.push_str("}")?;
    Ok(job)
}

// The first key in the order of bytes is reported, which is not the first one in the job.
#[test]
fn reports_the_first_of_ten_thousand_keys(rt: HostRuntime) -> Result<(), Fail> {
    let job = with_keys(rt.alloc())?;
    assert_answer(
        &rt,
        "mothra print",
        job.as_bytes(),
        "FAULT J3 k10000",
        "10000 keys",
    )
}

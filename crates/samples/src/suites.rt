//! Suites of tests, written as words.

use crate::words::arguments;
use f77_meaning::{Arg, Values};
use std::test::Fail;

/// One test. It has no arguments where there is no word.
fn test(rt: &impl AllocGlobal, words: &str) -> Result<Values<Arg>, Fail> {
    if words.is_empty() {
        return Ok(Values::new(Vec::new(rt.alloc())));
    }
    Ok(Values::new(arguments(rt, words)?))
}

fn add_test(rt: &impl AllocGlobal, suite: &mut Vec<Values<Arg>>, words: &str) -> Result<(), Fail> {
    let test = test(rt, words)?;
    Ok(suite.push(test)?)
}

/// A suite of tests, each ended by `;`, such as `2 3 0; (1,2) true;`.
pub fn suite(rt: &impl AllocGlobal, tests: &str) -> Result<Values<Values<Arg>>, Fail> {
    if tests.is_empty() {
        return Ok(Values::new(Vec::new(rt.alloc())));
    }
    match tests.strip_suffix(';') {
        Some(tests) => ended(rt, tests),
        None => Err(Fail::new("a test does not end")),
    }
}

/// A suite of tests with `;` between them.
fn ended(rt: &impl AllocGlobal, tests: &str) -> Result<Values<Values<Arg>>, Fail> {
    let mut suite = Vec::new(rt.alloc());
    for words in tests.split(';') {
        add_test(rt, &mut suite, words.trim())?;
    }
    Ok(Values::new(suite))
}

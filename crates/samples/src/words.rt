//! The values of dummy arguments, written as words.

use f77_meaning::{Arg, Values};
use std::test::Fail;

fn truth(word: &str) -> Result<bool, Fail> {
    match word {
        "true" => Ok(true),
        "false" => Ok(false),
        _ => Err(Fail::new("no truth value")),
    }
}

fn add_number(values: &mut Vec<i32>, word: &str) -> Result<(), Fail> {
    let value = word.parse()?;
    Ok(values.push(value)?)
}

fn numbers(rt: &impl AllocGlobal, words: &str) -> Result<Arg, Fail> {
    let mut values = Vec::new(rt.alloc());
    for word in words.split(',') {
        add_number(&mut values, word)?;
    }
    Ok(Arg::Ints(Values::new(values)))
}

fn add_truth(values: &mut Vec<bool>, word: &str) -> Result<(), Fail> {
    let value = truth(word)?;
    Ok(values.push(value)?)
}

fn truths(rt: &impl AllocGlobal, words: &str) -> Result<Arg, Fail> {
    let mut values = Vec::new(rt.alloc());
    for word in words.split(',') {
        add_truth(&mut values, word)?;
    }
    Ok(Arg::Truths(Values::new(values)))
}

fn array(rt: &impl AllocGlobal, words: &str) -> Result<Arg, Fail> {
    match words.as_bytes() {
        [b't' | b'f', ..] => truths(rt, words),
        _ => numbers(rt, words),
    }
}

fn variable(word: &str) -> Result<Arg, Fail> {
    match word {
        "true" => Ok(Arg::Truth(true)),
        "false" => Ok(Arg::Truth(false)),
        _ => Ok(Arg::Int(word.parse()?)),
    }
}

/// An argument, written as `5`, `true`, `(1,2)` or `(true,false)`.
fn argument(rt: &impl AllocGlobal, word: &str) -> Result<Arg, Fail> {
    match word.strip_prefix('(') {
        Some(words) => array(rt, words.trim_end_matches(')')),
        None => variable(word),
    }
}

fn add_argument(rt: &impl AllocGlobal, arguments: &mut Vec<Arg>, word: &str) -> Result<(), Fail> {
    let argument = argument(rt, word)?;
    Ok(arguments.push(argument)?)
}

/// Arguments with blanks between them.
pub fn arguments(rt: &impl AllocGlobal, words: &str) -> Result<Vec<Arg>, Fail> {
    let mut arguments = Vec::new(rt.alloc());
    for word in words.split(' ') {
        add_argument(rt, &mut arguments, word)?;
    }
    Ok(arguments)
}

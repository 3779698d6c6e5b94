//! Changes of one statement of a checked program. A change is a number and a statement.

use crate::sources::program;
use f77_check::{CheckFault, Checked};
use f77_syntax::{Program, Stmt};
use std::test::Fail;

/// A program that has the statement of this text.
pub fn enclosing(rt: &impl AllocGlobal, text: &str) -> Result<Program, Fail> {
    if text == "END" {
        return program(rt, "SUBROUTINE Z; END");
    }
    let statements = if text.starts_with("SUBROUTINE") {
        format!(in rt.alloc(); "{text}; END")?
    } else {
        format!(in rt.alloc(); "SUBROUTINE Z; {text}; END")?
    };
    program(rt, statements.as_str())
}

/// The statement of this text, in the program that `enclosing` made for it.
pub fn enclosed<'a>(enclosing: &'a Program, text: &str) -> Result<&'a Stmt, Fail> {
    let number = if text.starts_with("SUBROUTINE") { 1 } else { 2 };
    match enclosing.line(number) {
        Some(line) => Ok(&line.stmt),
        None => Err(Fail::new("no statement")),
    }
}

/// The number and the statement of a change.
pub fn number_and_text(change: &str) -> Result<(usize, &str), Fail> {
    match change.split_once(' ') {
        Some((number, text)) => Ok((number.parse()?, text)),
        None => Err(Fail::new("a change is a number and a statement")),
    }
}

/// The answer of `patched`. None where the statement does not fit.
pub fn patched(old: &Checked, number: usize, stmt: &Stmt) -> Option<Result<Checked, CheckFault>> {
    if !old.fits(number, stmt) {
        return None;
    }
    Some(old.patched(number, stmt))
}

/// The answer of `patched` to a change.
fn answer(
    rt: &impl AllocGlobal,
    old: &Checked,
    change: &str,
) -> Result<Option<Result<Checked, CheckFault>>, Fail> {
    let (number, text) = number_and_text(change)?;
    let enclosing = enclosing(rt, text)?;
    let stmt = enclosed(&enclosing, text)?;
    Ok(patched(old, number, stmt))
}

/// The program after a change, which has to be legal.
pub fn changed(rt: &impl AllocGlobal, old: &Checked, change: &str) -> Result<Checked, Fail> {
    match answer(rt, old, change)? {
        Some(new) => Ok(new?),
        None => Err(Fail::new("the statement does not fit")),
    }
}

//! Programs made from their statements.

use f77_source::read_form;
use f77_syntax::{Program, parse};
use std::test::Fail;

/// The text `front`, the text `part` so many times, and the text `back`.
pub fn repeated(
    rt: &impl AllocGlobal,
    front: &str,
    times: usize,
    part: &str,
    back: &str,
) -> Result<String, Fail> {
    let mut text = String::from_str(rt.alloc(), front)?;
    for _ in 0..times {
        text.push_str(part)?;
    }
    text.push_str(back)?;
    Ok(text)
}

/// The label of a statement, which may be empty, and the rest.
fn label_and_rest(statement: &str) -> (&str, &str) {
    match statement.split_once(' ') {
        Some((label, rest)) if label.parse::<u32>().is_ok() => (label, rest),
        _ => ("", statement),
    }
}

/// The lines in fixed form of statements with `; ` between them. A statement may have a label and a blank before it.
pub fn source(rt: &impl AllocGlobal, statements: &str) -> Result<String, Fail> {
    let mut lines = String::new(rt.alloc());
    for statement in statements.split("; ") {
        let (label, rest) = label_and_rest(statement);
        writeln!(lines, "{label:>5} {rest}")?;
    }
    Ok(lines)
}

/// The program of a source in fixed form.
pub fn read(rt: &impl AllocGlobal, lines: &str) -> Result<Program, Fail> {
    let cards = read_form(rt.alloc(), lines.as_bytes())?;
    Ok(parse(rt.alloc(), &cards)?)
}

/// The program of statements with `; ` between them.
pub fn program(rt: &impl AllocGlobal, statements: &str) -> Result<Program, Fail> {
    let lines = source(rt, statements)?;
    read(rt, lines.as_str())
}

//! The job of a row.

use anyhow::Result;
use std::alloc::{AllocError, Global};
use std::fmt::Write;

/// The cells of a row. A cell that the row leaves out is empty.
#[derive(Drop)]
struct Cells<'a> {
    /// Statements, separated by `; `.
    statements: &'a str,
    /// The suite, in JSON.
    suite: &'a str,
    /// The declared equivalents, in JSON.
    equivalent: &'a str,
}

impl<'a> Cells<'a> {
    /// The cells of a row, separated by ` | `.
    fn of(row: &'a str) -> Cells<'a> {
        let mut cells = Cells {
            statements: "",
            suite: "",
            equivalent: "",
        };
        for cell in row.split(" | ") {
            cells.take(cell);
        }
        cells
    }

    /// Puts a cell in its place: a list in JSON is the suite, or the declared equivalents if there is a suite; any
    /// other cell is statements.
    fn take(&mut self, cell: &'a str) {
        if !cell.starts_with('[') {
            self.statements = cell;
        } else if self.suite.is_empty() {
            self.suite = cell;
        } else {
            self.equivalent = cell;
        }
    }
}

/// The label of a statement, which may be empty, and the rest.
fn labelled(statement: &str) -> (&str, &str) {
    let (first, others) = statement.split_once(' ').unwrap_or((statement, ""));
    if first.bytes().all(|byte| byte.is_ascii_digit()) {
        (first, others)
    } else {
        ("", statement)
    }
}

/// Adds a line in fixed form for each statement.
fn push_statements(source: &mut String, statements: &str) -> Result<(), AllocError> {
    for statement in statements.split("; ") {
        let (label, others) = labelled(statement);
        writeln!(source, "{label:>5} {others}")?;
    }
    Ok(())
}

/// Adds a line to the source. The statements of the row take the place of the line `?`.
fn push_line(source: &mut String, line: &str, statements: &str) -> Result<(), AllocError> {
    if line != "?" {
        writeln!(source, "{line}")
    } else if statements.is_empty() {
        Ok(())
    } else {
        push_statements(source, statements)
    }
}

/// The source of these lines, with the statements of the row in the place of `?`. Where the row has statements and no
/// line is `?`, the statements are the whole source.
fn source_of(alloc: Global, lines: &[&str], statements: &str) -> Result<String, AllocError> {
    let mut source = String::new(alloc);
    if !statements.is_empty() && !lines.contains(&"?") {
        push_statements(&mut source, statements)?;
        return Ok(source);
    }
    for line in lines {
        push_line(&mut source, line, statements)?;
    }
    Ok(source)
}

/// Adds a member to the job, if it has a text.
fn push_member(job: &mut String, key: &str, text: &str) -> Result<(), AllocError> {
    if text.is_empty() {
        Ok(())
    } else {
        write!(job, ",\"{key}\":{text}")
    }
}

/// The job of a row, in JSON. `lines` are the lines of the source above the row.
pub(crate) fn job_of(alloc: Global, lines: &[&str], row: &str) -> Result<String> {
    let cells = Cells::of(row);
    let source = source_of(alloc, lines, cells.statements)?;
    let quoted = serde_json::to_string(alloc, &source)?;
    let mut job = format!(in alloc; "{{\"source\":{quoted}")?;
    push_member(&mut job, "suite", cells.suite)?;
    push_member(&mut job, "equivalent", cells.equivalent)?;
    job.push('}')?;
    Ok(job)
}

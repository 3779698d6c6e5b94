//! Lines of small programs, made of trees.

use f77_syntax::{Expr, Line, Name, Program, Ref, Stmt, SyntaxFault, print};
use samples::read;
use std::mem::replace;
use std::process::Abort;
use std::test::Fail;

const UNIT: &str = "C\nC\nC\nC\nC\nC\n      SUBROUTINE A\n      CONTINUE\n      END\n";

/// The name of these letters.
pub(crate) fn name(letters: &str) -> Result<Name, Fail> {
    match Name::new(letters) {
        Some(name) => Ok(name),
        None => Err(Fail::new("no name")),
    }
}

fn assert_names(
    rt: &(impl AllocGlobal + Abort),
    texts: &[&str],
    expected: bool,
) -> Result<(), Fail> {
    for letters in texts {
        let made = Name::new(letters);
        assert_eq!(rt; made.is_some(), expected, "{letters:?}");
    }
    Ok(())
}

#[test]
fn makes_names(rt: HostRuntime) -> Result<(), Fail> {
    assert_names(&rt, &["I", "A1B2C3"], true)?;
    assert_names(&rt, &["ABCDEFG", "", "1A", "I J", "i"], false)?;
    let function = name("IABS")?;
    assert_eq!(rt; function.as_str(), "IABS");
    Ok(())
}

/// K = the value.
pub(crate) fn assign(rt: &impl AllocGlobal, value: Expr) -> Result<Stmt, Fail> {
    let target = Ref {
        name: name("K")?,
        subscripts: Vec::new(rt.alloc()),
    };
    Ok(Stmt::Assign { target, value })
}

/// K = ZPUSH(1)
pub(crate) fn pushing(rt: &impl AllocGlobal) -> Result<Stmt, Fail> {
    let one = Box::new(rt.alloc(), Expr::Number(1))?;
    assign(rt, Expr::ZeroPush(one))
}

/// Adds a copy of a line.
fn add_copy(lines: &mut Vec<Line>, line: &Line) -> Result<(), Fail> {
    let copy = line.clone()?;
    Ok(lines.push(copy)?)
}

/// Copies of the lines of a program.
pub(crate) fn lines_of(rt: &impl AllocGlobal, program: &Program) -> Result<Vec<Line>, Fail> {
    let mut lines = Vec::new(rt.alloc());
    for line in program.lines() {
        add_copy(&mut lines, line)?;
    }
    Ok(lines)
}

/// The lines of a source.
pub(crate) fn lines_in(rt: &impl AllocGlobal, source: &str) -> Result<Vec<Line>, Fail> {
    let program = read(rt, source)?;
    lines_of(rt, &program)
}

/// Puts a statement in the place of that of a line, counted from 0.
pub(crate) fn put(lines: &mut [Line], place: usize, stmt: Stmt) {
    match lines.get_mut(place) {
        Some(line) => drop(replace(&mut line.stmt, stmt)),
        None => drop(stmt),
    }
}

/// Gives the second line a label.
fn label(lines: &mut [Line], label: Option<u32>) {
    if let Some(line) = lines.get_mut(1) {
        line.label = label;
    }
}

fn fault_text(rt: &impl AllocGlobal, fault: SyntaxFault) -> Result<String, Fail> {
    Ok(format!(in rt.alloc(); "{fault:?}")?)
}

/// A program in fixed form, or its fault.
fn program_text(rt: &impl AllocGlobal, program: &Program) -> Result<String, Fail> {
    match print(rt.alloc(), program) {
        Ok(text) => Ok(text),
        Err(fault) => fault_text(rt, fault),
    }
}

/// The program of the lines in fixed form, or its fault, or `None` where they are no program.
pub(crate) fn printed(rt: &impl AllocGlobal, lines: Vec<Line>) -> Result<String, Fail> {
    match Program::of(rt.alloc(), lines) {
        Ok(Some(program)) => program_text(rt, &program),
        Ok(None) => Ok(String::from_str(rt.alloc(), "None")?),
        Err(fault) => fault_text(rt, fault),
    }
}

/// The lines of a program, made a program again and printed.
pub(crate) fn reprinted(rt: &impl AllocGlobal, program: &Program) -> Result<String, Fail> {
    let lines = lines_of(rt, program)?;
    printed(rt, lines)
}

/// SUBROUTINE A, CONTINUE and END, on lines 7 to 9.
pub(crate) fn unit(rt: &impl AllocGlobal) -> Result<Vec<Line>, Fail> {
    lines_in(rt, UNIT)
}

/// The unit with this statement and this label in the place of CONTINUE, printed.
pub(crate) fn unit_text(
    rt: &impl AllocGlobal,
    before: Option<u32>,
    stmt: Stmt,
) -> Result<String, Fail> {
    match unit(rt) {
        Ok(mut lines) => {
            put(&mut lines, 1, stmt);
            label(&mut lines, before);
            printed(rt, lines)
        }
        Err(fault) => {
            drop(stmt);
            Err(fault)
        }
    }
}

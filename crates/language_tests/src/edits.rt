//! The edits of operators: which there are, the programs that they make, and edits that make none.

use crate::trees::{assign, put, unit};
use f77_check::{Checked, check};
use f77_program::{Program, print};
use f77_tree::Expr;
use mothra_ops::{Edit, Op, OpsFault, apply, edits};
use samples::{ADD, LOOP, checked, expect, parts, program};
use std::process::Abort;
use std::test::Fail;

/// The operator with this code.
pub(crate) fn operator(code: &str) -> Result<Op, Fail> {
    match Op::of(code) {
        Some(op) => Ok(op),
        None => Err(Fail::new("no operator has this code")),
    }
}

/// Adds the statement, the position and the rank of an edit to a text.
fn show_edit(text: &mut String, edit: &Edit) -> Result<(), Fail> {
    let statement = edit.statement;
    let position = edit.position;
    let rank = edit.rank;
    Ok(write!(text, "{statement} {position} {rank};")?)
}

fn edits_text(rt: &impl AllocGlobal, edits: &[Edit]) -> Result<String, Fail> {
    let mut text = String::new(rt.alloc());
    for edit in edits {
        show_edit(&mut text, edit)?;
    }
    Ok(text)
}

/// The edits of an operator, as a text.
fn list_text(rt: &impl AllocGlobal, original: &Checked, code: &str) -> Result<String, Fail> {
    let edits = edits(rt.alloc(), original, operator(code)?, 1)?;
    edits_text(rt, &edits)
}

/// Compares lists: each row is an operator and its edits.
fn assert_lists(rt: &impl AllocGlobal, statements: &str, rows: &str) -> Result<(), Fail> {
    let original = checked(rt, statements)?;
    for row in rows.trim_matches('\n').lines() {
        let (code, expected) = parts(row)?;
        expect(list_text(rt, &original, code), expected, row)?;
    }
    Ok(())
}

/// The ranks of edits that make no mutant are left out.
#[test]
fn lists_edits(rt: HostRuntime) -> Result<(), Fail> {
    assert_lists(&rt, LOOP, LOOP_EDITS)?;
    assert_lists(&rt, ARRAYS, ARRAY_EDITS)?;
    assert_lists(&rt, INITIAL_VALUES, INITIAL_VALUE_EDITS)
}

const LOOP_EDITS: &str = "
CRP => 2 2 1;2 2 2;3 3 1;3 3 2;4 3 1;4 3 2;6 4 1;6 4 2;
DER => 
GLR => 3 5 2;
ROR => 3 1 1;3 1 2;3 1 3;3 1 4;3 1 5;3 1 6;3 1 7;
RSR => 2 0 1;3 0 1;3 4 1;6 0 1;
SAN => 2 0 1;3 0 1;3 4 1;5 0 1;6 0 1;7 0 1;
SDL => 2 0 1;3 0 1;3 4 1;5 0 1;6 0 1;7 0 1;
SVR => 2 1 1;2 1 2;3 2 1;3 2 2;4 2 1;4 4 1;4 4 2;5 1 1;5 3 1;5 3 2;5 4 1;5 4 2;6 1 1;6 1 2;6 3 1;6 3 2;
";

const ARRAYS: &str = "SUBROUTINE LAR(P,I); LOGICAL P(3),Q(3); P(I)=Q(1); END";

const ARRAY_EDITS: &str = "
AAR => 3 1 1;3 3 1;
CNR => 3 1 1;3 3 1;
UOI => 3 2 1;3 2 2;3 2 3;3 3 1;
";

const INITIAL_VALUES: &str = "SUBROUTINE D(K); DATA I,J/2*3/; K=I; END";

const INITIAL_VALUE_EDITS: &str = "
DSA => 2 3 1;2 3 2;
";

/// SUBROUTINE A with K = the number. It is made of lines, so the number may be above 2147483647.
fn assigning(rt: &impl AllocGlobal, number: u32) -> Result<Checked, Fail> {
    let mut lines = unit(rt)?;
    put(&mut lines, 1, assign(rt, Expr::Number(number))?);
    match Program::of(rt.alloc(), lines)? {
        Some(program) => Ok(check(rt.alloc(), &program)?),
        None => Err(Fail::new("no program")),
    }
}

/// No constant above 2147483647 is put anywhere.
#[test]
fn keeps_the_largest_constant(rt: HostRuntime) -> Result<(), Fail> {
    for row in NEAR_THE_LARGEST.trim_matches('\n').lines() {
        let (number, expected) = parts(row)?;
        let original = assigning(&rt, number.parse()?)?;
        expect(list_text(&rt, &original, "CRP"), expected, row)?;
    }
    Ok(())
}

const NEAR_THE_LARGEST: &str = "
2147483646 => 2 2 1;2 2 2;
2147483647 => 2 2 1;
2147483648 => 2 2 1;
2147483649 => 
4294967295 => 
";

/// The edit that is written as an operator, a statement, a position and a rank.
fn edit_of(text: &str) -> Result<Edit, Fail> {
    let mut words = text.split(' ');
    let op = operator(words.next().unwrap_or(""))?;
    let statement = words.next().unwrap_or("").parse()?;
    let position = words.next().unwrap_or("").parse()?;
    let rank = words.next().unwrap_or("").parse()?;
    Ok(Edit {
        op,
        statement,
        position,
        rank,
    })
}

/// The program of these statements in fixed form.
fn given(rt: &impl AllocGlobal, statements: &str) -> Result<String, Fail> {
    let program = program(rt, statements)?;
    Ok(print(rt.alloc(), &program)?)
}

/// The program that an edit makes, in fixed form.
fn made(rt: &impl AllocGlobal, original: &Checked, edit: &str) -> Result<String, Fail> {
    let made = apply(rt.alloc(), original, &edit_of(edit)?)?;
    Ok(print(rt.alloc(), made.program())?)
}

/// Compares a row: an edit, and the statements of the program that it makes.
fn assert_made(rt: &impl AllocGlobal, original: &Checked, row: &str) -> Result<(), Fail> {
    let (edit, statements) = parts(row)?;
    let expected = given(rt, statements)?;
    expect(made(rt, original, edit), expected.as_str(), row)
}

#[test]
fn makes_programs(rt: HostRuntime) -> Result<(), Fail> {
    let original = checked(&rt, ADD)?;
    for row in MADE.trim_matches('\n').lines() {
        assert_made(&rt, &original, row)?;
    }
    Ok(())
}

const MADE: &str = "
AOR 2 2 2 => SUBROUTINE ADD(I,J,K); K=I*J; END
RSR 2 0 1 => SUBROUTINE ADD(I,J,K); RETURN; END
SVR 2 1 2 => SUBROUTINE ADD(I,J,K); J=I+J; END
UOI 2 4 1 => SUBROUTINE ADD(I,J,K); K=I+(-J); END
";

fn fault_of(rt: &impl AllocGlobal, original: &Checked, edit: &Edit) -> Option<OpsFault> {
    apply(rt.alloc(), original, edit).err()
}

/// None of these edits makes a program.
fn assert_refused(
    rt: &(impl AllocGlobal + Abort),
    statements: &str,
    edits: &str,
) -> Result<(), Fail> {
    let original = checked(rt, statements)?;
    for text in edits.split("; ") {
        let fault = fault_of(rt, &original, &edit_of(text)?);
        assert_eq!(rt; fault, Some(OpsFault::NotASite), "{text}");
    }
    Ok(())
}

#[test]
fn refuses_edits_that_make_no_mutant(rt: HostRuntime) -> Result<(), Fail> {
    assert_refused(&rt, ADD, WITHOUT_REPLACEMENT)?;
    assert_refused(&rt, LOOP, WITHOUT_MUTANT)
}

const WITHOUT_REPLACEMENT: &str =
    "AOR 2 2 7; AOR 2 3 1; AOR 2 2 0; AOR 2 5 1; AOR 0 2 2; AOR 4 2 2; ROR 2 2 1; SVR 1 1 1; SDL 3 0 1";

/// The operators give something for these, but the program would be illegal or the same as before.
const WITHOUT_MUTANT: &str = "SVR 4 2 2; SVR 5 1 2; GLR 3 5 1; DER 4 1 1; RSR 5 0 1; RSR 7 0 1";

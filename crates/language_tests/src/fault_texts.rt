//! The texts of faults.

use f77_check::{CheckFault, check};
use f77_source::{Card, FormFault, read_form};
use f77_syntax::{Program, SyntaxFault, parse};
use samples::{expect, parts, source};
use std::fmt::Display;
use std::test::Fail;

fn text_of(rt: &impl AllocGlobal, fault: &impl Display) -> Result<String, Fail> {
    Ok(format!(in rt.alloc(); "{fault}")?)
}

/// Compares the text of a fault.
fn assert_text(rt: &impl AllocGlobal, fault: &impl Display, expected: &str) -> Result<(), Fail> {
    expect(text_of(rt, fault), expected, expected)
}

const LINES: &[(FormFault, &str)] = &[
    (FormFault::Memory, "memory ran out"),
    (FormFault::TooLarge, "the source has more than 65536 bytes"),
    (
        FormFault::NotAscii(1),
        "line 1 holds a character that is not printable ASCII",
    ),
    (FormFault::Tab(2), "line 2 holds a tab"),
    (
        FormFault::BadLabel(3),
        "line 3 has no label in columns 1 to 5",
    ),
    (
        FormFault::LooseContinuation(4),
        "line 4 continues no statement",
    ),
    (
        FormFault::TooManyContinuations(4294967295),
        "line 4294967295 is a continuation line too many",
    ),
];

#[test]
fn faults_of_lines_have_texts(rt: HostRuntime) -> Result<(), Fail> {
    for (fault, expected) in LINES {
        assert_text(&rt, fault, expected)?;
    }
    Ok(())
}

#[test]
fn other_faults_have_texts(rt: HostRuntime) -> Result<(), Fail> {
    assert_text(&rt, &SyntaxFault::Memory, "memory ran out")?;
    assert_text(&rt, &CheckFault::Memory, "memory ran out")?;
    let long = "line 5 holds a statement that is too long";
    assert_text(&rt, &SyntaxFault::TooLong(5), long)
}

/// The text of the fault of a program, empty where it is legal.
fn program_text(rt: &impl AllocGlobal, program: &Program) -> Result<String, Fail> {
    match check(rt.alloc(), program).err() {
        Some(fault) => text_of(rt, &fault),
        None => Ok(String::new(rt.alloc())),
    }
}

/// The text of the fault of cards or of their program.
fn cards_text(rt: &impl AllocGlobal, cards: &[Card]) -> Result<String, Fail> {
    match parse(rt.alloc(), cards) {
        Ok(program) => program_text(rt, &program),
        Err(fault) => text_of(rt, &fault),
    }
}

/// Compares the text of the fault of the statements of a row.
fn assert_row(rt: &impl AllocGlobal, row: &str) -> Result<(), Fail> {
    let (statements, expected) = parts(row)?;
    let lines = source(rt, statements)?;
    let cards = read_form(rt.alloc(), lines.as_bytes())?;
    expect(cards_text(rt, &cards), expected, row)
}

#[test]
fn faults_of_programs_have_texts(rt: HostRuntime) -> Result<(), Fail> {
    for row in PROGRAMS.trim_matches('\n').lines() {
        assert_row(&rt, row)?;
    }
    Ok(())
}

const PROGRAMS: &str = "
K= => line 1 holds no statement that may stand there
SUBROUTINE S; K=ABCDEFG; END => line 2 holds a name of more than six characters
SUBROUTINE S; K=1; GO TO 0; END => line 3 holds a constant or a label out of range
SUBROUTINE S; GO TO(((((((((((((((((((((((((((((((((((((((((; END => line 2 opens parentheses more than 40 deep
END => the program does not begin with a SUBROUTINE statement
SUBROUTINE S => the program does not end with an END statement
SUBROUTINE S; K=1; K=2; K=3; END; K=4 => line 6 stands behind the END statement
SUBROUTINE S(X1); END => X1 is REAL by its first letter
SUBROUTINE S(I,I); END => I is declared twice, or names the unit or a function as well
SUBROUTINE S(K); K=.TRUE.; END => the kinds on line 2 do not agree
SUBROUTINE S(K); INTEGER M(0); END => line 2 has wrong bounds, subscripts or arguments
SUBROUTINE S(K); 99999 K=1; 99999 K=2; END => the label 99999 stands on two statements
SUBROUTINE S(K); K=1; GO TO 10; END => line 3 names a label that stands on no statement
SUBROUTINE S(K); 10 INTEGER J; GO TO 10; END => a jump on line 3 leads to a statement where control may not go
SUBROUTINE S(N); GO TO 10; DO 10 I=1,N; 10 CONTINUE; END => a jump on line 2 leads into a range or a branch
SUBROUTINE S(N); DO 10 I=1,N; 10 RETURN; END => the DO on line 2 ends at a statement that may end none
SUBROUTINE S(K); IF (K.GT.0) THEN; END => the block or the DO on line 2 is not nested
SUBROUTINE S(I); DO 10 I=1,3; 10 I=2; END => line 3 sets the variable of a DO whose range holds it
SUBROUTINE S(K); DATA J/1,2/; K=J; END => the DATA statement on line 2 has a wrong name or value
SUBROUTINE S; INTEGER M(101,100); END => the program has too many statements, names or elements
";

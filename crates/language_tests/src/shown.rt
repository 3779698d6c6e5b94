//! How each type is shown for debugging: its fields are shown as Rust shows them.

use f77_source::Card;
use samples::{enclosed, enclosing, expect, parts, program};
use std::fmt::Debug;
use std::test::Fail;

fn debug_text(rt: &impl AllocGlobal, value: &impl Debug) -> Result<String, Fail> {
    Ok(format!(in rt.alloc(); "{value:?}")?)
}

/// How the statement of this text is shown.
fn statement_text(rt: &impl AllocGlobal, text: &str) -> Result<String, Fail> {
    let enclosing = enclosing(rt, text)?;
    debug_text(rt, enclosed(&enclosing, text)?)
}

fn assert_row(rt: &impl AllocGlobal, row: &str) -> Result<(), Fail> {
    let (text, expected) = parts(row)?;
    expect(statement_text(rt, text), expected, row)
}

#[test]
fn shows_statements(rt: HostRuntime) -> Result<(), Fail> {
    for row in STATEMENTS.trim_matches('\n').lines() {
        assert_row(&rt, row)?;
    }
    Ok(())
}

const STATEMENTS: &str = r#"
GO TO (1),(-1)**2 => ComputedGoto { labels: [1], value: Binary(Power, Signed(Minus, Number(1)), Number(2)) }
M(.TRUE.)=1 => Assign { target: Ref { name: "M", subscripts: [Truth(true)] }, value: Number(1) }
DIMENSION M(2,3) => Dimension { items: [Decl { name: "M", bounds: [2, 3] }] }
DATA M/2*-1/ => Preset { groups: [DataGroup { names: ["M"], values: [Value { times: 2, constant: Number(-1) }] }] }
IF (.TRUE.) GO TO 10 => LogicalIf { condition: Truth(true), statement: Goto { label: 10 } }
"#;

/// How the card of STOP is shown.
fn card_text(rt: &impl AllocGlobal) -> Result<String, Fail> {
    let card = Card::new(Some(10), String::from_str(rt.alloc(), "STOP")?, 2);
    debug_text(rt, &card)
}

#[test]
fn shows_a_card(rt: HostRuntime) -> Result<(), Fail> {
    let expected = "Card { label: Some(10), text: \"STOP\", line: 2 }";
    expect(card_text(&rt), expected, "STOP")
}

/// How the program of statements is shown.
fn program_text(rt: &impl AllocGlobal, statements: &str) -> Result<String, Fail> {
    let program = program(rt, statements)?;
    debug_text(rt, &program)
}

#[test]
fn shows_a_program(rt: HostRuntime) -> Result<(), Fail> {
    expect(
        program_text(&rt, "SUBROUTINE A; 10 STOP; END"),
        "Program { lines: [Line { label: None, stmt: Subroutine { name: \"A\", arguments: [] }, line: 1 }, \
         Line { label: Some(10), stmt: Stop, line: 2 }, Line { label: None, stmt: End, line: 3 }] }",
        "a program",
    )
}

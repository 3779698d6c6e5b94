//! Programs made of lines and of trees, also those of mutants.

use crate::trees::{assign, lines_in, name, printed, pushing, put, unit, unit_text};
use f77_syntax::{Expr, Intrinsic, Line, Name, Ref, Stmt};
use samples::expect;
use std::test::Fail;

const ADD: &str = "      SUBROUTINE ADD(I,J,K)\n      K=I+J\n      END\n";

/// The lines of ADD without END.
fn without_end(rt: &impl AllocGlobal) -> Result<Vec<Line>, Fail> {
    let mut lines = lines_in(rt, ADD)?;
    drop(lines.pop());
    Ok(lines)
}

/// The lines of ADD in the opposite order.
fn reversed(rt: &impl AllocGlobal) -> Result<Vec<Line>, Fail> {
    let mut lines = lines_in(rt, ADD)?;
    lines.reverse();
    Ok(lines)
}

/// Compares what `Program::of` makes of lines.
fn assert_lines(
    rt: &impl AllocGlobal,
    lines: Result<Vec<Line>, Fail>,
    expected: &str,
) -> Result<(), Fail> {
    expect(printed(rt, lines?), expected, expected)
}

#[test]
fn makes_programs_of_lines(rt: HostRuntime) -> Result<(), Fail> {
    assert_lines(&rt, lines_in(&rt, ADD), ADD)?;
    assert_lines(&rt, without_end(&rt), "None")?;
    assert_lines(&rt, reversed(&rt), "None")
}

/// The name I, `count` times.
fn dummies(rt: &impl AllocGlobal, count: usize) -> Result<Vec<Name>, Fail> {
    let mut names = Vec::new(rt.alloc());
    names.resize(count, name("I")?)?;
    Ok(names)
}

/// SUBROUTINE A with `count` dummy arguments.
fn subroutine(rt: &impl AllocGlobal, count: usize) -> Result<Stmt, Fail> {
    let name = name("A")?;
    let arguments = dummies(rt, count)?;
    Ok(Stmt::Subroutine { name, arguments })
}

/// The unit with a SUBROUTINE statement of 21 lines.
fn with_long_heading(rt: &impl AllocGlobal) -> Result<Vec<Line>, Fail> {
    let mut lines = unit(rt)?;
    put(&mut lines, 0, subroutine(rt, 654)?);
    Ok(lines)
}

/// Compares the unit with K = 1 under this label.
fn assert_labelled(rt: &impl AllocGlobal, label: u32, expected: &str) -> Result<(), Fail> {
    let one = assign(rt, Expr::Number(1))?;
    expect(unit_text(rt, Some(label), one), expected, expected)
}

#[test]
fn tests_labels_and_lengths(rt: HostRuntime) -> Result<(), Fail> {
    assert_labelled(&rt, 5, "      SUBROUTINE A\n    5 K=1\n      END\n")?;
    assert_labelled(&rt, 0, "BadConstant(8)")?;
    assert_labelled(&rt, 100000, "BadConstant(8)")?;
    assert_lines(&rt, with_long_heading(&rt), "TooLong(7)")
}

/// Compares the unit with this statement.
fn assert_stmt(rt: &impl AllocGlobal, stmt: Stmt, expected: &str) -> Result<(), Fail> {
    expect(unit_text(rt, None, stmt), expected, expected)
}

/// MOD(1) as a reference.
fn reference(rt: &impl AllocGlobal) -> Result<Expr, Fail> {
    let subscripts = vec![in rt.alloc(); Expr::Number(1)]?;
    Ok(Expr::Reference(Ref {
        name: name("MOD")?,
        subscripts,
    }))
}

#[test]
fn makes_programs_of_trees(rt: HostRuntime) -> Result<(), Fail> {
    assert_stmt(&rt, assign(&rt, reference(&rt)?)?, "None")?;
    let call = Expr::Call(Intrinsic::Mod, Vec::new(rt.alloc()));
    assert_stmt(&rt, assign(&rt, call)?, "None")?;
    let pushed = "      SUBROUTINE A\n      K=ZPUSH(1)\n      END\n";
    assert_stmt(&rt, pushing(&rt)?, pushed)
}

/// A logical IF with a constant as its condition.
fn logical_if(rt: &impl AllocGlobal, truth: bool, inner: Stmt) -> Result<Stmt, Fail> {
    let statement = Box::new(rt.alloc(), inner)?;
    let condition = Expr::Truth(truth);
    Ok(Stmt::LogicalIf {
        condition,
        statement,
    })
}

/// Compares the unit with IF (.TRUE.) and this statement inside it.
fn assert_conditional(rt: &impl AllocGlobal, inner: Stmt, expected: &str) -> Result<(), Fail> {
    assert_stmt(rt, logical_if(rt, true, inner)?, expected)
}

/// A computed GO TO with these labels.
fn computed(rt: &impl AllocGlobal, numbers: &[u32]) -> Result<Stmt, Fail> {
    let labels = numbers.to_vec(rt.alloc())?;
    let value = Expr::Number(1);
    Ok(Stmt::ComputedGoto { labels, value })
}

#[test]
fn asks_for_a_label_of_a_computed_go_to(rt: HostRuntime) -> Result<(), Fail> {
    assert_conditional(
        &rt,
        computed(&rt, &[100000, 5])?,
        "      SUBROUTINE A\n      IF (.TRUE.) GO TO (100000,5),1\n      END\n",
    )?;
    assert_conditional(&rt, computed(&rt, &[])?, "None")
}

#[test]
fn makes_programs_of_mutants(rt: HostRuntime) -> Result<(), Fail> {
    assert_conditional(
        &rt,
        Stmt::Trap,
        "      SUBROUTINE A\n      IF (.TRUE.) TRAP\n      END\n",
    )?;
    assert_conditional(
        &rt,
        Stmt::Goto { label: 100000 },
        "      SUBROUTINE A\n      IF (.TRUE.) GO TO 100000\n      END\n",
    )?;
    assert_conditional(&rt, Stmt::Else, "None")?;
    assert_conditional(&rt, logical_if(&rt, false, Stmt::Stop)?, "None")
}

//! What a checked program has: its lines, its dummy arguments, its labels and the start of its runs.

use f77_check::{Shape, Start};
use f77_syntax::{Constant, print};
use samples::{checked, expect, program};
use std::test::Fail;

const SHAPES: &str = "SUBROUTINE S(K,M,P); INTEGER M(3,4); LOGICAL P; P=K.GT.M(1,2); END";

fn show_shape(text: &mut String, shape: &Shape) -> Result<(), Fail> {
    let kind = shape.kind;
    let elements = shape.elements;
    Ok(write!(text, "{kind:?} {elements:?};")?)
}

/// The kind and the number of elements of each dummy argument.
fn shapes_text(rt: &impl AllocGlobal, shapes: &[Shape]) -> Result<String, Fail> {
    let mut text = String::new(rt.alloc());
    for shape in shapes {
        show_shape(&mut text, shape)?;
    }
    Ok(text)
}

#[test]
fn reports_the_shapes(rt: HostRuntime) -> Result<(), Fail> {
    let checked = checked(&rt, SHAPES)?;
    expect(
        shapes_text(&rt, checked.arguments()),
        "Integer None;Integer Some(12);Logical None;",
        SHAPES,
    )
}

/// The program of these statements in fixed form.
fn given(rt: &impl AllocGlobal, statements: &str) -> Result<String, Fail> {
    let program = program(rt, statements)?;
    Ok(print(rt.alloc(), &program)?)
}

/// The program that the checked program of these statements keeps, in fixed form.
fn kept(rt: &impl AllocGlobal, statements: &str) -> Result<String, Fail> {
    let checked = checked(rt, statements)?;
    Ok(print(rt.alloc(), checked.program())?)
}

#[test]
fn keeps_the_program(rt: HostRuntime) -> Result<(), Fail> {
    let given = given(&rt, SHAPES)?;
    expect(kept(&rt, SHAPES), given.as_str(), SHAPES)
}

/// Adds the value of a slot, with a blank before it.
fn show_value(text: &mut String, value: Option<Constant>) -> Result<(), Fail> {
    match value {
        Some(Constant::Number(number)) => Ok(write!(text, " {number}")?),
        Some(Constant::Truth(truth)) => Ok(write!(text, " {truth}")?),
        None => Ok(text.push_str(" none")?),
    }
}

/// The value of each slot at the start of a run, with a blank before each.
fn initial(rt: &impl AllocGlobal, start: &Start) -> Result<String, Fail> {
    let mut text = String::new(rt.alloc());
    for value in start.initial.as_slice() {
        show_value(&mut text, *value)?;
    }
    Ok(text)
}

#[test]
fn starts_with_the_values_of_data(rt: HostRuntime) -> Result<(), Fail> {
    let checked = checked(
        &rt,
        "SUBROUTINE S(L,M); INTEGER M(3),V(2,2); LOGICAL L,P; DATA K,V,P/3*-7,2*5,.TRUE./,N/4/; J=K; END",
    )?;
    let start = checked.start();
    assert_eq!(rt; start.entry, 4);
    assert_eq!(rt; start.dummies.as_slice(), [0, 1].as_slice());
    expect(
        initial(&rt, start),
        " none none none none -7 -7 5 5 true -7 4 none",
        "DATA",
    )
}

/// The labels of a program, in order.
fn labels_text(rt: &impl AllocGlobal, statements: &str) -> Result<String, Fail> {
    let checked = checked(rt, statements)?;
    Ok(format!(in rt.alloc(); "{:?}", checked.labels()?)?)
}

#[test]
fn lists_the_labels(rt: HostRuntime) -> Result<(), Fail> {
    expect(
        labels_text(
            &rt,
            "SUBROUTINE S; 30 DO 10 I=1,3; 10 J=I; 20 STOP; 5 CONTINUE; END",
        ),
        "[30, 10, 20, 5]",
        "labels",
    )?;
    expect(labels_text(&rt, "SUBROUTINE S; END"), "[]", "no label")
}

//! Changed programs where each allocation is refused in turn. The answer is then `Memory` or the
//! usual one, and the program that is changed stays as it was.

use crate::patches::{judged_fault, patched_fault};
use f77_check::{CheckFault, Checked};
use f77_syntax::Stmt;
use samples::{checked, enclosed, enclosing, number_and_text, program};
use std::process::Abort;
use std::test::Fail;

const LOOP: &str = "SUBROUTINE S(K); DO 10 I=1,3; 10 K=K+I; END";

/// A change that is judged by the changed statement alone, and is legal.
const ALONE: &str = "3 K=K-I";

/// A change that is judged by the changed statement alone, and has a fault.
const ALONE_FAULT: &str = "3 I=K";

/// A change that is judged by the whole program, since the DO is gone, and is legal.
const WHOLE: &str = "2 K=0";

/// A change that is judged by the whole program, and has a fault.
const WHOLE_FAULT: &str = "2 DO 20 I=1,3";

/// The fault is `Memory`, or the one that comes where there is enough memory.
fn assert_answer(
    rt: &impl Abort,
    answer: Option<Option<CheckFault>>,
    expected: &Option<CheckFault>,
) {
    match answer {
        Some(fault) => assert!(rt; fault == Some(CheckFault::Memory) || fault == *expected),
        None => assert!(rt; false, "the statement does not fit"),
    }
}

/// Compares the answers of `patched` and of `judge`.
fn assert_answers(
    rt: &impl Abort,
    old: &Checked,
    number: usize,
    stmt: &Stmt,
    expected: &Option<CheckFault>,
) {
    assert_answer(rt, patched_fault(old, number, stmt), expected);
    assert_answer(rt, judged_fault(old, number, stmt), expected);
}

/// Compares all answers twice. If the statement can not be made for lack of memory, nothing is
/// asked.
fn assert_asked(
    rt: &(impl AllocGlobal + Abort),
    old: &Checked,
    change: &str,
    expected: &Option<CheckFault>,
) -> Result<(), Fail> {
    let (number, text) = number_and_text(change)?;
    let enclosing = enclosing(rt, text)?;
    let stmt = enclosed(&enclosing, text)?;
    assert_answers(rt, old, number, stmt, expected);
    assert_answers(rt, old, number, stmt, expected);
    Ok(())
}

/// The program is still that of these statements. If there is no memory for another one, nothing is compared.
fn assert_kept(rt: &(impl AllocGlobal + Abort), old: &Checked) -> Result<(), Fail> {
    assert!(rt; *old.program() == program(rt, LOOP)?);
    Ok(())
}

/// Compares the answers to a change, and then the program with what it was.
fn assert_undisturbed(
    rt: &(impl AllocGlobal + Abort),
    change: &str,
    expected: Option<CheckFault>,
) -> Result<(), Fail> {
    let old = checked(rt, LOOP)?;
    assert_asked(rt, &old, change, &expected)?;
    assert_kept(rt, &old)
}

#[test]
fn refused_memory_changes_no_verdict_of_one_statement(rt: HostRuntime) -> Result<(), Fail> {
    assert_undisturbed(&rt, ALONE, None)?;
    assert_undisturbed(&rt, ALONE_FAULT, Some(CheckFault::DoVariable(3)))
}

#[test]
fn refused_memory_changes_no_verdict_of_a_whole_program(rt: HostRuntime) -> Result<(), Fail> {
    assert_undisturbed(&rt, WHOLE, None)?;
    assert_undisturbed(&rt, WHOLE_FAULT, Some(CheckFault::NoLabel(2)))
}

//! Checked programs with one statement changed. Where the changed statement alone decides, the answer agrees with the
//! check of the whole changed program, whose answers are rows of the program `rows`.

use f77_check::{CheckFault, Checked, check};
use f77_syntax::{Program, Stmt, print};
use samples::{ADD, changed, checked, enclosed, enclosing, number_and_text, program};
use std::alloc::Global;
use std::process::Abort;
use std::test::Fail;

/// The fault that `judge` reports. None where the statement does not fit.
pub(crate) fn judged_fault(
    old: &Checked,
    number: usize,
    stmt: &Stmt,
) -> Option<Option<CheckFault>> {
    if !old.fits(number, stmt) {
        return None;
    }
    Some(old.judge(number, stmt).err())
}

/// The fault that `patched` reports. None where the statement does not fit.
pub(crate) fn patched_fault(
    old: &Checked,
    number: usize,
    stmt: &Stmt,
) -> Option<Option<CheckFault>> {
    if !old.fits(number, stmt) {
        return None;
    }
    Some(old.patched(number, stmt).err())
}

fn fault_of(alloc: Global, program: &Program) -> Option<CheckFault> {
    check(alloc, program).err()
}

/// The fault that the check of the whole changed program reports. None where the statement does not fit.
fn whole_fault(
    rt: &impl AllocGlobal,
    old: &Checked,
    number: usize,
    stmt: &Stmt,
) -> Result<Option<Option<CheckFault>>, Fail> {
    if !old.fits(number, stmt) {
        return Ok(None);
    }
    let new = old.program().with_statement(number, stmt)?;
    Ok(Some(fault_of(rt.alloc(), &new)))
}

/// A program with each form of statement.
const FORMS: &str =
    "SUBROUTINE S(K,P); LOGICAL P; INTEGER M(3); DATA L/1/; K=J; IF (K) 10,20,30; 10 GO TO 20; \
    20 GO TO (10,30),K; 30 IF (P) K=2; DO 40 I=1,3; IF (P) THEN; M(I)=3; ELSE IF (K.EQ.3) THEN; RETURN; ELSE; STOP; \
    END IF; 40 CONTINUE; END";

/// Statements of each form, each of which is put in the place of each statement of the program.
const STATEMENTS: &str =
    "SUBROUTINE S(K,P); SUBROUTINE S(P); SUBROUTINE S(K,P,L); LOGICAL P; LOGICAL P,K; INTEGER M(3); \
    INTEGER M(2,2),N; DIMENSION M(3); DATA L/1/; DATA L/.TRUE./; DATA M/3*4/,N/5/; K=J; K=N; K=P; K=X; X=K; I=K; \
    M=K; M(K)=I; M(1)=M(2)+M(3,1); P=K.EQ.I.AND..NOT.P; GO TO 10; GO TO 40; GO TO 50; GO TO (10,30),K; \
    GO TO (10,40),K; GO TO (10,50),K; GO TO (10,30),P; IF (K) 10,20,30; IF (K) 10,40,30; IF (P) 10,20,30; \
    IF (P) K=2; IF (K) K=2; IF (P) I=2; IF (P) GO TO 20; IF (P) GO TO 40; IF (P) RETURN; DO 40 I=1,3; \
    DO 40 J=K,3,2; DO 40 J=1,3,0; DO 40 P=1,3; DO 30 I=1,3; DO 50 I=1,3; IF (P) THEN; IF (K) THEN; \
    ELSE IF (K.EQ.3) THEN; ELSE IF (K) THEN; ELSE; END IF; CONTINUE; RETURN; STOP; END";

/// Changes after which the table of names has names that the program no longer has, or the program has new ones.
const FIRST_CHANGES: &str = "5 K=1; 5 K=N; 9 P=.FALSE.; 10 CONTINUE; 11 IF (K.EQ.1) THEN";

/// Compares the three answers for a statement in one place.
fn assert_agreed(
    rt: &(impl AllocGlobal + Abort),
    old: &Checked,
    number: usize,
    stmt: &Stmt,
) -> Result<(), Fail> {
    let whole = whole_fault(rt, old, number, stmt)?;
    assert!(rt;
        judged_fault(old, number, stmt) == whole,
        "judge {number} {stmt:?}"
    );
    assert!(rt;
        patched_fault(old, number, stmt) == whole,
        "patched {number} {stmt:?}"
    );
    Ok(())
}

/// Compares the three answers for a statement in each place.
fn assert_agreed_anywhere(
    rt: &(impl AllocGlobal + Abort),
    old: &Checked,
    text: &str,
) -> Result<(), Fail> {
    let enclosing = enclosing(rt, text)?;
    let stmt = enclosed(&enclosing, text)?;
    for number in 1..=old.count() {
        assert_agreed(rt, old, number, stmt)?;
    }
    Ok(())
}

fn assert_all_agreed(rt: &(impl AllocGlobal + Abort), old: &Checked) -> Result<(), Fail> {
    for text in STATEMENTS.split("; ") {
        assert_agreed_anywhere(rt, old, text)?;
    }
    Ok(())
}

#[test]
fn agrees_with_the_check_of_the_whole(rt: HostRuntime) -> Result<(), Fail> {
    assert_all_agreed(&rt, &checked(&rt, FORMS)?)
}

#[test]
fn agrees_once_a_statement_was_changed(rt: HostRuntime) -> Result<(), Fail> {
    let old = checked(&rt, FORMS)?;
    for change in FIRST_CHANGES.split("; ") {
        assert_all_agreed(&rt, &changed(&rt, &old, change)?)?;
    }
    Ok(())
}

/// Compares whether the statement of a change fits.
fn assert_fits(
    rt: &(impl AllocGlobal + Abort),
    old: &Checked,
    change: &str,
    expected: bool,
) -> Result<(), Fail> {
    let (number, text) = number_and_text(change)?;
    let enclosing = enclosing(rt, text)?;
    let fits = old.fits(number, enclosed(&enclosing, text)?);
    assert_eq!(rt; fits, expected, "{change}");
    Ok(())
}

/// Compares for each of these changes whether its statement fits.
fn assert_all_fit(
    rt: &(impl AllocGlobal + Abort),
    changes: &str,
    expected: bool,
) -> Result<(), Fail> {
    let old = checked(rt, "SUBROUTINE S(K); LOGICAL P; DATA P/.TRUE./; K=1; END")?;
    for change in changes.split("; ") {
        assert_fits(rt, &old, change, expected)?;
    }
    Ok(())
}

#[test]
fn fits_where_the_group_is_the_same(rt: HostRuntime) -> Result<(), Fail> {
    assert_all_fit(&rt, FITTING, true)?;
    assert_all_fit(&rt, UNFITTING, false)
}

const FITTING: &str =
    "1 SUBROUTINE X(Y); 2 INTEGER I; 2 DIMENSION M(3); 3 DATA I/1/; 4 K=I; 4 GO TO 99; 4 DO 99 I=1,2; 4 IF (K) THEN; \
    4 END IF; 4 RETURN; 5 END";

const UNFITTING: &str =
    "1 K=I; 2 DATA I/1/; 2 K=I; 3 INTEGER I; 4 INTEGER I; 4 DATA I/1/; 4 SUBROUTINE X; 4 END; 5 K=I; 0 K=I; 6 K=I; \
    6 END";

/// Compares the text of a checked program with that of the program of these statements.
fn assert_printed(
    rt: &(impl AllocGlobal + Abort),
    checked: &Checked,
    statements: &str,
) -> Result<(), Fail> {
    let text = print(rt.alloc(), checked.program())?;
    let expected = print(rt.alloc(), &program(rt, statements)?)?;
    assert_eq!(rt; text.as_str(), expected.as_str());
    Ok(())
}

#[test]
fn keeps_the_changed_statement(rt: HostRuntime) -> Result<(), Fail> {
    let old = checked(&rt, ADD)?;
    assert_printed(
        &rt,
        &changed(&rt, &old, "2 K=I")?,
        "SUBROUTINE ADD(I,J,K); K=I; END",
    )?;
    assert_printed(&rt, &old, ADD)
}

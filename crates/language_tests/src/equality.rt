//! Which statements and programs are equal.

ghost use Rattle.std.specs.Prelude.{◌≡◌, ◌↔◌, true, map};
ghost use Rattle.f77_program.specs.Program.{line_of};

use f77_syntax::{Expr, Line, Program, Stmt};
use samples::{enclosing, parts, program};
use std::process::Abort;
use std::test::Fail;

/// A caller whose contract follows from that of `==`: the answer is true exactly where the lines are equal.
#[tactic(auto, using(f77_program::specs::SameLines::lines_decide))]
fn is_same(program: &Program, other: &Program) -> bool
    ensures { (result ≡ true) ↔ (map line_of program.now ≡ map line_of other.now) }
{
    program == other
}

/// Whether the programs of these two statements are equal.
fn are_same(rt: &impl AllocGlobal, left: &str, right: &str) -> Result<bool, Fail> {
    let program = enclosing(rt, left)?;
    let other = enclosing(rt, right)?;
    Ok(is_same(&program, &other))
}

/// Compares the programs of the two statements of a row.
fn assert_row(rt: &(impl AllocGlobal + Abort), row: &str, expected: bool) -> Result<(), Fail> {
    let (left, right) = parts(row)?;
    let same = are_same(rt, left, right)?;
    assert_eq!(rt; same, expected, "{row}");
    Ok(())
}

/// Compares the programs of each row.
fn assert_rows(rt: &(impl AllocGlobal + Abort), rows: &str, expected: bool) -> Result<(), Fail> {
    for row in rows.split("; ") {
        assert_row(rt, row, expected)?;
    }
    Ok(())
}

#[test]
fn compares_statements(rt: HostRuntime) -> Result<(), Fail> {
    assert_rows(&rt, UNEQUAL, false)?;
    assert_rows(&rt, EQUAL, true)
}

const UNEQUAL: &str =
    "K=1 => K=2; P=.TRUE. => P=.FALSE.; K=I => K=J; K=M(I) => K=M(J); K=M(I) => K=M(I,I); \
    K=MIN0(I,J) => K=MAX0(I,J); K=MOD(I,J) => K=MOD(I,I); K=-I => K=+I; K=-I => K=-J; P=.NOT.P => P=.NOT.Q; \
    K=I+J => K=I-J; K=I+J => K=J+J; K=I+J => K=I+I; K=I => K=1; INTEGERI => LOGICALI; INTEGERI => INTEGERJ; \
    INTEGERI => INTEGERI,J; DIMENSIONM(2) => DIMENSIONM(3); DIMENSIONM(2) => DIMENSIONN(2); DATAI/1/ => DATAJ/1/; \
    DATAI/1/ => DATAI/2/; DATAI/1/ => DATAI/2*1/; DATAP/.TRUE./ => DATAP/.FALSE./; K=1 => L=1; M(1)=1 => M(2)=1; \
    GOTO10 => GOTO20; GOTO(10,20),I => GOTO(10,10),I; GOTO(10,20),I => GOTO(10,20),J; \
    IF(I)10,20,30 => IF(J)10,20,30; IF(I)10,20,30 => IF(I)11,20,30; IF(I)10,20,30 => IF(I)10,21,30; \
    IF(I)10,20,30 => IF(I)10,20,31; IF(P)K=1 => IF(Q)K=1; IF(P)K=1 => IF(P)K=2; IF(P)THEN => IF(Q)THEN; \
    ELSEIF(P)THEN => ELSEIF(Q)THEN; DO10I=1,9 => DO20I=1,9; DO10I=1,9 => DO10J=1,9; DO10I=1,9 => DO10I=2,9; \
    DO10I=1,9 => DO10I=1,8; DO10I=1,9 => DO10I=1,9,1; DO10I=1,9,1 => DO10I=1,9,2; ELSE => ENDIF; ENDIF => ELSE; \
    CONTINUE => RETURN; RETURN => STOP; STOP => CONTINUE; IF(P)THEN => ELSEIF(P)THEN";

const EQUAL: &str =
    "K=(I) => K=I; M(I,-J)=MOD(I,3) => M(I,-J)=MOD(I,3); P=.NOT..TRUE. => P=.NOT..TRUE.; \
    INTEGERI,M(2,3) => INTEGERI,M(2,3); DIMENSIONM(2) => DIMENSIONM(2); DATAI,J/1,-2/ => DATAI,J/1,-2/; \
    GOTO10 => GOTO10; GOTO(10,20),I => GOTO(10,20),I; IF(I)10,20,30 => IF(I)10,20,30; IF(P)K=1 => IF(P)K=1; \
    IF(P)THEN => IF(P)THEN; ELSEIF(P)THEN => ELSEIF(P)THEN; ELSE => ELSE; ENDIF => ENDIF; \
    DO10I=1,9,2 => DO10I=1,9,2; CONTINUE => CONTINUE; RETURN => RETURN; STOP => STOP";

/// Whether the program is that of the statements of a row.
fn is_program(rt: &impl AllocGlobal, made: &Program, row: &str) -> Result<bool, Fail> {
    let other = program(rt, row)?;
    Ok(is_same(made, &other))
}

/// Whether a copy of the program is equal to it.
fn is_same_as_copy(made: &Program) -> Result<bool, Fail> {
    let copy = made.clone()?;
    Ok(is_same(made, &copy))
}

/// The program is not that of the statements of a row.
fn assert_other(rt: &(impl AllocGlobal + Abort), made: &Program, row: &str) -> Result<(), Fail> {
    let same = is_program(rt, made, row)?;
    assert!(rt; !same, "{row}");
    Ok(())
}

/// Compares the program with each of the others, none of which is equal, and with a copy of it.
fn assert_others(
    rt: &(impl AllocGlobal + Abort),
    made: &Program,
    others: &str,
) -> Result<(), Fail> {
    for row in others.trim_matches('\n').lines() {
        assert_other(rt, made, row)?;
    }
    let same = is_same_as_copy(made)?;
    assert!(rt; same);
    Ok(())
}

#[test]
fn compares_headings_and_lines(rt: HostRuntime) -> Result<(), Fail> {
    let made = program(&rt, "SUBROUTINE ADD(I); 10 STOP; END")?;
    assert_others(&rt, &made, OTHERS)
}

const OTHERS: &str = "
SUBROUTINE SUB(I); 10 STOP; END
SUBROUTINE ADD(J); 10 STOP; END
SUBROUTINE ADD(I); 20 STOP; END
SUBROUTINE ADD(I); STOP; END
SUBROUTINE ADD(I); END
";

/// Whether two values are equal. Both are dropped.
fn are_equal<T: PartialEq + Drop>(one: T, other: T) -> bool {
    one == other
}

/// END with this label, on the line with this number.
fn end(label: Option<u32>, line: u32) -> Line {
    Line {
        label,
        stmt: Stmt::End,
        line,
    }
}

/// Whether END with this label, on the line with this number, is equal to END with label 10 on line 3.
fn is_end(label: Option<u32>, line: u32) -> bool {
    are_equal(end(Some(10), 3), end(label, line))
}

#[test]
fn compares_lines(rt: HostRuntime) {
    assert!(rt; is_end(Some(10), 3));
    assert!(rt; !is_end(None, 3));
    assert!(rt; !is_end(Some(10), 4));
}

/// ZPUSH of a constant.
fn pushed(rt: &impl AllocGlobal, value: u32) -> Result<Expr, Fail> {
    Ok(Expr::ZeroPush(Box::new(rt.alloc(), Expr::Number(value))?))
}

/// Whether ZPUSH of this constant and ZPUSH(1) are equal.
fn is_pushed_one(rt: &impl AllocGlobal, value: u32) -> Result<bool, Fail> {
    let one = pushed(rt, 1)?;
    let other = pushed(rt, value)?;
    Ok(are_equal(one, other))
}

#[test]
fn compares_expressions_of_mutants(rt: HostRuntime) -> Result<(), Fail> {
    let one = is_pushed_one(&rt, 1)?;
    let two = is_pushed_one(&rt, 2)?;
    let number = are_equal(pushed(&rt, 1)?, Expr::Number(1));
    assert!(rt; one && !two && !number, "{one} {two} {number}");
    Ok(())
}

#[test]
fn compares_statements_of_mutants(rt: HostRuntime) {
    assert!(rt; are_equal(Stmt::Trap, Stmt::Trap));
    assert!(rt; !are_equal(Stmt::Trap, Stmt::End));
    assert!(rt; !are_equal(Stmt::End, Stmt::Stop));
}

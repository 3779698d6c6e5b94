//! Copies of programs and statements, which print as their originals do.

ghost use Rattle.std.specs.Prelude.{◌≡◌, IfOk, IfErr, map};
ghost use Rattle.f77_program.specs.Program.{line_of};
ghost use Rattle.f77_tree.specs.Statement.{statement_of};

use crate::trees::{lines_of, printed, pushing, put, reprinted, unit_text};
use f77_syntax::{Program, Stmt, SyntaxFault};
use samples::{expect, read, source};
use std::test::Fail;

/// A caller whose contract follows from that of `clone`: it knows the lines of the copy, and the only fault.
fn copy_program(program: &Program) -> Result<Program, SyntaxFault>
    ensures same { IfOk result (λ copy. map line_of copy ≡ map line_of program.now) }
    ensures refused { IfErr result (λ fault. fault ≡ SyntaxFault.Memory) }
{
    Ok(program.clone()?)
}

/// A caller of `clone` for a statement.
fn copy_statement(stmt: &Stmt) -> Result<Stmt, SyntaxFault>
    ensures same { IfOk result (λ copy. statement_of copy ≡ statement_of stmt.now) }
    ensures refused { IfErr result (λ fault. fault ≡ SyntaxFault.Memory) }
{
    Ok(stmt.clone()?)
}

const STATEMENTS: &str = "SUBROUTINE ALL(I,J,P); INTEGER I,M(2,3); LOGICAL P,Q; DIMENSION K(4); \
    DATA L,K/1,4*-3/,Q/.TRUE./; M(I,J+1)=MOD(I,3)-(-J)**2; P=.NOT.P.AND..FALSE..OR.I.LT.J; \
    GO TO 10; GO TO (10,20,10),I-J; IF (I-J) 10,20,30; IF (P) K(3)=IABS(L); IF (P) THEN; ELSE IF (I.GT.J) THEN; ELSE; \
    END IF; DO 20 I=1,9; DO 10 J=9,1,-2; 10 CONTINUE; 20 RETURN; 99999 STOP; END";

/// A copy of a program in fixed form. The program itself is dropped.
fn copy_of(rt: &impl AllocGlobal, lines: &str) -> Result<Program, Fail> {
    let program = read(rt, lines)?;
    Ok(copy_program(&program)?)
}

/// The copy of a program whose original is dropped, printed.
fn copied(rt: &impl AllocGlobal, lines: &str) -> Result<String, Fail> {
    let copy = copy_of(rt, lines)?;
    reprinted(rt, &copy)
}

#[test]
fn copies_every_statement(rt: HostRuntime) -> Result<(), Fail> {
    let lines = source(&rt, STATEMENTS)?;
    expect(copied(&rt, lines.as_str()), lines.as_str(), STATEMENTS)
}

/// The unit with the copy of a statement, printed after the statement is dropped.
fn copied_statement(rt: &impl AllocGlobal, stmt: Stmt) -> Result<String, Fail> {
    let copy = copy_statement(&stmt);
    drop(stmt);
    unit_text(rt, None, copy?)
}

/// Compares the unit with the copy of a statement.
fn assert_copied(rt: &impl AllocGlobal, stmt: Stmt, expected: &str) -> Result<(), Fail> {
    expect(copied_statement(rt, stmt), expected, "copy")
}

#[test]
fn copies_statements_of_mutants(rt: HostRuntime) -> Result<(), Fail> {
    let trap = "      SUBROUTINE A\n      TRAP\n      END\n";
    assert_copied(&rt, Stmt::Trap, trap)?;
    let pushed = "      SUBROUTINE A\n      K=ZPUSH(1)\n      END\n";
    assert_copied(&rt, pushing(&rt)?, pushed)
}

/// A copy of the program, with TRAP as its second statement, printed.
fn trapped(rt: &impl AllocGlobal, program: &Program) -> Result<String, Fail> {
    let copy = program.clone()?;
    let mut changed = lines_of(rt, &copy)?;
    put(&mut changed, 1, Stmt::Trap);
    printed(rt, changed)
}

const LABELLED: &str = "      SUBROUTINE A(I)\n   10 I=1\n      END\n";

/// Compares the changed copy of a program, and then the program itself.
fn assert_kept(rt: &impl AllocGlobal, program: &Program) -> Result<(), Fail> {
    let changed = "      SUBROUTINE A(I)\n   10 TRAP\n      END\n";
    expect(trapped(rt, program), changed, "changed")?;
    expect(reprinted(rt, program), LABELLED, "kept")
}

#[test]
fn keeps_what_a_changed_copy_was_made_from(rt: HostRuntime) -> Result<(), Fail> {
    let program = read(&rt, LABELLED)?;
    assert_kept(&rt, &program)
}

//! Programs with one statement changed. A case is a program, a change, and rows: arguments, a limit on steps and an
//! answer. The answer is the outcome of the changed program, or whether the change is noticed by a run that begins
//! where the two runs part.

use crate::runs::{Run, assert_outcome, halves, run_of};
use f77_check::Checked;
use f77_meaning::Outcome;
use f77_run::{ChangedRunner, Runner, run};
use f77_tree::Stmt;
use samples::{changed, checked, enclosed, enclosing, number_and_text};
use std::process::Abort;
use std::test::Fail;

/// Whether the outcome with the change is another one. None where the changed statement alone does not decide. `room`
/// limits how many numbers are kept of the program's own run.
fn is_noticed(
    rt: &impl AllocGlobal,
    old: &Checked,
    number: usize,
    stmt: &Stmt,
    row: &Run<'_>,
    room: usize,
) -> Result<Option<bool>, Fail> {
    if !old.fits(number, stmt) {
        return Err(Fail::new("the statement does not fit"));
    }
    if !old.judge(number, stmt)? {
        return Ok(None);
    }
    let mut room = room;
    let mut own = Runner::of(rt.alloc(), old)?;
    let trace = own.trace(rt.alloc(), &row.arguments, row.steps, &mut room)?;
    let mut runner = ChangedRunner::of(rt.alloc(), old)?;
    runner.change(number, stmt)?;
    let same = runner.comes_to(&trace.visits, &row.arguments, row.steps, &trace.outcome)?;
    Ok(Some(!same))
}

fn word_of(noticed: Option<bool>) -> &'static str {
    match noticed {
        Some(true) => "noticed",
        Some(false) => "same",
        None => "not alone",
    }
}

/// The answer to a change, with this room.
fn answer(
    rt: &impl AllocGlobal,
    old: &Checked,
    change: &str,
    row: &Run<'_>,
    room: usize,
) -> Result<&'static str, Fail> {
    let (number, text) = number_and_text(change)?;
    let enclosing = enclosing(rt, text)?;
    let stmt = enclosed(&enclosing, text)?;
    Ok(word_of(is_noticed(rt, old, number, stmt, row, room)?))
}

fn outcome(rt: &impl AllocGlobal, checked: &Checked, row: &Run<'_>) -> Result<Outcome, Fail> {
    Ok(run(rt.alloc(), checked, &row.arguments, row.steps)?)
}

/// The answer from the outcomes of the two programs, each run from its start.
fn answer_by_runs(
    rt: &impl AllocGlobal,
    old: &Checked,
    new: &Checked,
    row: &Run<'_>,
) -> Result<&'static str, Fail> {
    let same = outcome(rt, old, row)? == outcome(rt, new, row)?;
    Ok(word_of(Some(!same)))
}

/// The answer is the same if no state is kept, if one or a few are, and if all are.
fn assert_answers(
    rt: &(impl AllocGlobal + Abort),
    old: &Checked,
    change: &str,
    row: &Run<'_>,
) -> Result<(), Fail> {
    for room in [0, 3, 8, 1000] {
        let answer = answer(rt, old, change, row, room)?;
        assert_eq!(rt; answer, row.answer, "{change}: {} with {room}", row.row);
    }
    Ok(())
}

fn assert_row(
    rt: &(impl AllocGlobal + Abort),
    old: &Checked,
    new: &Checked,
    change: &str,
    row: &Run<'_>,
) -> Result<(), Fail> {
    match row.answer {
        "noticed" | "same" => {
            assert_eq!(rt;
                answer_by_runs(rt, old, new, row)?,
                row.answer,
                "{change}: {}",
                row.row
            );
            assert_answers(rt, old, change, row)
        }
        "not alone" => assert_answers(rt, old, change, row),
        _ => assert_outcome(rt, row, &outcome(rt, new, row)?),
    }
}

fn assert_rows(
    rt: &(impl AllocGlobal + Abort),
    old: &Checked,
    change: &str,
    rows: &str,
) -> Result<(), Fail> {
    let new = changed(rt, old, change)?;
    for row in rows.lines() {
        assert_row(rt, old, &new, change, &run_of(rt, row)?)?;
    }
    Ok(())
}

fn assert_case(rt: &(impl AllocGlobal + Abort), case: &str) -> Result<(), Fail> {
    let (statements, rest) = halves(case, "\n")?;
    let (change, rows) = halves(rest, "\n")?;
    assert_rows(rt, &checked(rt, statements)?, change, rows)
}

#[test]
fn come_to_what_runs_from_the_start_come_to(rt: HostRuntime) -> Result<(), Fail> {
    for case in CASES.trim_matches('\n').split("\n\n") {
        assert_case(&rt, case)?;
    }
    Ok(())
}

const CASES: &str = "
SUBROUTINE ADD(I,J,K); K=I+J; END
2 K=I-J
2 3 0 within 9 => Returned 2 3 -1

SUBROUTINE LOOP(N,K); K=0; IF (N.LT.0) GO TO 20; DO 10 I=1,N; 10 K=K+I; 20 K=K+1; 30 RETURN; END
5 K=K+2*I
3 0 within 20 => Returned 3 13

SUBROUTINE LOOP(N,K); K=0; IF (N.LT.0) GO TO 20; DO 10 I=1,N; 10 K=K+I; 20 K=K+1; 30 RETURN; END
3 GO TO (20,30),N
2 9 within 20 => Returned 2 0

SUBROUTINE S(K); LOGICAL P; INTEGER M(3); DATA P/.TRUE./,M/3*1/; IF (P) K=M(1); END
4 DATA P/.TRUE./,M/5,6,7/
0 within 9 => Returned 5

SUBROUTINE S(K); LOGICAL P; INTEGER M(3); DATA P/.TRUE./,M/3*1/; IF (P) K=M(1); END
5 IF (P) K=-M(3)
0 within 9 => Returned -1

SUBROUTINE S(N,K); K=0; DO 10 I=1,N; IF (I.LT.7) K=K+I; 10 CONTINUE; END
4 IF (I.LT.8) K=K+I
0 0 within 100 => same
6 0 within 100 => same
7 0 within 100 => noticed
6 0 within 20 => same
7 0 within 23 => same
7 0 within 24 => noticed
9 0 within 3 => same

SUBROUTINE S(N,K); K=0; DO 10 I=1,N; IF (I.LT.7) K=K+I; 10 CONTINUE; END
3 DO 10 I=1,N+1
7 0 within 23 => same
7 0 within 24 => noticed
7 0 within 26 => noticed
7 0 within 27 => same
6 0 within 100 => same
5 0 within 100 => noticed
-1 0 within 5 => same

SUBROUTINE T(K); IF (K.LT.0) GO TO 10; K=1/K; RETURN; 10 K=K+1; END
3 K=1/(K-1)
-5 within 9 => same
0 within 9 => noticed
1 within 9 => noticed
3 within 9 => same
2 within 9 => noticed
2 within 1 => same

SUBROUTINE T(K); IF (K.LT.0) GO TO 10; K=1/K; RETURN; 10 K=K+1; END
3 K=1/L
0 within 9 => not alone

SUBROUTINE T(K); IF (K.GT.0) L=5; K=1/K; END
3 K=1/L
0 within 9 => noticed
-1 within 9 => noticed
1 within 9 => noticed
5 within 9 => same

SUBROUTINE W(K); 10 K=K+1; IF (K.LT.20) GO TO 10; K=0; END
3 IF (K.LT.30) GO TO 10
5 within 900 => same
5 within 40 => noticed
25 within 900 => same
25 within 5 => noticed
25 within 3 => same

SUBROUTINE W(K); 10 K=K+1; IF (K.LT.20) GO TO 10; K=0; END
2 10 K=K
5 within 100000 => noticed
20 within 100000 => same
20 within 2 => same

SUBROUTINE P(K,L); DATA M/4/; K=M; DO 10 J=1,3; L=J; 10 CONTINUE; END
2 DATA M/5/
0 0 within 50 => not alone

SUBROUTINE P(K,L); DATA M/4/; K=M; DO 10 J=1,3; L=J; 10 CONTINUE; END
5 RETURN
0 0 within 50 => noticed
0 3 within 50 => same
";

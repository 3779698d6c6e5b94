//! Programs whose outcomes are known from the rules of the language. A case is a program and the rows below it. A row
//! is arguments, a limit on steps, and the outcome that all have: the model, `run`, and one runner that makes the runs
//! of all rows, each as if it were the first.

use crate::comparing::agreed;
use crate::runs::{Run, assert_outcome, halves, outcome_of, run_of};
use f77_check::Checked;
use f77_meaning::{Outcome, RunFault};
use f77_run::{Runner, run};
use samples::{checked, parts};
use std::test::Fail;

/// The longest run of the model and of `trace`, neither of which finds that a run never ends.
const MOST: u32 = 1_000;

fn outcome(rt: &impl AllocGlobal, checked: &Checked, row: &Run<'_>) -> Result<Outcome, Fail> {
    if row.steps > MOST {
        return Ok(run(rt.alloc(), checked, &row.arguments, row.steps)?);
    }
    agreed(rt, row.row, checked, &row.arguments, row.steps)
}

/// The outcome of a run from the start.
fn assert_run(rt: &impl AllocGlobal, checked: &Checked, row: &Run<'_>) -> Result<(), Fail> {
    let outcome = outcome(rt, checked, row)?;
    assert_outcome(rt, row, &outcome)
}

/// Compares the outcome that `trace` gives. No state is kept.
fn assert_trace(rt: &impl AllocGlobal, runner: &mut Runner<'_>, row: &Run<'_>) -> Result<(), Fail> {
    if row.steps > MOST {
        return Ok(());
    }
    let mut room = 0;
    let trace = runner.trace(rt.alloc(), &row.arguments, row.steps, &mut room)?;
    assert_outcome(rt, row, &trace.outcome)
}

fn comes_to(
    rt: &impl AllocGlobal,
    runner: &mut Runner<'_>,
    row: &Run<'_>,
    text: &str,
) -> Result<Result<bool, RunFault>, Fail> {
    let outcome = outcome_of(rt, text)?;
    Ok(runner.comes_to(&row.arguments, row.steps, &outcome))
}

/// `comes_to` says no for the outcome of another row, unless the two outcomes are equal.
fn assert_comes_to(
    rt: &impl AllocGlobal,
    runner: &mut Runner<'_>,
    row: &Run<'_>,
    other: &str,
) -> Result<(), Fail> {
    let (_, answer) = parts(other)?;
    if comes_to(rt, runner, row, answer)?? == (answer == row.answer) {
        return Ok(());
    }
    let text = row.row;
    Err(Fail::new(format_args!("{text:?} and {answer:?}")))
}

fn assert_row(
    rt: &impl AllocGlobal,
    checked: &Checked,
    runner: &mut Runner<'_>,
    row: &Run<'_>,
    rows: &str,
) -> Result<(), Fail> {
    assert_run(rt, checked, row)?;
    assert_trace(rt, runner, row)?;
    for other in rows.lines() {
        assert_comes_to(rt, runner, row, other)?;
    }
    Ok(())
}

/// Compares the rows of one program in their order, and then in the opposite one.
fn assert_rows(
    rt: &impl AllocGlobal,
    checked: &Checked,
    runner: &mut Runner<'_>,
    rows: &str,
) -> Result<(), Fail> {
    for row in rows.lines().chain(rows.lines().rev()) {
        assert_row(rt, checked, runner, &run_of(rt, row)?, rows)?;
    }
    Ok(())
}

fn assert_case(rt: &impl AllocGlobal, case: &str) -> Result<(), Fail> {
    let (statements, rows) = halves(case, "\n")?;
    let checked = checked(rt, statements)?;
    let mut runner = Runner::of(rt.alloc(), &checked)?;
    assert_rows(rt, &checked, &mut runner, rows)
}

#[test]
fn outcomes_are_those_of_the_language(rt: HostRuntime) -> Result<(), Fail> {
    for case in CASES.trim_matches('\n').split("\n\n") {
        assert_case(&rt, case)?;
    }
    Ok(())
}

// In the fifth a variable has a value in some runs alone, and in the next an element with a value of DATA is changed.
// In the seventh DOs are active at the end of a run: an inner one that were still active would make passes where the
// outer one makes none. Of the last runs some have no end, and some come to states to which other runs came.
const CASES: &str = "
SUBROUTINE ADD(I,J,K); K=I+J; END
2 3 0 within 2 => Returned 2 3 5
-2 3 9 within 2 => Returned -2 3 1
2 3 6 within 1 => StepLimit

SUBROUTINE S(M,L,K); INTEGER M(3); LOGICAL L(2); M(K)=7; L(1)=.NOT.L(2); END
(1,2,3) (true,false) 2 within 9 => Returned (1,7,3) (true,false) 2
(1,2,3) (true,false) 3 within 9 => Returned (1,2,7) (true,false) 3
(1,2,3) (true,true) 2 within 9 => Returned (1,7,3) (false,true) 2
(1,2,3) (true,false) 4 within 9 => BadSubscript

SUBROUTINE S(I,K); K=I; IF (I.GT.2) STOP; END
3 0 within 9 => Stopped 3 3
3 0 within 1 => StepLimit
2 0 within 9 => Returned 2 2

SUBROUTINE S(I,K); INTEGER M(3); IF (I.EQ.1) K=K*K; IF (I.EQ.2) K=K/(I-2); IF (I.EQ.3) K=(I-3)**(I-3); IF (I.EQ.4) K=M(I); IF (I.EQ.5) K=M(I-3); IF (I.LT.6) RETURN; L=I-6; DO 10 J=1,2,L; 10 CONTINUE; END
1 99999 within 99 => Overflow
1 3 within 99 => Returned 1 9
2 9 within 99 => DivideByZero
3 9 within 99 => ZeroPower
4 9 within 99 => BadSubscript
5 9 within 99 => Undefined
6 9 within 99 => ZeroStep
7 9 within 99 => Returned 7 9
7 9 within 3 => StepLimit
7 9 within 0 => StepLimit

SUBROUTINE S(K); IF (K.EQ.0) L=5; K=L; END
1 within 9 => Undefined
0 within 9 => Returned 5
1 within 9 => Undefined

SUBROUTINE S(K); INTEGER M(2); DATA M/3,4/; M(2)=M(2)+K; K=M(2); END
1 within 9 => Returned 5
2 within 9 => Returned 6

SUBROUTINE S(N,M,K,L); DO 20 I=1,N; DO 20 J=1,M; K=K+1; IF (K.GT.L) RETURN; 20 CONTINUE; END
2 200 0 100 within 1000 => Returned 2 200 101 100
0 200 7 100 within 1000 => Returned 0 200 7 100
2 200 0 100 within 200 => StepLimit

SUBROUTINE S(K); 10 K=K+1; IF (K.LT.100) GO TO 10; END
0 within 1000 => Returned 100
0 within 1000 => Returned 100
50 within 1000 => Returned 100

SUBROUTINE S(K); 10 K=1-K; IF (K.LT.2) GO TO 10; END
0 within 4294967295 => StepLimit
5 within 4294967295 => Returned 5
0 within 0 => StepLimit
0 within 1000000 => StepLimit
-5 within 1000000 => Returned 6

SUBROUTINE S(K); 10 K=1-K; GO TO 10; END
0 within 0 => StepLimit
0 within 4294967295 => StepLimit

SUBROUTINE LOOP(N,K); K=0; IF (N.LT.0) GO TO 20; DO 10 I=1,N; 10 K=K+I; 20 K=K+1; 30 RETURN; END
3 0 within 11 => Returned 3 7
3 0 within 0 => StepLimit
0 0 within 0 => StepLimit
";

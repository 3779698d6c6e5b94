//! Benches with one test, the rows of all their mutants, and their reports, all made by one thread.

ghost use Rattle.mothra_exchange.specs.Table.{IsPassOf};

use f77_meaning::Values;
use mothra_bench::{Bench, BenchFault, Row, Verdicts, collect, render};
use mothra_exchange::{Gate, Pass, TableExchange, Tally, Ticket};
use mothra_ops::{Op, Plan};
use samples::{ADD, checked, repeated, suite};
use std::test::Fail;

fn plan(rt: &impl AllocGlobal, statements: &str, ops: &[Op]) -> Result<Plan, Fail> {
    Ok(Plan::new(rt.alloc(), checked(rt, statements)?, ops, 1)?)
}

/// The bench of these statements, separated by `; `, with these operators and declared mutants; or its fault.
pub(crate) fn bench(
    rt: &impl AllocGlobal,
    statements: &str,
    ops: &[Op],
    declared: &[Ticket],
) -> Result<Result<Bench, BenchFault>, Fail> {
    let tests = suite(rt, "2 3 0;")?;
    if tests.as_slice().len() > 256 {
        return Err(Fail::new("there are too many tests"));
    }
    let declared = Values::new(declared.to_vec(rt.alloc())?);
    let plan = plan(rt, statements, ops)?;
    Ok(Bench::new(rt.alloc(), plan, tests, 10_000, declared))
}

/// All operators on the sum of two numbers: 33 mutants.
pub(crate) fn sum_bench(rt: &impl AllocGlobal) -> Result<Bench, Fail> {
    Ok(bench(rt, ADD, &Op::ALL, &[])??)
}

/// The bench of `times` sums after a RETURN, with these operators.
pub(crate) fn sums(rt: &impl AllocGlobal, times: usize, ops: &[Op]) -> Result<Bench, Fail> {
    let front = "SUBROUTINE MANY(I,J,K); RETURN";
    let statements = repeated(rt, front, times, "; K=I+J", "; END")?;
    Ok(bench(rt, statements.as_str(), ops, &[])??)
}

/// Offers and takes `count` tickets of an operator.
fn hand_out(exchange: &TableExchange<64>, pass: &mut Pass, op: Op, count: u32)
    requires { IsPassOf exchange.now pass.old }
    ensures { IsPassOf exchange.now pass.new }
{
    for before in 0..count {
        exchange.try_offer(
            pass,
            Ticket {
                op,
                number: before + 1,
            },
        );
        exchange.try_take(pass, op);
    }
}

/// The tally of an exchange that handed out all tickets of each operator.
pub(crate) fn tally(rt: &impl AllocGlobal, counts: [u32; 22]) -> Result<Tally, Fail> {
    let (exchange, mut pass) = TableExchange::<64>::new(rt.alloc(), counts)?;
    for op in Op::ALL {
        hand_out(&exchange, &mut pass, op, counts[op.index()]);
    }
    Ok(exchange.finish(pass))
}

fn rows_by(
    rt: &impl AllocGlobal,
    bench: &Bench,
    verdicts: &mut Verdicts<'_>,
) -> Result<Vec<Row>, Fail> {
    let mut rows = Vec::new(rt.alloc());
    for ticket in bench.plan().tickets(rt.alloc())? {
        rows.push(verdicts.row(rt.alloc(), ticket)?)?;
    }
    Ok(rows)
}

/// The row of each mutant, by operator and number.
pub(crate) fn rows(rt: &impl AllocGlobal, bench: &Bench) -> Result<Vec<Row>, Fail> {
    let mut verdicts = Verdicts::of(rt.alloc(), bench)?;
    rows_by(rt, bench, &mut verdicts)
}

/// The report of a bench.
pub(crate) fn report(rt: &impl AllocGlobal, bench: &Bench) -> Result<String, Fail> {
    let tally = tally(rt, bench.plan().counts())?;
    let matrix = collect(rt.alloc(), bench, &tally, rows(rt, bench)?)?;
    Ok(render(rt.alloc(), bench, &matrix)?)
}

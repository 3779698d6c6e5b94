//! Tests of benches and scores that no job can show.

use crate::benches::{bench, tally};
use f77_meaning::Values;
use mothra_bench::{Bench, BenchFault, Row, collect};
use mothra_exchange::Ticket;
use mothra_ops::Op;
use samples::{ADD, repeated};
use std::process::Abort;
use std::test::Fail;

const NONE: Ticket = Ticket {
    op: Op::Abs,
    number: 0,
};

/// The fault of a bench of ABS with this declared mutant.
fn fault(rt: &impl AllocGlobal, declared: Ticket) -> Result<Option<BenchFault>, Fail> {
    Ok(bench(rt, ADD, &[Op::Abs], &[declared])?.err())
}

/// An entry with number 0 names no mutant. It is passed over where its operator was not asked for.
#[test]
fn number_0_is_no_mutant(rt: HostRuntime) -> Result<(), Fail> {
    assert_eq!(rt; fault(&rt, NONE)?, Some(BenchFault::EquivalentUnknown(1)));
    let other = Ticket {
        op: Op::Uoi,
        number: 0,
    };
    assert_eq!(rt; fault(&rt, other)?, None);
    Ok(())
}

fn killed(rt: &impl AllocGlobal, ticket: Ticket, kill: bool) -> Result<Row, Fail> {
    let mut kills = Vec::new(rt.alloc());
    kills.push(kill)?;
    Ok(Row {
        ticket,
        kills: Values::new(kills),
    })
}

/// Rows in which the test kills every mutant but the first.
fn all_but_one(rt: &impl AllocGlobal, bench: &Bench) -> Result<Vec<Row>, Fail> {
    let mut rows = Vec::new(rt.alloc());
    for ticket in bench.plan().tickets(rt.alloc())? {
        let kill = !rows.is_empty();
        rows.push(killed(rt, ticket, kill)?)?;
    }
    Ok(rows)
}

/// The score where every mutant but the first is killed.
fn score_but_one(rt: &impl AllocGlobal, bench: &Bench) -> Result<Option<u32>, Fail> {
    let tally = tally(rt, bench.plan().counts())?;
    let rows = all_but_one(rt, bench)?;
    if rows.len() <= 10_000 {
        return Err(Fail::new("there are too few mutants"));
    }
    Ok(collect(rt.alloc(), bench, &tally, rows)?.score())
}

#[test]
fn are_below_one_hundred_percent_while_one_survives(rt: HostRuntime) -> Result<(), Fail> {
    let statements = repeated(&rt, "SUBROUTINE ADD(I,J,K)", 400, "; K=I+J", "; END")?;
    let bench = bench(&rt, statements.as_str(), &Op::ALL, &[])??;
    assert_eq!(rt; score_but_one(&rt, &bench)?, Some(9999));
    Ok(())
}

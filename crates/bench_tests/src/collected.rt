//! Tests of `collect`. A line of the table says how the rows of all mutants are changed, and after ` => ` what they
//! give then.

use crate::benches::{rows, sum_bench, tally};
use f77_meaning::Values;
use mothra_bench::{Bench, BenchFault, Matrix, Row, collect, verdict_of};
use mothra_exchange::{Tally, Ticket};
use mothra_ops::Op;
use samples::{expect, parts};
use std::test::Fail;

/// A change is `reversed`, `without the last`, or a row that is added: its ticket, and a digit or `-` for no tests.
const ROWS: &str = "
 => 33 entries from ABS 1 to UOI 9
reversed => 33 entries from ABS 1 to UOI 9
ABS 1 1 => Double(Ticket { op: Abs, number: 1 })
UOI 9 1; ABS 1 1 => Double(Ticket { op: Uoi, number: 9 })
ABS 10 1 => Stranger(Ticket { op: Abs, number: 10 })
ABS 0 1 => Stranger(Ticket { op: Abs, number: 0 })
AAR 1 1 => Stranger(Ticket { op: Aar, number: 1 })
ABS 1 - => Stranger(Ticket { op: Abs, number: 1 })
without the last => Missing(Ticket { op: Uoi, number: 9 })
without the last; without the last => Missing(Ticket { op: Uoi, number: 8 })
ABS 1 1; ABS 10 1 => Stranger(Ticket { op: Abs, number: 10 })
without the last; ABS 1 1 => Double(Ticket { op: Abs, number: 1 })
without the last; ABS 10 1 => Stranger(Ticket { op: Abs, number: 10 })
";

/// The ticket of a text such as `ABS 3`.
fn ticket(text: &str) -> Result<Ticket, Fail> {
    let Some((code, number)) = text.split_once(' ') else {
        return Err(Fail::new("a ticket is a code and a number"));
    };
    match Op::of(code) {
        Some(op) => Ok(Ticket {
            op,
            number: number.parse()?,
        }),
        None => Err(Fail::new("no operator has this code")),
    }
}

/// The row of a text such as `ABS 1 1`.
fn row(rt: &impl AllocGlobal, text: &str) -> Result<Row, Fail> {
    let Some((written, digits)) = text.rsplit_once(' ') else {
        return Err(Fail::new("a row is a ticket and digits"));
    };
    let ticket = ticket(written)?;
    let mut kills = Vec::new(rt.alloc());
    if digits != "-" {
        kills.push(digits == "1")?;
    }
    Ok(Row {
        ticket,
        kills: Values::new(kills),
    })
}

fn change(rt: &impl AllocGlobal, rows: &mut Vec<Row>, change: &str) -> Result<(), Fail> {
    match change {
        "" => {}
        "reversed" => rows.reverse(),
        "without the last" => {
            rows.pop();
        }
        text => rows.push(row(rt, text)?)?,
    }
    Ok(())
}

/// The rows of all mutants, changed.
fn changed(rt: &impl AllocGlobal, bench: &Bench, changes: &str) -> Result<Vec<Row>, Fail> {
    let mut rows = rows(rt, bench)?;
    for text in changes.split("; ") {
        change(rt, &mut rows, text)?;
    }
    Ok(rows)
}

fn entries(rt: &impl AllocGlobal, matrix: &Matrix) -> Result<String, Fail> {
    let count = matrix.entries().len();
    let first = matrix.entries().first().ok_or("no entry")?.ticket;
    let last = matrix.entries().last().ok_or("no entry")?.ticket;
    let (from, to) = (first.op.code(), last.op.code());
    let text = format!(in rt.alloc();
        "{count} entries from {from} {} to {to} {}",
        first.number, last.number
    )?;
    Ok(text)
}

fn matrix_text(rt: &impl AllocGlobal, matrix: &Result<Matrix, BenchFault>) -> Result<String, Fail> {
    match matrix {
        Ok(matrix) => entries(rt, matrix),
        Err(fault) => Ok(format!(in rt.alloc(); "{fault:?}")?),
    }
}

fn collected(
    rt: &impl AllocGlobal,
    bench: &Bench,
    tally: &Tally,
    changes: &str,
) -> Result<String, Fail> {
    let rows = changed(rt, bench, changes)?;
    matrix_text(rt, &collect(rt.alloc(), bench, tally, rows))
}

fn assert_collected(
    rt: &impl AllocGlobal,
    bench: &Bench,
    tally: &Tally,
    rows: &str,
) -> Result<(), Fail> {
    for row in rows.trim_matches('\n').lines() {
        let (changes, expected) = parts(row)?;
        expect(collected(rt, bench, tally, changes), expected, row)?;
    }
    Ok(())
}

/// Collects rows after an exchange handed out all tickets, and after one handed out those of ABS without the last.
fn assert_all(rt: &impl AllocGlobal, bench: &Bench) -> Result<(), Fail> {
    assert_collected(rt, bench, &tally(rt, bench.plan().counts())?, ROWS)?;
    let mut short = [0u32; 22];
    short[Op::Abs.index()] = 8;
    let missing = " => Missing(Ticket { op: Abs, number: 9 })";
    assert_collected(rt, bench, &tally(rt, short)?, missing)
}

#[test]
fn are_one_for_each_mutant_that_was_handed_out(rt: HostRuntime) -> Result<(), Fail> {
    let bench = sum_bench(&rt)?;
    assert_all(&rt, &bench)
}

#[test]
fn no_verdict_is_computed_for_a_stranger(rt: HostRuntime) -> Result<(), Fail> {
    let stranger = ticket("ABS 10")?;
    let bench = sum_bench(&rt)?;
    let fault = verdict_of(rt.alloc(), &bench, stranger).err();
    assert_eq!(rt; fault, Some(BenchFault::Stranger(stranger)));
    Ok(())
}

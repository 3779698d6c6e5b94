//! The rows of all mutants are put in order and compared with the plan.

ghost use Rattle.std.specs.Prelude.{◌↔◌, All, IfOk, IfErr, IsTrue, MatchOption};
ghost use Rattle.mothra_bench.specs.{AreCollected, IsFirstStranger, IsKnown, IsNoMatrix};

use crate::entries::entries_of;
use crate::matrix::Matrix;
use crate::row_map::RowMap;
use mothra_exchange::{Tally, Ticket};
use mothra_verdicts::{Bench, BenchFault, Row};
use std::alloc::Global;

/// Whether the row is that of a mutant of the plan, with a truth value for each test.
fn is_known(bench: &Bench, row: &Row) -> bool
    ensures { IsTrue result ↔ IsKnown bench.now row.now }
{
    let number = row.ticket.number;
    1 <= number
        && number <= bench.plan().count(row.ticket.op)
        && row.kills.as_slice().len() == bench.tests().len()
}

/// The ticket of the first row that is of no mutant of the plan, or does not have a truth value for each test.
fn first_stranger(bench: &Bench, rows: &[Row]) -> Option<Ticket>
    ensures { MatchOption result (All (IsKnown bench.now) rows.now) (IsFirstStranger bench.now rows.now) }
{
    for row in rows {
        if !is_known(bench, row) {
            return Some(row.ticket);
        }
    }
    None
}

/// The matrix of the rows: one entry for each mutant of the plan.
///
/// Of several faults the first in this order is reported: B8 at the first row that is of no mutant of the plan
/// or does not have a truth value for each test, B7 at the first row whose ticket an earlier row has, B9 at
/// the first mutant, by operator and number, that has no row or is above the number handed out.
pub fn collect(
    alloc: Global,
    bench: &Bench,
    tally: &Tally,
    rows: Vec<Row>,
) -> Result<Matrix, BenchFault>
    ensures matrix { IfOk result (λ matrix. AreCollected bench.now tally.now rows.items matrix) }
    ensures refused { IfErr result (λ fault. IsNoMatrix bench.now tally.now rows.items fault) }
{
    if let Some(ticket) = first_stranger(bench, &rows) {
        return Err(BenchFault::Stranger(ticket));
    }
    let map = RowMap::of(alloc, rows)?;
    let tickets = bench.plan().tickets(alloc)?;
    let entries = entries_of(alloc, bench, tally, &tickets, map)?;
    Ok(Matrix::new(entries))
}

//! The report of a bench, made by many threads.

ghost use Rattle.std.specs.Prelude.{◌≤◌, IfOk, IfErr, string_bytes};
ghost use Rattle.mothra_bench.specs.{IsNoReport, IsReport};

use crate::collecting::collect;
use crate::driving::drive;
use crate::plan_exchange::exchange_of;
use crate::report::render;
use mothra_exchange::{Pass, TableExchange};
use mothra_verdicts::{Bench, BenchFault};
use std::alloc::Global;
use std::sync::Wait;
use std::thread::Threads;

/// The report of the bench: each mutant with the verdict of running it alone. `workers` threads run the
/// mutants, and the report is the same for any number of them.
pub fn analyse<R: Threads + Wait + Sync>(
    rt: &R,
    alloc: Global,
    bench: &Bench,
    workers: u32,
) -> Result<String, BenchFault>
    requires { (1 ≤ workers) × (workers ≤ 32) }
    ensures report { IfOk result (λ text. IsReport bench.now (string_bytes text)) }
    ensures refused { IfErr result IsNoReport }
{
    let (exchange, pass) = exchange_of(alloc, bench.plan())?;
    let (rows, tally) = drive(rt, alloc, exchange, pass, bench, workers)?;
    let matrix = collect(alloc, bench, &tally, rows)?;
    render(alloc, bench, &matrix)
}

//! Any number of workers gives each mutant its row, and the same report.

ghost use Rattle.std.specs.Prelude.{◌≤◌};

use crate::benches::{report, sum_bench, sums};
use crate::tricky::{Counted, Trick, Tricky};
use mothra_bench::{Bench, analyse, drive};
use mothra_exchange::TableExchange;
use mothra_ops::Op;
use std::process::Abort;
use std::sync::Wait;
use std::sync::atomic::Ordering;
use std::test::Fail;
use std::thread::Threads;

/// As many workers are started as are asked for: a pass is split off for each of them and for each feeder.
fn assert_driven<R: Abort + AllocGlobal + Threads + Wait + Sync>(
    rt: &R,
    bench: &Bench,
    workers: u32,
) -> Result<(), Fail>
    requires { (1 ≤ workers) × (workers ≤ 32) }
{
    let (inner, pass) = TableExchange::<64>::new(rt.alloc(), bench.plan().counts())?;
    let counted = Counted::new();
    let (gate, pass) = Tricky::of(inner, pass, Trick::Nothing, &counted);
    let rows = drive(rt, rt.alloc(), gate, pass, bench, workers)?.0.len();
    assert_eq!(rt; rows, 33usize);
    assert_eq!(rt;
        counted.splits.load(Ordering::SeqCst),
        u64::from(workers) + 2
    );
    Ok(())
}

#[test]
fn are_as_many_as_are_asked_for(rt: HostRuntime) -> Result<(), Fail> {
    let bench = sum_bench(&rt)?;
    for workers in 1..33 {
        assert_driven(&rt, &bench, workers)?;
    }
    Ok(())
}

/// The report of `workers` workers is this one, each of `times` times.
fn assert_report<R: Abort + AllocGlobal + Threads + Wait + Sync>(
    rt: &R,
    bench: &Bench,
    expected: &str,
    workers: u32,
    times: u32,
) -> Result<(), Fail>
    requires { (1 ≤ workers) × (workers ≤ 32) }
{
    for _ in 0..times {
        let report = analyse(rt, rt.alloc(), bench, workers)?;
        assert_eq!(rt; report.as_str(), expected);
    }
    Ok(())
}

fn assert_reports<R: Abort + AllocGlobal + Threads + Wait + Sync>(
    rt: &R,
    bench: &Bench,
    expected: &str,
) -> Result<(), Fail> {
    assert_report(rt, bench, expected, 1, 200)?;
    assert_report(rt, bench, expected, 2, 200)?;
    assert_report(rt, bench, expected, 8, 200)?;
    assert_report(rt, bench, expected, 32, 200)
}

#[test]
fn write_the_same_report(rt: HostRuntime) -> Result<(), Fail> {
    let bench = sum_bench(&rt)?;
    assert_reports(&rt, &bench, report(&rt, &bench)?.as_str())
}

#[test]
fn write_the_report_of_ten_thousand_mutants(rt: HostRuntime) -> Result<(), Fail> {
    let bench = sums(&rt, 310, &Op::ALL)?;
    assert_report(&rt, &bench, report(&rt, &bench)?.as_str(), 2, 1)
}

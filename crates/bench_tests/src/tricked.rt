//! Tests of workers over gates that hold the first worker, invent tickets, drop them, hand them out in another order,
//! end early, refuse offers, or give up; and of a feeder over a gate that makes up its answers. The passes of two
//! workers are split off first (numbers 1 and 2), then those of the feeders (3 and 4).

ghost use Rattle.std.specs.Prelude.{◌≡◌, ◌+◌, ◌≤◌, true};

use crate::benches::{report, sum_bench, sums};
use crate::tricky::{Counted, Trick, Tricky};
use mothra_bench::{Bench, BenchFault, collect, drive, feed, render};
use mothra_exchange::{Gate, LockedExchange, Offer, TableExchange, Ticket};
use mothra_ops::Op;
use std::process::Abort;
use std::sync::Wait;
use std::test::Fail;
use std::thread::Threads;

/// The report of a bench, made by `workers` workers through a gate.
fn driven<G: Gate + Sync, R: AllocGlobal + Threads + Wait + Sync>(
    rt: &R,
    bench: &Bench,
    gate: G,
    pass: G::Pass,
    workers: u32,
) -> Result<String, BenchFault>
where
    G::Pass: Send + Drop,
    requires own { G.is_pass gate pass }
    requires workers { (1 ≤ workers) × (workers ≤ 32) }
    requires part { G.needs_parts ≡ true → workers + 3 ≤ (G.view pass).part }
{
    let (rows, tally) = drive(rt, rt.alloc(), gate, pass, bench, workers)?;
    let matrix = collect(rt.alloc(), bench, &tally, rows)?;
    render(rt.alloc(), bench, &matrix)
}

/// The report of a bench through a gate that plays a trick, around an exchange of packed words.
fn tricked<R: AllocGlobal + Threads + Wait + Sync>(
    rt: &R,
    bench: &Bench,
    trick: Trick,
    workers: u32,
) -> Result<Result<String, BenchFault>, Fail>
    requires { (1 ≤ workers) × (workers ≤ 32) }
{
    let (inner, pass) = TableExchange::<64>::new(rt.alloc(), bench.plan().counts())?;
    let counted = Counted::new();
    let (gate, pass) = Tricky::of(inner, pass, trick, &counted);
    Ok(driven(rt, bench, gate, pass, workers))
}

/// The report of a bench through a gate that plays a trick, around a locked exchange.
fn tricked_locked<R: AllocGlobal + Threads + Wait + Sync>(
    rt: &R,
    bench: &Bench,
    trick: Trick,
    workers: u32,
) -> Result<Result<String, BenchFault>, Fail>
    requires { (1 ≤ workers) × (workers ≤ 32) }
{
    let (inner, pass) = LockedExchange::<64>::new(rt.alloc(), bench.plan().counts())?;
    let counted = Counted::new();
    let (gate, pass) = Tricky::of(inner, pass, trick, &counted);
    Ok(driven(rt, bench, gate, pass, workers))
}

fn assert_answer(
    rt: &impl Abort,
    report: Result<String, BenchFault>,
    expected: Result<&str, BenchFault>,
) {
    match report {
        Ok(report) => assert_eq!(rt; Ok(report.as_str()), expected),
        Err(fault) => assert_eq!(rt; Err(fault), expected),
    }
}

/// Around both forms of the exchange the workers give this report or this fault.
fn assert_tricked<R: Abort + AllocGlobal + Threads + Wait + Sync>(
    rt: &R,
    bench: &Bench,
    trick: Trick,
    workers: u32,
    expected: Result<&str, BenchFault>,
) -> Result<(), Fail>
    requires { (1 ≤ workers) × (workers ≤ 32) }
{
    assert_answer(rt, tricked(rt, bench, trick, workers)?, expected);
    assert_answer(rt, tricked_locked(rt, bench, trick, workers)?, expected);
    Ok(())
}

const FIRST: Ticket = Ticket {
    op: Op::Abs,
    number: 1,
};

const SECOND: Ticket = Ticket {
    op: Op::Abs,
    number: 2,
};

const LAST: Ticket = Ticket {
    op: Op::Uoi,
    number: 9,
};

/// A ticket of no mutant.
const NONE: Ticket = Ticket {
    op: Op::Abs,
    number: 10,
};

/// Where two threads have a fault, that of the first is given: feeders come before workers.
const FAULTS: [(Trick, BenchFault); 8] = [
    (Trick::Invents(1, FIRST), BenchFault::Double(FIRST)),
    (Trick::Invents(0, NONE), BenchFault::Stranger(NONE)),
    (Trick::Refuses, BenchFault::Missing(FIRST)),
    (Trick::Drops(LAST), BenchFault::Missing(LAST)),
    (Trick::Mishaps(1, NONE, 3), BenchFault::Stalled),
    (Trick::Mishaps(1, NONE, 4), BenchFault::Stalled),
    (Trick::Mishaps(1, NONE, 2), BenchFault::Stranger(NONE)),
    (Trick::Mishaps(2, NONE, 1), BenchFault::Stalled),
];

fn assert_faults<R: Abort + AllocGlobal + Threads + Wait + Sync>(
    rt: &R,
    bench: &Bench,
) -> Result<(), Fail> {
    for (trick, fault) in FAULTS {
        assert_tricked(rt, bench, trick, 2, Err(fault))?;
    }
    for calls in 0..50 {
        assert_tricked(
            rt,
            bench,
            Trick::GivesUp(calls),
            2,
            Err(BenchFault::Stalled),
        )?;
    }
    // The first worker waits for a second one, but there is none.
    assert_tricked(rt, bench, Trick::Holds, 1, Err(BenchFault::Stalled))
}

#[test]
fn report_the_fault_that_a_trick_leads_to(rt: HostRuntime) -> Result<(), Fail> {
    let bench = sum_bench(&rt)?;
    assert_faults(&rt, &bench)
}

/// Of 72 tickets 64 may wait: a worker with a fault goes on taking, or a feeder would wait for it.
#[test]
fn take_on_behind_a_fault(rt: HostRuntime) -> Result<(), Fail> {
    let bench = sums(&rt, 12, &[Op::Svr])?;
    let fault = Err(BenchFault::Stranger(NONE));
    assert_tricked(&rt, &bench, Trick::Invents(0, NONE), 1, fault)
}

fn assert_reports<R: Abort + AllocGlobal + Threads + Wait + Sync>(
    rt: &R,
    bench: &Bench,
    report: &str,
) -> Result<(), Fail> {
    assert_tricked(rt, bench, Trick::Holds, 2, Ok(report))?;
    assert_tricked(rt, bench, Trick::Swaps(FIRST, SECOND), 2, Ok(report))
}

#[test]
fn write_the_report_where_one_is_held_or_tickets_are_swapped(rt: HostRuntime) -> Result<(), Fail> {
    let bench = sum_bench(&rt)?;
    assert_reports(&rt, &bench, report(&rt, &bench)?.as_str())
}

fn is_short(report: Result<String, BenchFault>) -> bool {
    matches!(report.err(), Some(BenchFault::Missing(_)))
}

/// Some ticket is missing in both forms; the order of the threads decides which one.
#[test]
fn miss_mutants_where_a_gate_ends_early(rt: HostRuntime) -> Result<(), Fail> {
    let bench = sum_bench(&rt)?;
    assert!(rt; is_short(tricked(&rt, &bench, Trick::Ends(16), 2)?));
    assert!(rt; is_short(tricked_locked(&rt, &bench, Trick::Ends(16), 2)?));
    Ok(())
}

const FIRST_OF_UOI: Ticket = Ticket {
    op: Op::Uoi,
    number: 1,
};

/// The answers that a feeder of two operators gets, in order.
const ANSWERS: [Offer; 8] = [
    Offer::Busy,
    Offer::Busy,
    Offer::Accepted,
    Offer::Full,
    Offer::Full,
    Offer::Busy,
    Offer::Full,
    Offer::GaveUp,
];

/// What the feeder offers: after Busy the same ticket, after Full one of the next operator.
const OFFERED: [Ticket; 8] = [
    FIRST,
    FIRST,
    FIRST,
    FIRST_OF_UOI,
    SECOND,
    FIRST_OF_UOI,
    FIRST_OF_UOI,
    SECOND,
];

#[test]
fn are_fed_again_behind_busy_and_in_turn_behind_full(rt: HostRuntime) -> Result<(), Fail> {
    let bench = sum_bench(&rt)?;
    let (inner, pass) = TableExchange::<64>::new(rt.alloc(), bench.plan().counts())?;
    let counted = Counted::new();
    let (gate, pass) = Tricky::of(inner, pass, Trick::Answers(ANSWERS), &counted);
    let (pass, end) = feed(&rt, &gate, pass, &[Op::Abs, Op::Uoi], bench.plan());
    assert_eq!(rt; end, Err(BenchFault::Stalled));
    assert_eq!(rt; pass.offered.as_slice(), OFFERED.as_slice());
    Ok(())
}

//! Each allocation is refused in turn. The workers end nevertheless: with all rows, or with lack of
//! memory or of a thread. Every operator is closed in the end, also where the feeder that would
//! close it could not begin.

ghost use Rattle.std.specs.Prelude.{◌≤◌};

use crate::benches::{sum_bench, sums};
use crate::tricky::{Counted, Trick, Tricky};
use mothra_bench::{Bench, BenchFault, drive};
use mothra_exchange::TableExchange;
use mothra_ops::Op;
use std::process::Abort;
use std::sync::Wait;
use std::sync::atomic::Ordering;
use std::test::Fail;
use std::thread::Threads;

/// Drives workers through an exchange. The allocation that is refused may also be that of the exchange.
fn assert_undisturbed<R: Abort + AllocGlobal + Threads + Wait + Sync>(
    rt: &R,
    bench: &Bench,
    workers: u32,
    mutants: usize,
)
    requires { (1 ≤ workers) × (workers ≤ 32) }
{
    let Ok((inner, pass)) = TableExchange::<64>::new(rt.alloc(), bench.plan().counts()) else {
        return;
    };
    let counted = Counted::new();
    let (gate, pass) = Tricky::of(inner, pass, Trick::Nothing, &counted);
    match drive(rt, rt.alloc(), gate, pass, bench, workers) {
        Ok(driven) => assert_eq!(rt; driven.0.len(), mutants),
        Err(fault) => assert!(rt; matches!(fault, BenchFault::Memory | BenchFault::Thread)),
    }
    assert_eq!(rt; counted.closes.load(Ordering::SeqCst), 22u64);
}

#[test]
fn refused_memory_ends_the_workers(rt: HostRuntime) -> Result<(), Fail> {
    let bench = sum_bench(&rt)?;
    assert_undisturbed(&rt, &bench, 4, 33);
    Ok(())
}

/// Of these 72 tickets 64 may wait: a worker without memory goes on taking, or a feeder would wait for it.
#[test]
fn refused_memory_lets_workers_take_on(rt: HostRuntime) -> Result<(), Fail> {
    let bench = sums(&rt, 12, &[Op::Svr])?;
    assert_undisturbed(&rt, &bench, 1, 72);
    Ok(())
}

/// Where memory was lacking or a thread could not begin, that is the fault, also over a gate that
/// gives up at once.
fn assert_own_fault_first<R: Abort + AllocGlobal + Threads + Wait + Sync>(rt: &R, bench: &Bench) {
    let Ok((inner, pass)) = TableExchange::<64>::new(rt.alloc(), bench.plan().counts()) else {
        return;
    };
    let counted = Counted::new();
    let (gate, pass) = Tricky::of(inner, pass, Trick::GivesUp(0), &counted);
    let fault = drive(rt, rt.alloc(), gate, pass, bench, 2).err();
    match counted.splits.load(Ordering::SeqCst) {
        0 => assert_eq!(rt; fault, Some(BenchFault::Memory)),
        1..=3 => assert_eq!(rt; fault, Some(BenchFault::Thread)),
        _ => assert!(rt; matches!(fault, Some(BenchFault::Thread | BenchFault::Stalled))),
    }
}

#[test]
fn refused_memory_is_reported_before_faults_of_workers(rt: HostRuntime) -> Result<(), Fail> {
    let bench = sum_bench(&rt)?;
    assert_own_fault_first(&rt, &bench);
    Ok(())
}

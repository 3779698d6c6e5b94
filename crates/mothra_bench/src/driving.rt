//! Workers and feeders are started and joined, and their passes are merged.
//!
//! The memory for the handles of all workers is taken before the first one starts, so that it can not be refused
//! between two of them. Which fault is given is the contract of `answer`, which is private: a public clause can not
//! speak of how each single thread ended.

ghost use Rattle.std.specs.Prelude.{◌≡◌, ◌⊎◌, ◌+◌, ◌++◌, ◌<◌, ◌≤◌, [], true, false, All};
ghost use Rattle.std.specs.Prelude.{length};
ghost use Rattle.std.specs.Prelude.{None, IfOk, IfErr, IfSome, IfNone, MatchOption};
ghost use Rattle.mothra_exchange.specs.View.{whole_part};
ghost use Rattle.mothra_exchange.specs.declared.view.View.{View};
ghost use Rattle.mothra_bench.specs.{AreComplete, AreHandedOnce, EndsWhole, IsNoDrive, IsWhole, AreFed, IsReadyPass};
ghost use Rattle.mothra_bench.specs.{IsStalled, AreVerdicts, tickets_in, AreOver};
ghost use Rattle.mothra_bench.specs.code.{AreClosed, Drives, HasShares, IsShare, JoinsPass, KeepsFed, OnlySplit};
ghost use Rattle.mothra_bench.specs.code.{answer_of};

use crate::closing::close_each;
use crate::results::Results;
use crate::threads::{Feeder, Worker, join_feeder, join_worker, start_feeder, start_worker};
use mothra_codes::Op;
use mothra_exchange::{Gate, Tally};
use mothra_verdicts::{Bench, BenchFault, Row};
use std::alloc::Global;
use std::sync::Wait;
use std::thread;
use std::thread::{Scope, Threads};

/// What all threads of a drive use.
#[derive(Drop)]
struct Crew<'s, G, R> {
    rt: &'s R,
    alloc: Global,
    gate: &'s G,
    bench: &'s Bench,
    /// The operators of the first feeder.
    front: &'s [Op],
    /// The operators of the second feeder.
    back: &'s [Op],
    workers: u32,
}

/// Starts the workers one by one, until all are started, a thread can not begin or there is no memory.
fn start_workers<'s, E, G: Gate + Sync, R: Threads + Wait + Sync>(
    scope: &Scope<'s, E>,
    crew: &Crew<'s, G, R>,
    pass: &mut G::Pass,
) -> (Vec<Worker<'s, G>>, Option<BenchFault>)
where
    G::Pass: Send + Drop + 's,
    requires own { G.is_pass crew.now.gate.now pass.old }
    requires part { G.needs_parts ≡ true → crew.now.workers < (G.view pass.old).part }
    ensures own { G.is_pass crew.now.gate.now pass.new }
    ensures workers { All
        (λ worker. (worker.promise.gate.now ≡ crew.now.gate.now) × (worker.promise.bench.now ≡ crew.now.bench.now)
        × IsShare G.needs_parts G.keeps_records (G.view pass.old).counts
        (G.view worker.promise.pass.value)) result.0.items }
    ensures part { G.needs_parts ≡ true → (G.view pass.old).part ≤ (G.view pass.new).part + crew.now.workers }
    ensures all { IfNone result.1 ((length result.0.items ≡ crew.now.workers)
        × (G.needs_parts ≡ true → (G.view pass.old).part ≡ (G.view pass.new).part + crew.now.workers)) }
    ensures records { G.keeps_records ≡ true → OnlySplit (G.view pass.old) (G.view pass.new) }
    ensures refused { IfSome result.1
        (λ fault. ((fault ≡ BenchFault.Memory) × (result.0.items ≡ [])) ⊎ (fault ≡ BenchFault.Thread)) }
{
    let Ok(mut started) = Vec::with_capacity(crew.alloc, crew.workers as usize) else {
        return (Vec::new(crew.alloc), Some(BenchFault::Memory));
    };
    for _ in 0..crew.workers {
        let own = crew.gate.split(pass);
        let worker = match start_worker(scope, crew.rt, crew.alloc, crew.gate, own, crew.bench) {
            Ok(worker) => worker,
            Err(fault) => return (started, Some(fault)),
        };
        let Ok(()) = started.push(worker) else {
            unreachable!()
        };
    }
    (started, None)
}

/// Starts a feeder. Where there was a fault before, or its thread can not begin, its operators are closed instead.
fn start_or_close<'s, E, G: Gate + Sync, R: Threads + Wait + Sync>(
    scope: &Scope<'s, E>,
    crew: &Crew<'s, G, R>,
    pass: &mut G::Pass,
    ops: &'s [Op],
    fault: &mut Option<BenchFault>,
) -> Option<Feeder<'s, G>>
where
    G::Pass: Send + Drop + 's,
    requires own { G.is_pass crew.now.gate.now pass.old }
    requires part { G.needs_parts ≡ true → 1 < (G.view pass.old).part }
    ensures own { G.is_pass crew.now.gate.now pass.new }
    ensures feeder { IfSome result
        (λ feeder. (feeder.promise.gate.now ≡ crew.now.gate.now) × (feeder.promise.ops.now ≡ ops.now)
        × (feeder.promise.plan.now ≡ crew.now.bench.now.plan)
        × IsShare G.needs_parts G.keeps_records (G.view pass.old).counts (G.view feeder.promise.pass.value)) }
    ensures part { G.needs_parts ≡ true → (G.view pass.old).part ≤ (G.view pass.new).part + 1 }
    ensures records { G.keeps_records ≡ true
        → ((G.view pass.new).counts ≡ (G.view pass.old).counts) × ((G.view pass.new).taken ≡ (G.view pass.old).taken) }
    ensures started { IfNone fault.new
        ((G.needs_parts ≡ true → (G.view pass.old).part ≡ (G.view pass.new).part + 1)
        × (G.keeps_records ≡ true → OnlySplit (G.view pass.old) (G.view pass.new))) }
    ensures kept { IfSome fault.old (λ first. (fault.new ≡ Some first) × (result ≡ None)) }
    ensures thread { IfNone fault.old
        (MatchOption result (fault.new ≡ Some BenchFault.Thread) (λ _. fault.new ≡ None)) }
    ensures closed { G.keeps_records ≡ true → G.may_give_up ≡ false
        → IfNone result (AreClosed ops.now (G.view pass.new)) }
{
    if fault.is_none() {
        let own = crew.gate.split(pass);
        match start_feeder(scope, crew.rt, crew.gate, own, ops, crew.bench.plan()) {
            Ok(feeder) => return Some(feeder),
            Err(refused) => *fault = Some(refused),
        }
    }
    close_each(crew.rt, crew.gate, pass, ops);
    None
}

/// Waits for a feeder, if it was started, and merges its pass.
fn join_started<G: Gate, R: Threads>(
    crew: &Crew<'_, G, R>,
    pass: &mut G::Pass,
    feeder: Option<Feeder<'_, G>>,
) -> Result<(), BenchFault>
    requires own { G.is_pass crew.now.gate.now pass.old }
    requires feeder { IfSome feeder (λ feeder. (feeder.promise.gate.now ≡ crew.now.gate.now)
        × (G.keeps_records ≡ true → (G.view feeder.promise.pass.value).taken ≡ [])) }
    ensures own { G.is_pass crew.now.gate.now pass.new }
    ensures refused { IfErr result (IsStalled G.may_give_up) }
    ensures records { G.keeps_records ≡ true
        → ((G.view pass.new).counts ≡ (G.view pass.old).counts) × ((G.view pass.new).taken ≡ (G.view pass.old).taken) }
    ensures part { G.needs_parts ≡ true → IfSome feeder.entry
        (λ feeder. (G.view pass.new).part ≡ (G.view pass.old).part + (G.view feeder.promise.pass.value).part) }
    ensures joined { G.keeps_records ≡ true → IfSome feeder.entry
        (λ feeder. (other : View) × JoinsPass (G.view pass.old) other (G.view pass.new)
        × (other.counts ≡ (G.view feeder.promise.pass.value).counts)
        × (IsReadyPass feeder.promise.plan.now (G.view feeder.promise.pass.value)
        → IfOk result (λ _. AreFed feeder.promise.ops.now other))) }
{
    match feeder {
        Some(feeder) => join_feeder(crew.rt, crew.gate, pass, feeder),
        None => Ok(()),
    }
}

/// Waits for the workers and merges their passes. The result has all rows, or the fault of the
/// first worker that has one. If there is no memory for the list of all rows, that becomes the
/// drive's own fault, unless it has one.
fn join_workers<G: Gate, R: Threads>(
    crew: &Crew<'_, G, R>,
    pass: &mut G::Pass,
    workers: Vec<Worker<'_, G>>,
    fault: &mut Option<BenchFault>,
) -> Result<Vec<Row>, BenchFault>
where
    G::Pass: Drop,
    requires own { G.is_pass crew.now.gate.now pass.old }
    requires workers { All
        (λ worker. (worker.promise.gate.now ≡ crew.now.gate.now) × (worker.promise.bench.now ≡ crew.now.bench.now)
        × IsShare G.needs_parts G.keeps_records (G.view pass.old).counts
        (G.view worker.promise.pass.value)) workers.items }
    ensures own { G.is_pass crew.now.gate.now pass.new }
    ensures verdicts { IfOk result (λ rows. AreVerdicts crew.now.bench.now rows.items) }
    ensures refused { IfErr result
        (IsNoDrive G.may_give_up G.keeps_records crew.now.bench.now.plan (G.view pass.old).counts) }
    ensures part { G.needs_parts ≡ true → (G.view pass.new).part ≡ (G.view pass.old).part + length workers.entry.items }
    ensures records { G.keeps_records ≡ true
        → IfOk result (λ rows. (G.view pass.new).taken ≡ (G.view pass.old).taken ++ tickets_in rows.items) }
    ensures fed { G.keeps_records ≡ true → KeepsFed (G.view pass.old) (G.view pass.new) }
    ensures over { G.keeps_records ≡ true → IfOk result (λ _. (workers.entry.items ≡ []) ⊎ AreOver (G.view pass.new)) }
    ensures none { IfNone fault.new (fault.old ≡ None) }
    ensures memory { IfSome fault.new
        (λ own. MatchOption fault.old (own ≡ BenchFault.Memory) (λ first. own ≡ first)) }
{
    let mut results = Results::new(crew.alloc);
    for worker in workers {
        let outcome = join_worker(crew.rt, crew.gate, crew.bench, pass, worker);
        results.add(outcome, fault);
    }
    results.outcome()
}

/// The drive's own fault; else the fault of the first thread that has one, feeders before workers; else all rows.
fn answer(
    own: Option<BenchFault>,
    first: Result<(), BenchFault>,
    second: Result<(), BenchFault>,
    outcome: Result<Vec<Row>, BenchFault>,
) -> Result<Vec<Row>, BenchFault>
    ensures { result ≡ answer_of own first second outcome }
{
    match own {
        Some(fault) => Err(fault),
        None => first.and(second).and(outcome),
    }
}

/// Starts the threads, joins them all, and merges their passes.
fn run_threads<'s, E, G: Gate + Sync, R: Threads + Wait + Sync>(
    scope: &Scope<'s, E>,
    crew: &Crew<'s, G, R>,
    mut pass: G::Pass,
) -> (G::Pass, Result<Vec<Row>, BenchFault>)
where
    G::Pass: Send + Drop + 's,
    requires own { G.is_pass crew.now.gate.now pass }
    requires part { HasShares G.needs_parts crew.now.workers (G.view pass) }
    ensures own { G.is_pass crew.now.gate.now result.0 }
    ensures drives { Drives G.may_give_up G.keeps_records G.needs_parts crew.now.bench.now crew.now.front.now
        crew.now.back.now crew.now.workers
        (G.view pass) (G.view result.0) result.1 }
{
    let (workers, mut fault) = start_workers(scope, crew, &mut pass);
    let one = start_or_close(scope, crew, &mut pass, crew.front, &mut fault);
    let other = start_or_close(scope, crew, &mut pass, crew.back, &mut fault);
    let first = join_started(crew, &mut pass, one);
    let second = join_started(crew, &mut pass, other);
    let results = join_workers(crew, &mut pass, workers, &mut fault);
    (pass, answer(fault, first, second, results))
}

/// Runs the threads in a scope, which ends after the last of them.
fn run_scope<G: Gate + Sync, R: Threads + Wait + Sync>(
    crew: &Crew<'_, G, R>,
    pass: G::Pass,
) -> (G::Pass, Result<Vec<Row>, BenchFault>)
where
    G::Pass: Send + Drop,
    requires own { G.is_pass crew.now.gate.now pass }
    requires part { HasShares G.needs_parts crew.now.workers (G.view pass) }
    ensures own { G.is_pass crew.now.gate.now result.0 }
    ensures drives { Drives G.may_give_up G.keeps_records G.needs_parts crew.now.bench.now crew.now.front.now
        crew.now.back.now crew.now.workers
        (G.view pass) (G.view result.0) result.1 }
{
    thread::scope(
        thread::scope_env(),
        crew.rt,
        move |scope|
            requires { G.is_pass crew.now.gate.now pass × HasShares G.needs_parts crew.now.workers (G.view pass) }
        { run_threads(scope, crew, pass) },
    )
}

/// Runs the mutants of the bench's plan in `workers` threads. Two more threads are the feeders, which offer the
/// tickets to the gate: the first those of the operators from AAR to DSA, the second those from GLR to UOI. The passes
/// of all threads are split from the caller's pass. In the end all threads are joined, their passes are merged, and
/// the gate is finished.
///
/// Where there is no memory (B1), or a thread can not begin (B2), no further thread is started, the operators of each
/// feeder that was not started are closed, and the threads that run are joined. The fault is also B1 where there is no
/// memory for the list of all rows. Else it is the fault of the first thread that has one: first the feeders, then the
/// workers in their order.
pub fn drive<G: Gate + Sync, R: Threads + Wait + Sync>(
    rt: &R,
    alloc: Global,
    gate: G,
    pass: G::Pass,
    bench: &Bench,
    workers: u32,
) -> Result<(Vec<Row>, Tally), BenchFault>
where
    G::Pass: Send + Drop,
    requires own { G.is_pass gate pass }
    requires workers { (1 ≤ workers) × (workers ≤ 32) }
    requires part { G.needs_parts ≡ true → workers + 3 ≤ (G.view pass).part }
    ensures verdicts { IfOk result (λ driven. AreVerdicts bench.now driven.0.items) }
    ensures refused { IfErr result (IsNoDrive G.may_give_up G.keeps_records bench.now.plan (G.view pass).counts) }
    ensures records { G.keeps_records ≡ true
        → IfOk result (λ driven. AreHandedOnce driven.1 (tickets_in driven.0.items)) }
    ensures complete { G.needs_parts ≡ true → G.keeps_records ≡ true → IsWhole bench.now.plan (G.view pass)
        → IfOk result (λ driven. AreComplete bench.now.plan driven.1 (tickets_in driven.0.items)) }
    ensures whole { G.needs_parts ≡ true → G.keeps_records ≡ true → (G.view pass).part ≡ whole_part
        → IfOk result (λ driven. EndsWhole G.bound (G.view pass) driven.0.items driven.1) }
{
    let all = Op::ALL;
    let (front, back) = all.split_at(11);
    let crew = Crew {
        rt,
        alloc,
        gate: &gate,
        bench,
        front,
        back,
        workers,
    };
    let (pass, outcome) = run_scope(&crew, pass);
    let tally = gate.finish(pass);
    match outcome {
        Ok(rows) => Ok((rows, tally)),
        Err(fault) => Err(fault),
    }
}

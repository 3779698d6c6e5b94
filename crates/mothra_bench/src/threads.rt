//! Workers and feeders in threads of their own: how they are started and joined, and what they promise.
//!
//! What a thread did to its pass is known only by its promise, which is the contract of `work` or `feed`. Threads are
//! started in functions that borrow the scope, since only a scope can lend them the bench.

ghost use Rattle.std.specs.Prelude.{◌≡◌, ◌+◌, ◌++◌, true, IfOk, IfErr};
ghost use Rattle.mothra_exchange.specs.declared.view.View.{View};
ghost use Rattle.mothra_bench.specs.code.Driving.{IsNewPass, JoinsPass, KeepsFed};
ghost use Rattle.mothra_bench.specs.Feeding.{AreFed, IsReadyPass, IsStalled};
ghost use Rattle.mothra_bench.specs.code.Feeding.{Feeds};
ghost use Rattle.mothra_bench.specs.Results.{AreVerdicts, tickets_in};
ghost use Rattle.mothra_bench.specs.Working.{AreOver, IsNoWork};
ghost use Rattle.mothra_bench.specs.code.Working.{Works};

use crate::feeding::feed;
use crate::working::work;
use mothra_codes::Op;
use mothra_exchange::Gate;
use mothra_ops::Plan;
use mothra_verdicts::{Bench, BenchFault, Row};
use std::alloc::Global;
use std::snapshot::Snapshot;
use std::sync::Wait;
use std::thread::{Promise, PromisedHandle, Scope, Threads};

/// What a worker promises of the pass and the rows that it returns: the contract of `work`.
#[derive(Drop)]
pub(crate) struct WorkerPromise<'a, G: Gate> {
    pub(crate) gate: &'a G,
    pub(crate) bench: &'a Bench,
    /// The pass that the worker was given.
    pub(crate) pass: Snapshot<G::Pass>,
}

impl<'a, G: Gate> Promise<(G::Pass, Result<Vec<Row>, BenchFault>)> for WorkerPromise<'a, G> {
    ghost kept_by = { λ p r. G.is_pass p.gate.now r.0
        × Works G.may_give_up G.keeps_records G.needs_parts p.bench.now (G.view p.pass.value) (G.view r.0) r.1 };
}

/// What a feeder promises of the pass that it returns: the contract of `feed`.
#[derive(Drop)]
pub(crate) struct FeederPromise<'a, G: Gate> {
    pub(crate) gate: &'a G,
    pub(crate) ops: &'a [Op],
    pub(crate) plan: &'a Plan,
    /// The pass that the feeder was given.
    pub(crate) pass: Snapshot<G::Pass>,
}

impl<'a, G: Gate> Promise<(G::Pass, Result<(), BenchFault>)> for FeederPromise<'a, G> {
    ghost kept_by = { λ p r. G.is_pass p.gate.now r.0
        × Feeds G.may_give_up G.keeps_records G.needs_parts p.plan.now p.ops.now
        (G.view p.pass.value) (G.view r.0) r.1 };
}

/// A worker in its thread.
pub(crate) type Worker<'a, G> = PromisedHandle<
    (<G as Gate>::Pass, Result<Vec<Row>, BenchFault>),
    WorkerPromise<'a, G>,
>;

/// A feeder in its thread.
pub(crate) type Feeder<'a, G> = PromisedHandle<
    (<G as Gate>::Pass, Result<(), BenchFault>),
    FeederPromise<'a, G>,
>;

/// Starts a worker; B2 where its thread can not begin.
pub(crate) fn start_worker<'s, E, G: Gate + Sync, R: Threads + Wait + Sync>(
    scope: &Scope<'s, E>,
    rt: &'s R,
    alloc: Global,
    gate: &'s G,
    pass: G::Pass,
    bench: &'s Bench,
) -> Result<Worker<'s, G>, BenchFault>
where
    G::Pass: Send + Drop + 's,
    requires { G.is_pass gate.now pass }
    ensures started { IfOk result
        (λ worker. (worker.promise.gate.now ≡ gate.now)
        × (worker.promise.bench.now ≡ bench.now) × (worker.promise.pass.value ≡ pass)) }
    ensures thread { IfErr result (λ fault. fault ≡ BenchFault.Thread) }
{
    let promise = WorkerPromise {
        gate,
        bench,
        pass: Snapshot::of(&pass),
    };
    match scope.spawn_with(promise, move || work(rt, alloc, gate, pass, bench)) {
        Ok(worker) => Ok(worker),
        Err(_) => Err(BenchFault::Thread),
    }
}

/// Starts a feeder; B2 where its thread can not begin.
pub(crate) fn start_feeder<'s, E, G: Gate + Sync, R: Threads + Wait + Sync>(
    scope: &Scope<'s, E>,
    rt: &'s R,
    gate: &'s G,
    pass: G::Pass,
    ops: &'s [Op],
    plan: &'s Plan,
) -> Result<Feeder<'s, G>, BenchFault>
where
    G::Pass: Send + Drop + 's,
    requires { G.is_pass gate.now pass }
    ensures started { IfOk result (λ feeder. (feeder.promise.gate.now ≡ gate.now) × (feeder.promise.ops.now ≡ ops.now)
        × (feeder.promise.plan.now ≡ plan.now) × (feeder.promise.pass.value ≡ pass)) }
    ensures thread { IfErr result (λ fault. fault ≡ BenchFault.Thread) }
{
    let promise = FeederPromise {
        gate,
        ops,
        plan,
        pass: Snapshot::of(&pass),
    };
    match scope.spawn_with(promise, move || feed(rt, gate, pass, ops, plan)) {
        Ok(feeder) => Ok(feeder),
        Err(_) => Err(BenchFault::Thread),
    }
}

/// Waits for a feeder, and merges its pass.
pub(crate) fn join_feeder<G: Gate, R: Threads>(
    rt: &R,
    gate: &G,
    pass: &mut G::Pass,
    feeder: Feeder<'_, G>,
) -> Result<(), BenchFault>
    requires own { G.is_pass gate.now pass.old × (feeder.promise.gate.now ≡ gate.now) }
    ensures own { G.is_pass gate.now pass.new }
    ensures refused { IfErr result (IsStalled G.may_give_up) }
    ensures part { G.needs_parts ≡ true
        → (G.view pass.new).part ≡ (G.view pass.old).part + (G.view feeder.entry.promise.pass.value).part }
    ensures records { G.keeps_records ≡ true
        → (G.view pass.new).taken ≡ (G.view pass.old).taken ++ (G.view feeder.entry.promise.pass.value).taken }
    ensures joined { G.keeps_records ≡ true → (other : View) × JoinsPass (G.view pass.old) other (G.view pass.new)
        × (other.counts ≡ (G.view feeder.entry.promise.pass.value).counts)
        × (IsReadyPass feeder.entry.promise.plan.now (G.view feeder.entry.promise.pass.value)
        → IfOk result (λ _. AreFed feeder.entry.promise.ops.now other)) }
{
    let (other, outcome) = feeder.join(rt);
    gate.merge(pass, other);
    outcome
}

/// Waits for a worker, and merges its pass.
pub(crate) fn join_worker<G: Gate, R: Threads>(
    rt: &R,
    gate: &G,
    bench: &Bench,
    pass: &mut G::Pass,
    worker: Worker<'_, G>,
) -> Result<Vec<Row>, BenchFault>
    requires own { G.is_pass gate.now pass.old
        × (worker.promise.gate.now ≡ gate.now) × (worker.promise.bench.now ≡ bench.now) }
    requires fresh { G.keeps_records ≡ true → IsNewPass (G.view pass.old).counts (G.view worker.promise.pass.value) }
    ensures own { G.is_pass gate.now pass.new }
    ensures verdicts { IfOk result (λ rows. AreVerdicts bench.now rows.items) }
    ensures refused { IfErr result
        (IsNoWork G.may_give_up G.keeps_records bench.now.plan (G.view worker.entry.promise.pass.value).counts) }
    ensures part { G.needs_parts ≡ true
        → (G.view pass.new).part ≡ (G.view pass.old).part + (G.view worker.entry.promise.pass.value).part }
    ensures fed { G.keeps_records ≡ true → KeepsFed (G.view pass.old) (G.view pass.new) }
    ensures over { G.keeps_records ≡ true → IfOk result (λ _. AreOver (G.view pass.new)) }
    ensures records { G.keeps_records ≡ true
        → IfOk result (λ rows. (G.view pass.new).taken ≡ (G.view pass.old).taken ++ tickets_in rows.items) }
{
    let (other, outcome) = worker.join(rt);
    gate.merge(pass, other);
    outcome
}

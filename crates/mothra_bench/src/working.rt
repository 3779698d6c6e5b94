//! Workers take tickets and run their mutants.

ghost use Rattle.std.specs.Prelude.{◌≡◌, ◌⊎◌, true, false, IfOk, IfErr, IfSome, IsSome};
ghost use Rattle.mothra_codes.specs.declared.op.Op.{Op as OpModel};
ghost use Rattle.mothra_verdicts.specs.Bench.{BenchFields};
ghost use Rattle.mothra_exchange.specs.Sharing.{IsOver};
ghost use Rattle.mothra_bench.specs.{AreVerdicts, AreOver, IsNoWork, NamesTaken, OnlyTook, TookRows};
ghost use Rattle.mothra_bench.specs.code.{Went};

use crate::results::Results;
use crossbeam_utils::Backoff;
use mothra_codes::Op;
use mothra_exchange::{Gate, Take};
use mothra_verdicts::{Bench, BenchFault, Row, Verdicts};
use std::alloc::Global;
use std::sync::Wait;

/// How a take of one operator, or a round over all, ended.
#[derive(Clone, Copy, PartialEq, Eq, Drop)]
enum Turn {
    /// All tickets were handed out, and none will come.
    Finished,
    /// No ticket waited, but some may come.
    Idle,
    Ran,
    GaveUp,
}

impl Turn {
    /// The round after the turn of one operator.
    fn behind(self, turn: Turn) -> Turn
        ensures finished { result ≡ Turn.Finished → (self ≡ Turn.Finished) × (turn ≡ Turn.Finished) }
        ensures gave_up { result ≡ Turn.GaveUp → (self ≡ Turn.GaveUp) ⊎ (turn ≡ Turn.GaveUp) }
    {
        match turn {
            Turn::Finished => self,
            Turn::Idle if self != Turn::Finished => self,
            Turn::Idle | Turn::Ran | Turn::GaveUp => turn,
        }
    }
}

/// Takes the tickets of an operator that wait, one after another, and runs their mutants.
fn take_turn<G: Gate, R: Wait>(
    rt: &R,
    alloc: Global,
    gate: &G,
    pass: &mut G::Pass,
    verdicts: &mut Option<Verdicts<'_>>,
    results: &mut Results,
    op: Op,
) -> Turn
    requires { G.is_pass gate.now pass.old }
    ensures own { G.is_pass gate.now pass.new }
    ensures part { G.needs_parts ≡ true → (G.view pass.new).part ≡ (G.view pass.old).part }
    ensures went { (bench : BenchFields) → IfSome verdicts.old (λ verdicts. verdicts ≡ bench)
        → Went bench G.may_give_up G.keeps_records
        (G.view pass.old) (G.view pass.new) results.old results.new }
    ensures over { G.keeps_records ≡ true → result ≡ Turn.Finished
        → IsOver (G.view pass.new) op
        × ((other : OpModel) → IsOver (G.view pass.old) other → IsOver (G.view pass.new) other) }
    ensures gave_up { result ≡ Turn.GaveUp → (G.may_give_up ≡ true) × IsSome results.new.fault }
    ensures verdicts { verdicts.new ≡ verdicts.old }
{
    let mut turn = Turn::Idle;
    for _ in rt.forever() {
        match gate.take(rt, pass, op) {
            Take::Finished => return Turn::Finished,
            Take::Empty | Take::Busy => return turn,
            Take::Taken(ticket) => {
                results.run(alloc, verdicts, ticket);
                turn = Turn::Ran;
            }
            Take::GaveUp => {
                results.fail(BenchFault::Stalled);
                return Turn::GaveUp;
            }
        }
    }
    unreachable!()
}

/// Takes the tickets that wait, operator by operator.
fn take_round<G: Gate, R: Wait>(
    rt: &R,
    alloc: Global,
    gate: &G,
    pass: &mut G::Pass,
    verdicts: &mut Option<Verdicts<'_>>,
    results: &mut Results,
) -> Turn
    requires { G.is_pass gate.now pass.old }
    ensures own { G.is_pass gate.now pass.new }
    ensures part { G.needs_parts ≡ true → (G.view pass.new).part ≡ (G.view pass.old).part }
    ensures went { (bench : BenchFields) → IfSome verdicts.old (λ verdicts. verdicts ≡ bench)
        → Went bench G.may_give_up G.keeps_records
        (G.view pass.old) (G.view pass.new) results.old results.new }
    ensures over { G.keeps_records ≡ true → result ≡ Turn.Finished → AreOver (G.view pass.new) }
    ensures gave_up { result ≡ Turn.GaveUp → (G.may_give_up ≡ true) × IsSome results.new.fault }
    ensures verdicts { verdicts.new ≡ verdicts.old }
{
    let mut round = Turn::Finished;
    for op in Op::ALL {
        let turn = take_turn(rt, alloc, gate, pass, verdicts, results, op);
        if turn == Turn::GaveUp {
            return Turn::GaveUp;
        }
        round = round.behind(turn);
    }
    round
}

/// Goes round the operators and runs the mutants of the tickets that it takes. It ends after a round in which every
/// operator was finished. After a fault it goes on taking tickets but runs none, so that feeders can end, and answers
/// its first fault. Where the gate gives up it ends at once, with B10 unless it had a fault before.
pub fn work<G: Gate, R: Wait>(
    rt: &R,
    alloc: Global,
    gate: &G,
    mut pass: G::Pass,
    bench: &Bench,
) -> (G::Pass, Result<Vec<Row>, BenchFault>)
    requires { G.is_pass gate.now pass }
    ensures own { G.is_pass gate.now result.0 }
    ensures verdicts { IfOk result.1 (λ rows. AreVerdicts bench.now rows.items) }
    ensures refused { IfErr result.1 (IsNoWork G.may_give_up G.keeps_records bench.now.plan (G.view pass).counts) }
    ensures part { G.needs_parts ≡ true → (G.view result.0).part ≡ (G.view pass).part }
    ensures pass { G.keeps_records ≡ true → OnlyTook (G.view pass) (G.view result.0) }
    ensures records { G.keeps_records ≡ true
        → IfOk result.1 (λ rows. TookRows (G.view pass) (G.view result.0) rows.items) }
    ensures stranger { G.keeps_records ≡ true
        → IfErr result.1 (NamesTaken bench.now.plan (G.view pass) (G.view result.0)) }
    ensures over { G.keeps_records ≡ true → IfOk result.1 (λ _. AreOver (G.view result.0)) }
    ensures stays { G.keeps_records ≡ true → G.may_give_up ≡ false → AreOver (G.view result.0) }
{
    let mut verdicts = Verdicts::of(alloc, bench).ok();
    let mut results = Results::new(alloc);
    let backoff = Backoff::new();
    for _ in rt.forever() {
        match take_round(rt, alloc, gate, &mut pass, &mut verdicts, &mut results) {
            Turn::Finished | Turn::GaveUp => return (pass, results.outcome()),
            Turn::Ran => backoff.reset(),
            Turn::Idle => backoff.snooze(),
        }
    }
    unreachable!()
}

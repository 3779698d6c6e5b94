//! Feeders offer the tickets of their operators in order.

ghost use Rattle.std.specs.Prelude.{◌≡◌, ◌≢◌, ◌+◌, ◌<◌, ℕ, true, All, Contains};
ghost use Rattle.std.specs.Prelude.{Some, IfOk, IfErr, IfNone, IfSome, slice_index};
ghost use Rattle.mothra_codes.specs.Op.{index};
ghost use Rattle.mothra_codes.specs.declared.op.Op.{Op as OpModel};
ghost use Rattle.mothra_exchange.specs.Law.{ChangesOnly};
ghost use Rattle.mothra_bench.specs.{count_of, AreFed, IsReadyPass, IsStalled, OnlyGave};
ghost use Rattle.mothra_bench.specs.code.{Closes, AllShow, IsFull, ShowsStage, stage_of};

use crate::closing::close_one;
use crossbeam_utils::Backoff;
use mothra_codes::Op;
use mothra_exchange::{Gate, Offer, Ticket};
use mothra_ops::Plan;
use mothra_verdicts::BenchFault;
use std::sync::Wait;

/// How far a feeder has come with an operator.
#[derive(Clone, Copy, PartialEq, Eq, Drop)]
enum Stage {
    /// This many tickets were offered and accepted.
    Offered(u32),
    /// A ticket was refused for good, so no more are offered.
    Ended,
    Closed,
}

/// Offers a ticket, and at once again as long as the offer is lost. The result is the operator's stage after that,
/// None where the gate gave up.
fn offer<G: Gate, R: Wait>(
    rt: &R,
    gate: &G,
    pass: &mut G::Pass,
    ticket: Ticket,
    stage: Stage,
) -> Option<Stage>
    requires { G.is_pass gate.now pass.old }
    ensures own { G.is_pass gate.now pass.new }
    ensures gives_up { IfNone result (G.may_give_up ≡ true) }
    ensures part { G.needs_parts ≡ true → (G.view pass.new).part ≡ (G.view pass.old).part }
    ensures records { G.keeps_records ≡ true → OnlyGave (G.view pass.old) (G.view pass.new) }
    ensures shows { G.keeps_records ≡ true → (before : ℕ) → stage ≡ Stage.Offered before → ticket.number ≡ before + 1
        → before < count_of (G.view pass.old) ticket.op
        → ShowsStage (G.view pass.old) ticket.op stage → IfSome result (ShowsStage (G.view pass.new) ticket.op) }
    ensures full { G.keeps_records ≡ true → (before : ℕ) → stage ≡ Stage.Offered before → ticket.number ≡ before + 1
        → result ≡ Some stage → IsFull G.bound (G.view pass.new) ticket.op }
    ensures others { G.keeps_records ≡ true
        → IfSome result (λ _. ChangesOnly ticket.op (G.view pass.old) (G.view pass.new)) }
{
    for _ in rt.forever() {
        match gate.offer(rt, pass, ticket) {
            Offer::Busy => {}
            Offer::Full => return Some(stage),
            Offer::Accepted => return Some(Stage::Offered(ticket.number)),
            Offer::Closed | Offer::PastEnd | Offer::OutOfTurn(_) => return Some(Stage::Ended),
            Offer::GaveUp => return None,
        }
    }
    unreachable!()
}

/// Closes an operator. The result is the operator's stage after that, None where the gate gave up.
fn close_turn<G: Gate, R: Wait>(rt: &R, gate: &G, pass: &mut G::Pass, op: Op) -> Option<Stage>
    requires { G.is_pass gate.now pass.old }
    ensures own { G.is_pass gate.now pass.new }
    ensures gives_up { IfNone result (G.may_give_up ≡ true) }
    ensures part { G.needs_parts ≡ true → (G.view pass.new).part ≡ (G.view pass.old).part }
    ensures records { G.keeps_records ≡ true → OnlyGave (G.view pass.old) (G.view pass.new) }
    ensures closed { G.keeps_records ≡ true
        → IfSome result (λ stage. (stage ≡ Stage.Closed) × Closes op (G.view pass.old) (G.view pass.new)) }
{
    if close_one(rt, gate, pass, op) {
        Some(Stage::Closed)
    } else {
        None
    }
}

/// Offers an operator's next ticket, or closes the operator after its last one. The result is the operator's stage
/// after that, None where the gate gave up.
fn offer_turn<G: Gate, R: Wait>(
    rt: &R,
    gate: &G,
    pass: &mut G::Pass,
    op: Op,
    count: u32,
    stage: Stage,
) -> Option<Stage>
    requires { G.is_pass gate.now pass.old }
    ensures own { G.is_pass gate.now pass.new }
    ensures gives_up { IfNone result (G.may_give_up ≡ true) }
    ensures part { G.needs_parts ≡ true → (G.view pass.new).part ≡ (G.view pass.old).part }
    ensures records { G.keeps_records ≡ true → OnlyGave (G.view pass.old) (G.view pass.new) }
    ensures shows { G.keeps_records ≡ true
        → count_of (G.view pass.old) op ≡ count → ShowsStage (G.view pass.old) op stage
        → IfSome result (ShowsStage (G.view pass.new) op) }
    ensures others { G.keeps_records ≡ true
        → IfSome result (λ _. ChangesOnly op (G.view pass.old) (G.view pass.new)) }
{
    match stage {
        Stage::Offered(before) if before < count => {
            let number = before + 1;
            offer(rt, gate, pass, Ticket { op, number }, stage)
        }
        Stage::Offered(_) => close_turn(rt, gate, pass, op),
        Stage::Ended => close_turn(rt, gate, pass, op),
        Stage::Closed => Some(Stage::Closed),
    }
}

/// How a round of a feeder over its operators ended.
#[derive(Clone, Copy, PartialEq, Eq, Drop)]
enum Round {
    /// Every operator is closed.
    Closed,
    /// Some operator went on to another stage.
    Moved,
    /// Some operator is not closed, and none went on.
    Still,
    GaveUp,
}

impl Round {
    /// The round after the turn of an operator, which went from one stage to another or stayed.
    fn behind(self, from: Stage, to: Stage) -> Round
        ensures closed { result ≡ Round.Closed → (self ≡ Round.Closed) × (to ≡ Stage.Closed) }
        ensures gave_up { result ≡ Round.GaveUp → self ≡ Round.GaveUp }
    {
        if to != from {
            return Round::Moved;
        }
        if to != Stage::Closed && self == Round::Closed {
            return Round::Still;
        }
        self
    }
}

/// Goes round the operators once; `counts` says how many mutants each operator has.
fn feed_round<G: Gate, R: Wait>(
    rt: &R,
    gate: &G,
    pass: &mut G::Pass,
    ops: &[Op],
    counts: &[u32; 22],
    stages: &mut [Stage; 22],
) -> Round
    requires { G.is_pass gate.now pass.old }
    ensures own { G.is_pass gate.now pass.new }
    ensures gives_up { result ≡ Round.GaveUp → G.may_give_up ≡ true }
    ensures part { G.needs_parts ≡ true → (G.view pass.new).part ≡ (G.view pass.old).part }
    ensures records { G.keeps_records ≡ true → OnlyGave (G.view pass.old) (G.view pass.new) }
    ensures shows { G.keeps_records ≡ true → result ≢ Round.GaveUp
        → ((op : OpModel) → count_of (G.view pass.old) op ≡ slice_index counts.now (index op))
        → AllShow (G.view pass.old) stages.old → AllShow (G.view pass.new) stages.new }
    ensures closed { result ≡ Round.Closed → All (λ op. stage_of stages.new op ≡ Stage.Closed) ops.now }
    ensures others { (op : OpModel) → ¬ (Contains ops.now op) → stage_of stages.new op ≡ stage_of stages.old op }
{
    let mut round = Round::Closed;
    for op in ops {
        let old = stages[op.index()];
        let Some(stage) = offer_turn(rt, gate, pass, *op, counts[op.index()], old) else {
            return Round::GaveUp;
        };
        round = round.behind(old, stage);
        stages[op.index()] = stage;
    }
    round
}

/// Goes round the operators, offers the next ticket of each, closes each after its last one, and ends when all are
/// closed. An operator that is full has its turn again in the next round; an offer that was lost is made again at once.
/// Where a ticket is refused for good, its operator is closed: the gate may have other feeders, and one of them may
/// have offered more or closed the operator. The call takes no memory.
pub fn feed<G: Gate, R: Wait>(
    rt: &R,
    gate: &G,
    mut pass: G::Pass,
    ops: &[Op],
    plan: &Plan,
) -> (G::Pass, Result<(), BenchFault>)
    requires { G.is_pass gate.now pass }
    ensures own { G.is_pass gate.now result.0 }
    ensures refused { IfErr result.1 (IsStalled G.may_give_up) }
    ensures part { G.needs_parts ≡ true → (G.view result.0).part ≡ (G.view pass).part }
    ensures records { G.keeps_records ≡ true → OnlyGave (G.view pass) (G.view result.0) }
    ensures fed { G.keeps_records ≡ true
        → IsReadyPass plan.now (G.view pass) → IfOk result.1 (λ _. AreFed ops.now (G.view result.0)) }
{
    let counts = plan.counts();
    let mut stages = [Stage::Offered(0); 22];
    let backoff = Backoff::new();
    for _ in rt.forever() {
        match feed_round(rt, gate, &mut pass, ops, &counts, &mut stages) {
            Round::Closed => return (pass, Ok(())),
            Round::GaveUp => return (pass, Err(BenchFault::Stalled)),
            Round::Moved => backoff.reset(),
            Round::Still => backoff.snooze(),
        }
    }
    unreachable!()
}

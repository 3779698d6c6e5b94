//! The two forms of the exchange give the same answers: to the calls of a table, for every operator, and to passes that
//! were split.
ghost use Rattle.std.specs.Prelude.{◌≡◌, ◌<◌, true};

use crate::tickets::{aar, assert_tally, counts, taken};
use crate::turns::{TURNS, Turn, parts, shown, turn_of};
use mothra_codes::Op;
use mothra_exchange::{Close, Gate, LockedExchange, Offer, TableExchange, Take, Tally, Ticket};
use std::process::Abort;
use std::sync::Wait;
use std::test::Fail;

/// The answer to a call.
fn answer<G: Gate, R: Wait + AllocGlobal>(
    rt: &R,
    gate: &G,
    pass: &mut G::Pass,
    call: &str,
) -> Result<String, Fail>
    requires { G.is_pass gate.now pass.old }
    ensures { G.is_pass gate.now pass.new }
{
    let alloc = rt.alloc();
    let answer = match turn_of(call) {
        Some(Turn::Offer(ticket)) => shown(alloc, gate.offer(rt, pass, ticket))?,
        Some(Turn::Take(op)) => shown(alloc, gate.take(rt, pass, op))?,
        Some(Turn::Close(op)) => shown(alloc, gate.close(rt, pass, op))?,
        None => return Err(call.into()),
    };
    Ok(answer)
}

/// Each call of the table has its answer.
fn assert_turns<G: Gate, R: Wait + Abort + AllocGlobal>(
    rt: &R,
    gate: &G,
    pass: &mut G::Pass,
) -> Result<(), Fail>
    requires { G.is_pass gate.now pass.old }
    ensures { G.is_pass gate.now pass.new }
{
    for row in TURNS.trim_matches('\n').lines() {
        let (call, expected) = parts(row)?;
        let answer = answer(rt, gate, pass, call)?;
        assert!(rt; answer.as_str() == expected, "{row}: {answer}");
    }
    Ok(())
}

fn plays_the_turns<G: Gate + Drop, R: Wait + Abort + AllocGlobal>(
    rt: &R,
    gate: G,
    mut pass: G::Pass,
) -> Result<(), Fail>
where
    G::Pass: Drop,
    requires { G.is_pass gate pass }
{
    assert_turns(rt, &gate, &mut pass)?;
    let tally = gate.finish(pass);
    assert_tally(rt, &tally, Op::Aar, [3, 3, 3], true);
    assert_tally(rt, &tally, Op::Abs, [0, 0, 0], true);
    assert_tally(rt, &tally, Op::Uoi, [0, 0, 0], false);
    Ok(())
}

#[test]
fn the_locked_form_answers_the_turns(rt: HostRuntime) -> Result<(), Fail> {
    let (gate, pass) = LockedExchange::<2>::new(rt.alloc(), counts(Op::Aar, 3))?;
    plays_the_turns(&rt, gate, pass)
}

#[test]
fn the_word_form_answers_the_turns(rt: HostRuntime) -> Result<(), Fail> {
    let (gate, pass) = TableExchange::<2>::new(rt.alloc(), counts(Op::Aar, 3))?;
    plays_the_turns(&rt, gate, pass)
}

/// Of an operator with two tickets, one is offered and handed out; then the operator is closed.
fn serves<G: Gate, R: Wait + Abort>(rt: &R, gate: &G, pass: &mut G::Pass, op: Op)
    requires { G.is_pass gate.now pass.old }
    ensures { G.is_pass gate.now pass.new }
{
    let ticket = Ticket { op, number: 1 };
    assert!(rt; gate.offer(rt, pass, ticket) == Offer::Accepted);
    assert!(rt; gate.take(rt, pass, op) == Take::Taken(ticket));
    assert!(rt; gate.take(rt, pass, op) == Take::Empty);
    assert!(rt; gate.close(rt, pass, op) == Close::Done);
}

/// Each operator was offered and handed out one of its two tickets, and closed.
fn assert_served(rt: &impl Abort, tally: &Tally) {
    for op in Op::ALL {
        assert_tally(rt, tally, op, [2, 1, 1], true);
    }
}

/// Each operator is open at first, with nothing offered, and the tally has what was done with it.
fn serves_every_operator<G: Gate, R: Wait + Abort>(rt: &R, gate: G, mut pass: G::Pass)
    requires { G.is_pass gate pass }
{
    for op in Op::ALL {
        serves(rt, &gate, &mut pass, op);
    }
    assert_served(rt, &gate.finish(pass));
}

#[test]
fn the_locked_form_serves_every_operator(rt: HostRuntime) -> Result<(), Fail> {
    let (gate, pass) = LockedExchange::<2>::new(rt.alloc(), [2; 22])?;
    serves_every_operator(&rt, gate, pass);
    Ok(())
}

#[test]
fn the_word_form_serves_every_operator(rt: HostRuntime) -> Result<(), Fail> {
    let (gate, pass) = TableExchange::<2>::new(rt.alloc(), [2; 22])?;
    serves_every_operator(&rt, gate, pass);
    Ok(())
}

/// A pass that is split off after the first offer takes the first ticket.
pub(crate) fn splits_and_merges<G: Gate, R: Wait + Abort>(rt: &R, gate: G, mut pass: G::Pass)
    requires own { G.is_pass gate pass }
    requires part { G.needs_parts ≡ true → 1 < (G.view pass).part }
{
    assert!(rt; gate.offer(rt, &mut pass, aar(1)) == Offer::Accepted);
    let mut other = gate.split(&mut pass);
    assert!(rt; gate.take(rt, &mut other, Op::Aar) == taken(Op::Aar, 1));
    assert!(rt; gate.take(rt, &mut pass, Op::Aar) == Take::Empty);
    gate.merge(&mut pass, other);
    let tally = gate.finish(pass);
    assert_tally(rt, &tally, Op::Aar, [3, 1, 1], false);
}

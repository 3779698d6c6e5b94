//! The log of a `State` has the event of each call that changes it.

use crate::tickets::counts;
use crate::turns::{TURNS, Turn, parts, shown, turn_of};
use mothra_codes::Op;
use mothra_exchange::{Event, State};
use std::alloc::Global;
use std::process::Abort;
use std::test::Fail;

/// The answer to a call.
fn answer(alloc: Global, state: &mut State<2>, call: &str) -> Result<String, Fail> {
    let answer = match turn_of(call) {
        Some(Turn::Offer(ticket)) => shown(alloc, state.offer(ticket))?,
        Some(Turn::Take(op)) => shown(alloc, state.take(op))?,
        Some(Turn::Close(op)) => shown(alloc, state.close(op))?,
        None => return Err(call.into()),
    };
    Ok(answer)
}

/// Each call of the table has its answer.
fn assert_turns(rt: &(impl AllocGlobal + Abort), state: &mut State<2>) -> Result<(), Fail> {
    for row in TURNS.trim_matches('\n').lines() {
        let (call, expected) = parts(row)?;
        let answer = answer(rt.alloc(), state, call)?;
        assert!(rt; answer.as_str() == expected, "{row}: {answer}");
    }
    Ok(())
}

/// The log has the events of these rows.
fn assert_events(
    rt: &(impl AllocGlobal + Abort),
    events: &[Event],
    rows: &str,
) -> Result<(), Fail> {
    let mut rows = rows.trim_matches('\n').lines();
    for event in events {
        let event = shown(rt.alloc(), *event)?;
        assert_eq!(rt; rows.next(), Some(event.as_str()));
    }
    assert_eq!(rt; rows.next(), None);
    Ok(())
}

#[test]
fn the_log_has_the_events(rt: HostRuntime) -> Result<(), Fail> {
    let mut state = State::<2>::new(rt.alloc(), counts(Op::Aar, 3))?;
    assert_turns(&rt, &mut state)?;
    assert_events(&rt, state.events(), EVENTS)
}

const EVENTS: &str = "
Offered(Ticket { op: Aar, number: 1 })
Offered(Ticket { op: Aar, number: 2 })
Handed(Ticket { op: Aar, number: 1 })
Offered(Ticket { op: Aar, number: 3 })
Closed(Aar)
Handed(Ticket { op: Aar, number: 2 })
Handed(Ticket { op: Aar, number: 3 })
Closed(Abs)
";

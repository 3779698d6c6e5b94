//! What the tests of a job do: the room that they leave, and the mutants that they kill.

ghost use Rattle.std.specs.Prelude.{IfOk, IfSome, map};
ghost use Rattle.equivalents_app.specs.Prelude.{line_of};
ghost use Rattle.equivalents_app.specs.{LeavesRoom};

use f77_check::Checked;
use f77_meaning::{Arg, Outcome, RunFault, Values};
use f77_run::counted_run;
use indexmap::IndexSet;
use mothra_codes::Ticket;
use mothra_verdicts::{Bench, Verdicts};
use std::alloc::{AllocError, Global};

/// The least room that the tests leave: how many steps before the limit the program returns or stops. None where a test
/// does not fit, or the program neither returns nor stops on it.
pub(crate) fn room_of(
    alloc: Global,
    checked: &Checked,
    tests: &[Values<Arg>],
    steps: u32,
) -> Result<Option<u32>, AllocError>
    ensures { IfOk result
        (λ found. IfSome found (λ room. LeavesRoom (map line_of checked.now.program) tests.now steps room)) }
{
    let mut room = u32::MAX;
    for test in tests {
        match counted_run(alloc, checked, test.as_slice(), steps) {
            Ok((Outcome::Returned(_) | Outcome::Stopped(_), made)) => room = room.min(steps - made),
            Err(RunFault::Memory) => return Err(AllocError),
            _ => return Ok(None),
        }
    }
    Ok(Some(room))
}

/// The mutants of the bench that a test kills: of these nothing is asked, since a run costs less than a proof.
pub(crate) fn killed_on(alloc: Global, bench: &Bench) -> Result<IndexSet<Ticket>, AllocError> {
    let mut killed = IndexSet::new(alloc);
    if bench.tests().is_empty() {
        return Ok(killed);
    }
    let mut verdicts = Verdicts::of(alloc, bench)?;
    for ticket in bench.plan().tickets(alloc)? {
        // A mutant of the plan is refused for want of memory alone.
        let row = verdicts.row(alloc, ticket).map_err(|_| AllocError)?;
        if row.kills.as_slice().contains(&true) {
            killed.insert(ticket)?;
        }
    }
    Ok(killed)
}

//! Tickets, and the numbers of an operator.
ghost use Rattle.std.specs.Prelude.{◌≡◌};

use mothra_codes::Op;
use mothra_exchange::{Take, Tally, Ticket};
use std::process::Abort;

/// The counts of the operators where this one has `count` tickets and the others have none.
pub(crate) fn counts(op: Op, count: u32) -> [u32; 22] {
    let mut counts = [0u32; 22];
    counts[op.index()] = count;
    counts
}

/// A ticket of AAR.
pub(crate) fn aar(number: u32) -> Ticket
    ensures { result.op ≡ Op.Aar }
{
    Ticket {
        op: Op::Aar,
        number,
    }
}

/// The answer to a take that hands out this ticket.
pub(crate) fn taken(op: Op, number: u32) -> Take {
    Take::Taken(Ticket { op, number })
}

/// The tally says of the operator how many tickets it had, how many were offered, how many were handed out, and whether
/// it was closed.
pub(crate) fn assert_tally(
    rt: &impl Abort,
    tally: &Tally,
    op: Op,
    numbers: [u32; 3],
    closed: bool,
) {
    assert!(rt; tally.count(op) == numbers[0]);
    assert!(rt; tally.offered(op) == numbers[1]);
    assert!(rt; tally.handed(op) == numbers[2]);
    assert!(rt; tally.closed(op) == closed);
}

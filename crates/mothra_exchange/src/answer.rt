//! The answers of an exchange to an offer, a take and a close.

use mothra_codes::Ticket;

/// The answer to an offer. Where several refusals would do, the first in this order is given.
#[derive(Clone, Copy, PartialEq, Eq, Debug, Drop)]
pub enum Offer {
    /// The operator is closed.
    Closed,
    /// The number is above the operator's count.
    PastEnd,
    /// Another number has to be offered next: this one, which is one above the last that was accepted.
    OutOfTurn(u32),
    /// As many tickets of the operator wait to be taken as may wait.
    Full,
    /// Another pass changed the word between the load and the compare-exchange. The offer may be tried again.
    Busy,
    /// The ticket was accepted, and waits to be taken.
    Accepted,
    /// The gate answers no more. The exchanges of this crate never say so.
    GaveUp,
}

/// The answer to a take.
#[derive(Clone, Copy, PartialEq, Eq, Debug, Drop)]
pub enum Take {
    /// The operator is closed, and all its offered tickets are handed out: there will be no more.
    Finished,
    /// No ticket of the operator waits now, but more may be offered.
    Empty,
    /// Another pass changed the word between the load and the compare-exchange. The take may be tried again.
    Busy,
    /// The next ticket of the operator. No other call gets it.
    Taken(Ticket),
    /// The gate answers no more. The exchanges of this crate never say so.
    GaveUp,
}

/// The answer to a close.
#[derive(Clone, Copy, PartialEq, Eq, Debug, Drop)]
pub enum Close {
    /// The operator had been closed before.
    Already,
    /// Another pass changed the word between the load and the compare-exchange. The close may be tried again.
    Busy,
    /// This call closed the operator.
    Done,
    /// The gate answers no more. The exchanges of this crate never say so.
    GaveUp,
}

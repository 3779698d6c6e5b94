//! The events of an exchange.

use mothra_codes::{Op, Ticket};

/// A change of an exchange.
#[derive(Clone, Copy, PartialEq, Eq, Debug, Drop)]
pub enum Event {
    /// The ticket was offered and accepted.
    Offered(Ticket),
    /// The ticket was handed out.
    Handed(Ticket),
    /// No ticket of the operator is accepted from here on.
    Closed(Op),
}

//! A table of calls, with their answers, for an exchange in which AAR has three tickets and ABS none, and at most two
//! tickets may wait.

use mothra_codes::Op;
use mothra_exchange::Ticket;
use std::alloc::{AllocError, Global};
use std::fmt::Debug;
use std::test::Fail;

/// Rows of the form `CALL => ANSWER`.
pub(crate) const TURNS: &str = "
take AAR => Empty
offer AAR 1 => Accepted
offer AAR 2 => Accepted
offer AAR 3 => Full
offer AAR 5 => PastEnd
take AAR => Taken(Ticket { op: Aar, number: 1 })
offer AAR 2 => OutOfTurn(3)
offer AAR 0 => OutOfTurn(3)
offer AAR 3 => Accepted
close AAR => Done
offer AAR 3 => Closed
take AAR => Taken(Ticket { op: Aar, number: 2 })
take AAR => Taken(Ticket { op: Aar, number: 3 })
take AAR => Finished
offer ABS 1 => PastEnd
take ABS => Empty
close ABS => Done
close ABS => Already
take ABS => Finished
";

/// The call of a row, and its answer.
pub(crate) fn parts(row: &str) -> Result<(&str, &str), Fail> {
    match row.split_once(" => ") {
        Some(parts) => Ok(parts),
        None => Err(row.into()),
    }
}

/// A call of the exchange.
#[derive(Clone, Copy, Drop)]
pub(crate) enum Turn {
    Offer(Ticket),
    Take(Op),
    Close(Op),
}

/// The ticket of a text: a code, a blank and a number.
fn ticket_of(text: &str) -> Option<Ticket> {
    let (code, number) = text.split_once(' ')?;
    Some(Ticket {
        op: Op::of(code)?,
        number: number.parse().ok()?,
    })
}

/// The call that a text names.
pub(crate) fn turn_of(call: &str) -> Option<Turn> {
    let (name, of) = call.split_once(' ')?;
    match name {
        "offer" => Some(Turn::Offer(ticket_of(of)?)),
        "take" => Some(Turn::Take(Op::of(of)?)),
        "close" => Some(Turn::Close(Op::of(of)?)),
        _ => None,
    }
}

/// An answer, written as in the rows.
pub(crate) fn shown<T: Debug + Drop>(alloc: Global, answer: T) -> Result<String, AllocError> {
    format!(in alloc; "{answer:?}")
}

//! The statement that may still have continuation lines.

ghost use Rattle.std.specs.Prelude.{◌≤◌};

use crate::card::Card;

/// The card so far, and how many continuation lines it has. The invariant says that there are at most 19 (3.3).
#[derive(Drop)]
pub(crate) struct Statement {
    pub(crate) card: Card,
    pub(crate) continuations: u32,
    ghost at_most_19: { continuations ≤ 19 },
}

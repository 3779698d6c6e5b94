//! The name of a mutant.

use crate::op::Op;

/// A mutant, named by its operator and its place in that operator's list, from 1.
#[derive(Clone, Copy, PartialEq, Eq, Hash, Debug, Drop)]
pub struct Ticket {
    pub op: Op,
    pub number: u32,
}

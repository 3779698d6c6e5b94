//! The view of a pass: what it did and saw. Contracts and the rule speak of views; no code ever makes one.

use crate::word::Word;
use mothra_codes::{Op, Ticket};
use std::collections::LinkedList;

/// What a pass saw of an operator. No value of this type is made.
pub struct Look {
    /// How often the pass loaded the word.
    pub loads: u64,
    /// The word of the last load.
    pub loaded: Word,
    /// The last word that the pass found or wrote.
    pub seen: Word,
}

/// The close of an operator. No value of this type is made.
pub struct Closing {
    pub op: Op,
    /// How many tickets had been offered.
    pub offered: u32,
}

/// What a pass has done and seen. No value of this type is made: contracts speak of it.
pub struct View {
    /// The count of each operator.
    pub counts: LinkedList<u32>,
    /// How many of the exchange's 1,048,576 shares the pass has. A pass with all of them is whole.
    pub part: u64,
    /// The tickets that the pass offered and got accepted, in order.
    pub offered: LinkedList<Ticket>,
    /// The tickets that the pass took, in order.
    pub taken: LinkedList<Ticket>,
    /// The closes that the pass made, in order.
    pub closings: LinkedList<Closing>,
    /// What the pass saw of each operator, in the order of the operators.
    pub looks: LinkedList<Look>,
    /// While another pass is being merged into this one, the looks that this one had before. Else empty.
    pub mine: LinkedList<Look>,
    /// While another pass is being merged into this one, the looks that the other one had. Else empty.
    pub theirs: LinkedList<Look>,
}

//! The numbers of a finished exchange.

ghost use Rattle.std.specs.Prelude.{◌≡◌, List};
ghost use Rattle.mothra_exchange.specs.declared.word.Word.{Word};
ghost use Rattle.mothra_exchange.specs.Tally.{operator_word};

use crate::word::Word;
use mothra_codes::Op;
use std::marker::Model;

/// The numbers of each operator at the end of an exchange. Only `finish` of an exchange makes one.
#[derive(Drop)]
pub struct Tally {
    pub(crate) words: [Word; 22],
}

impl Model for Tally {
    ghost Value = { List Word };

    ghost view = { λ t. t.words };
}

impl Tally {
    /// How many tickets the operator had.
    pub fn count(&self, op: Op) -> u32
        ensures { result ≡ (operator_word self.now op).count }
    {
        self.words[op.index()].count
    }

    /// How many of them were offered and accepted.
    pub fn offered(&self, op: Op) -> u32
        ensures { result ≡ (operator_word self.now op).offered }
    {
        self.words[op.index()].offered
    }

    /// How many were handed out: those with the numbers 1 to this one.
    pub fn handed(&self, op: Op) -> u32
        ensures { result ≡ (operator_word self.now op).handed }
    {
        self.words[op.index()].handed
    }

    /// Whether the operator was closed.
    pub fn closed(&self, op: Op) -> bool
        ensures { result ≡ (operator_word self.now op).closed }
    {
        self.words[op.index()].closed
    }
}

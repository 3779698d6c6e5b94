//! The numbers of an operator, and the 64-bit word that packs them. Both forms of the exchange have their answers from
//! here; of packed words only the rule speaks.

ghost use Rattle.std.specs.Prelude.{◌≡◌};
ghost use Rattle.mothra_exchange.specs.declared.word.Word.{Word};
ghost use Rattle.mothra_exchange.specs.Word.{pack, FitsWord, InBounds, opening_word};
ghost use Rattle.mothra_exchange.specs.Answer as table;

use crate::answer::{Close, Offer, Take};
use mothra_codes::{Op, Ticket};

/// How many tickets an operator has, how many were offered, how many were handed out, and whether the operator is
/// closed.
#[derive(Clone, Copy, Drop)]
pub struct Word {
    pub count: u32,
    pub offered: u32,
    pub handed: u32,
    pub closed: bool,
}

/// The largest count of an operator.
pub(crate) const LARGEST_COUNT: u32 = 1_048_575;

// How many numbers a field of the packed word can hold: a count takes 20 bits. The three constants after it say where
// the other fields begin.
const FIELD: u64 = LARGEST_COUNT as u64 + 1;

const OFFERED: u64 = FIELD;

const HANDED: u64 = FIELD * FIELD;

const CLOSED: u64 = FIELD * FIELD * FIELD;

impl Word {
    /// The numbers of an operator with this count in a new exchange.
    pub fn opening(count: u32) -> Word
        ensures { result ≡ opening_word count }
    {
        Word {
            count,
            offered: 0,
            handed: 0,
            closed: false,
        }
    }

    /// The word that packs the numbers.
    pub fn pack(self) -> u64
        requires { FitsWord self }
        ensures { result ≡ pack self }
    {
        u64::from(self.count)
            + OFFERED * u64::from(self.offered)
            + HANDED * u64::from(self.handed)
            + CLOSED * u64::from(self.closed)
    }

    /// The numbers of a packed word.
    pub fn unpack(bits: u64) -> Word
        ensures { (w : Word) → FitsWord w → bits ≡ pack w → result ≡ w }
    {
        Word {
            count: (bits % FIELD) as u32,
            offered: (bits / OFFERED % FIELD) as u32,
            handed: (bits / HANDED % FIELD) as u32,
            closed: bits / CLOSED == 1,
        }
    }

    /// The answer to an offer of ticket `number`, where `bound` tickets may wait.
    pub fn offer_answer(self, number: u32, bound: u32) -> Offer
        requires { InBounds bound self }
        ensures { result ≡ table.offer_answer bound number self }
    {
        if self.closed {
            return Offer::Closed;
        }
        if number > self.count {
            return Offer::PastEnd;
        }
        if number != self.offered + 1 {
            return Offer::OutOfTurn(self.offered + 1);
        }
        if self.offered - self.handed == bound {
            return Offer::Full;
        }
        Offer::Accepted
    }

    /// The answer to a take of the next ticket of the operator.
    pub fn take_answer(self, op: Op) -> Take
        requires { FitsWord self }
        ensures { result ≡ table.take_answer op self }
    {
        if self.handed == self.offered {
            return if self.closed {
                Take::Finished
            } else {
                Take::Empty
            };
        }
        Take::Taken(Ticket {
            op,
            number: self.handed + 1,
        })
    }

    /// The answer to a close.
    pub fn close_answer(self) -> Close
        ensures { result ≡ table.close_answer self }
    {
        if self.closed {
            return Close::Already;
        }
        Close::Done
    }
}

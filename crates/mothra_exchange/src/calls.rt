//! The calls of a `TableExchange`: each is one load and at most one compare-exchange.

ghost use Rattle.std.specs.Prelude.{◌≡◌};
ghost use Rattle.mothra_codes.specs.Op.{index};
ghost use Rattle.mothra_exchange.specs.View.{view_after_load};
ghost use Rattle.mothra_exchange.specs.Rule.{Loads};
ghost use Rattle.mothra_exchange.specs.code.Calls.{HasLoaded};
ghost use Rattle.mothra_exchange.specs.Calls.{OfferDid, TakeDid, CloseDid, OfferLeaves, TakeLeaves, CloseLeaves};
ghost use Rattle.mothra_exchange.specs.Table.{view_of, IsPassOf};

use crate::answer::{Close, Offer, Take};
use crate::exchange::{AClose, ATake, AnOffer};
use crate::rule::LoadPlay;
use crate::table::{Pass, TableExchange};
use crate::word::Word;
use mothra_codes::{Op, Ticket};

impl<const C: u32> TableExchange<C> {
    /// Offers a ticket. The call tries once, never waits and takes no memory.
    pub fn try_offer(&self, pass: &mut Pass, ticket: Ticket) -> Offer
        requires { IsPassOf self.now pass.old }
        ensures own { IsPassOf self.now pass.new }
        ensures did { OfferDid C (view_of pass.old) ticket result (view_of pass.new) }
    {
        let word = self.load(pass, ticket.op);
        self.answer_offer(pass, ticket, word)
    }

    /// Takes the next ticket of an operator. The call tries once, never waits and takes no memory.
    pub fn try_take(&self, pass: &mut Pass, op: Op) -> Take
        requires { IsPassOf self.now pass.old }
        ensures own { IsPassOf self.now pass.new }
        ensures did { TakeDid C (view_of pass.old) op result (view_of pass.new) }
    {
        let word = self.load(pass, op);
        self.answer_take(pass, op, word)
    }

    /// Closes an operator. The call tries once, never waits and takes no memory.
    pub fn try_close(&self, pass: &mut Pass, op: Op) -> Close
        requires { IsPassOf self.now pass.old }
        ensures own { IsPassOf self.now pass.new }
        ensures did { CloseDid C (view_of pass.old) op result (view_of pass.new) }
    {
        let word = self.load(pass, op);
        self.answer_close(pass, op, word)
    }

    // The first half of each call: one load, which the view of the pass notes.
    pub(crate) fn load(&self, pass: &mut Pass, op: Op) -> Word
        requires { IsPassOf self.now pass.old }
        ensures own { IsPassOf self.now pass.new }
        ensures found { Loads C (view_of pass.old) (index op) result }
        ensures view { view_of pass.new ≡ view_after_load (view_of pass.old) (index op) result }
        ensures loaded { HasLoaded C (view_of pass.new) (index op) result }
    {
        Word::unpack(
            self.table
                .shared
                .load::<LoadPlay<C>>(&mut pass.seat, op.index()),
        )
    }

    // The second half of an offer: the answer for the word that the pass loaded last.
    pub(crate) fn answer_offer(&self, pass: &mut Pass, ticket: Ticket, word: Word) -> Offer
        requires own { IsPassOf self.now pass.old }
        requires loaded { HasLoaded C (view_of pass.old) (index ticket.op) word }
        ensures own { IsPassOf self.now pass.new }
        ensures left { OfferLeaves C (view_of pass.old) ticket word result (view_of pass.new) }
    {
        let answer = word.offer_answer(ticket.number, C);
        let Offer::Accepted = answer else {
            return answer;
        };
        let next = Word {
            offered: word.offered + 1,
            ..word
        };
        if self.exchange::<AnOffer>(pass, ticket.op, word, next) {
            answer
        } else {
            Offer::Busy
        }
    }

    // The second half of a take: the answer for the word that the pass loaded last.
    pub(crate) fn answer_take(&self, pass: &mut Pass, op: Op, word: Word) -> Take
        requires own { IsPassOf self.now pass.old }
        requires loaded { HasLoaded C (view_of pass.old) (index op) word }
        ensures own { IsPassOf self.now pass.new }
        ensures left { TakeLeaves (view_of pass.old) op word result (view_of pass.new) }
    {
        let answer = word.take_answer(op);
        let Take::Taken(_) = answer else {
            return answer;
        };
        let next = Word {
            handed: word.handed + 1,
            ..word
        };
        if self.exchange::<ATake>(pass, op, word, next) {
            answer
        } else {
            Take::Busy
        }
    }

    // The second half of a close: the answer for the word that the pass loaded last.
    pub(crate) fn answer_close(&self, pass: &mut Pass, op: Op, word: Word) -> Close
        requires own { IsPassOf self.now pass.old }
        requires loaded { HasLoaded C (view_of pass.old) (index op) word }
        ensures own { IsPassOf self.now pass.new }
        ensures left { CloseLeaves (view_of pass.old) op word result (view_of pass.new) }
    {
        let answer = word.close_answer();
        let Close::Done = answer else {
            return answer;
        };
        let next = Word {
            closed: true,
            ..word
        };
        if self.exchange::<AClose>(pass, op, word, next) {
            answer
        } else {
            Close::Busy
        }
    }
}

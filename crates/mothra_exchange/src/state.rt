//! The exchange with its log, for one caller at a time.

ghost use Rattle.std.specs.Prelude.{◌≡◌, ◌↔◌, [], map, IfOk, IfErr, OnOk, IsTrue, vec_capacity};
ghost use Rattle.mothra_exchange.specs.Word.{opening_word};
ghost use Rattle.mothra_exchange.specs.Answer.{offer_answer, take_answer, close_answer};
ghost use Rattle.mothra_exchange.specs.Log.{IsLegalLog, log_after_offer, log_after_take, log_after_close};
ghost use Rattle.mothra_exchange.specs.State.{History, history, numbers_at, KeepsLog, Tallies, counts_of, room};
ghost use Rattle.mothra_exchange.specs.Fault.{AllCountsFit, IsFaultOfCounts};

use crate::answer::{Close, Offer, Take};
use crate::fault::{ExchangeFault, first_too_large};
use crate::log::Event;
use crate::tally::Tally;
use crate::word::Word;
use mothra_codes::{Op, Ticket};
use std::alloc::Global;
use std::marker::Model;

/// The exchange with its log, for one caller at a time. Up to `C` tickets of an operator may wait,
/// 1 to 1,048,575. Its calls never answer Busy. A contract sees the counts and the events.
#[derive(Drop)]
pub struct State<const C: u32> {
    words: [Word; 22],
    log: Vec<Event>,
}

impl<const C: u32> Model for State<C> {
    ghost Value = { History };

    ghost view = { λ s. history (counts_of s.words) s.log.items };

    ghost invariant = { λ s. KeepsLog C s.words s.log.items (vec_capacity s.log) };
}

// The numbers of each operator before anything is offered.
pub(crate) fn opening_state(counts: &[u32; 22]) -> [Word; 22]
    ensures { result ≡ map opening_word counts.now }
{
    let mut words = [Word::opening(0); 22];
    for i in 0..22 {
        words[i] = Word::opening(counts[i]);
    }
    words
}

// Whether these are the counts of the words.
fn have_counts(words: &[Word; 22], counts: &[u32; 22]) -> bool
    ensures { IsTrue result ↔ (counts_of words.now ≡ counts.now) }
{
    for i in 0..22 {
        if words[i].count != counts[i] {
            return false;
        }
    }
    true
}

// How many events a log for these counts can have.
fn room_of(counts: &[u32; 22]) -> usize
    requires { AllCountsFit counts.now }
    ensures { result ≡ room (map opening_word counts.now) }
{
    let mut total = 0usize;
    for i in 0..22 {
        total += 2 * counts[i] as usize + 1;
    }
    total
}

impl<const C: u32> State<C> {
    /// An empty log for these counts, which stand in the order of the operators. The memory for every
    /// event that can come is taken here.
    pub fn new(alloc: Global, counts: [u32; 22]) -> Result<State<C>, ExchangeFault>
        ensures empty { IfOk result (λ s. s ≡ history counts []) }
        ensures fits { OnOk result (AllCountsFit counts) }
        ensures fault { IfErr result (IsFaultOfCounts counts) }
    {
        if let Some(op) = first_too_large(&counts) {
            return Err(ExchangeFault::CountTooLarge(op));
        }
        match Vec::with_capacity(alloc, room_of(&counts)) {
            Ok(log) => Ok(State {
                words: opening_state(&counts),
                log,
            }),
            Err(_) => Err(ExchangeFault::Memory),
        }
    }

    // Whether the exchange was made for these counts.
    pub(crate) fn has_counts(&self, counts: &[u32; 22]) -> bool
        ensures { IsTrue result ↔ (self.now.counts ≡ counts.now) }
    {
        have_counts(&self.words, counts)
    }

    // The numbers of each operator in the log.
    pub(crate) fn into_tally(self) -> Tally
        ensures shows { Tallies self.entry result }
        ensures legal { IsLegalLog C self.entry.counts self.entry.events }
    {
        let State { words, log: _ } = self;
        Tally { words }
    }

    /// The log: what was offered, handed out and closed, in order.
    pub fn events(&self) -> &[Event]
        ensures log { result.now ≡ self.now.events }
        ensures legal { IsLegalLog C self.now.counts self.now.events }
    {
        self.log.as_slice()
    }

    /// Offers a ticket. Only an accepted ticket is logged.
    pub fn offer(&mut self, ticket: Ticket) -> Offer
        ensures legal { IsLegalLog C self.old.counts self.old.events }
        ensures answer { result ≡ offer_answer C ticket.number (numbers_at self.old ticket.op) }
        ensures log { self.new ≡ record self.old { events = log_after_offer self.old.events ticket result } }
    {
        let i = ticket.op.index();
        let word = self.words[i];
        let answer = word.offer_answer(ticket.number, C);
        if let Offer::Accepted = answer {
            let Ok(()) = self.log.push(Event::Offered(ticket)) else {
                unreachable!()
            };
            self.words[i].offered = word.offered + 1;
        }
        answer
    }

    /// Takes the next ticket of an operator. Only a take that got one is logged.
    pub fn take(&mut self, op: Op) -> Take
        ensures legal { IsLegalLog C self.old.counts self.old.events }
        ensures answer { result ≡ take_answer op (numbers_at self.old op) }
        ensures log { self.new ≡ record self.old { events = log_after_take self.old.events result } }
    {
        let i = op.index();
        let word = self.words[i];
        let answer = word.take_answer(op);
        if let Take::Taken(ticket) = answer {
            let Ok(()) = self.log.push(Event::Handed(ticket)) else {
                unreachable!()
            };
            self.words[i].handed = word.handed + 1;
        }
        answer
    }

    /// Closes an operator: no ticket of it is accepted from then on. Only the first close is logged.
    pub fn close(&mut self, op: Op) -> Close
        ensures legal { IsLegalLog C self.old.counts self.old.events }
        ensures answer { result ≡ close_answer (numbers_at self.old op) }
        ensures log { self.new ≡ record self.old { events = log_after_close self.old.events op result } }
    {
        let i = op.index();
        let answer = self.words[i].close_answer();
        if let Close::Done = answer {
            let Ok(()) = self.log.push(Event::Closed(op)) else {
                unreachable!()
            };
            self.words[i].closed = true;
        }
        answer
    }
}

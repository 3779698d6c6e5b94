//! The plain form of the exchange: a log behind one lock.

ghost use Rattle.std.specs.Prelude.{◌≡◌, ◌≢◌, [], IfOk, IfErr, OnOk, true, false};
ghost use Rattle.mothra_exchange.specs.View.{spent_view};
ghost use Rattle.mothra_exchange.specs.Answer.{offer_answer, take_answer, close_answer};
ghost use Rattle.mothra_exchange.specs.Gate.{MayOffer, MayTake, MayClose, OfferKept, TakeKept, CloseKept};
ghost use Rattle.mothra_exchange.specs.Log.{IsLegalLog};
ghost use Rattle.mothra_exchange.specs.State.{History, history, numbers_at, Tallies};
ghost use Rattle.mothra_exchange.specs.Fault.{AllCountsFit, IsFaultOfCounts};
ghost use Rattle.mothra_exchange.specs.Tally.{EndsAsViews};
ghost use Rattle.mothra_exchange.specs.Locked.{counts_given, TalliesLog};

use crate::answer::{Close, Offer, Take};
use crate::fault::ExchangeFault;
use crate::gate::Gate;
use crate::state::{State, opening_state};
use crate::tally::Tally;
use mothra_codes::{Op, Ticket};
use std::alloc::Global;
use std::sync::{Mutex, Wait};

/// The exchange as one lock around a `State`: whenever the lock is free, its events are a legal log.
/// It keeps no records and never answers Busy.
#[derive(Drop)]
pub struct LockedExchange<const C: u32> {
    // Used by `finish` alone. No clause can say what lies in a lock, so it has to compare the counts of the state
    // with these.
    counts: [u32; 22],
    state: Mutex<State<C>>,
}

/// A pass of a `LockedExchange`. It carries nothing.
#[derive(Drop)]
pub struct LockedPass;

impl<const C: u32> LockedExchange<C> {
    /// An exchange with these counts, in the order of the operators, in which nothing was offered.
    pub fn new(
        alloc: Global,
        counts: [u32; 22],
    ) -> Result<(LockedExchange<C>, LockedPass), ExchangeFault>
        ensures counts { IfOk result (λ r. counts_given r.0 ≡ counts) }
        ensures fits { OnOk result (AllCountsFit counts) }
        ensures fault { IfErr result (IsFaultOfCounts counts) }
    {
        let state = State::new(alloc, counts)?;
        let exchange = LockedExchange {
            counts,
            state: Mutex::new(state),
        };
        Ok((exchange, LockedPass))
    }
}

// The numbers of the state's log. Nobody puts a state of other counts into the lock; if one came out of it, it would
// be answered as an empty log for the counts given.
fn tally_of<const C: u32>(state: State<C>, counts: [u32; 22]) -> Tally
    ensures own { state.entry.counts ≡ counts → Tallies state.entry result }
    ensures other { state.entry.counts ≢ counts → Tallies (history counts []) result }
    ensures log { TalliesLog C counts result }
{
    if state.has_counts(&counts) {
        state.into_tally()
    } else {
        Tally {
            words: opening_state(&counts),
        }
    }
}

impl<const C: u32> Gate for LockedExchange<C> {
    ghost use Rattle.std.specs.Prelude.{false};
    ghost use Rattle.mothra_exchange.specs.View.{spent_view};

    type Pass = LockedPass;

    ghost is_pass = { λ _ _. Unit {0} };

    ghost view = { λ _. spent_view };

    ghost keeps_records = { false };

    ghost needs_parts = { false };

    ghost may_give_up = { false };

    ghost bound = { C };

    fn split(&self, _pass: &mut LockedPass) -> LockedPass {
        LockedPass
    }

    fn merge(&self, _pass: &mut LockedPass, _other: LockedPass) {}

    // The clause `answer` has no case Busy: the answer is that of the table for the numbers of some legal log.
    fn offer<R: Wait>(&self, rt: &R, _pass: &mut LockedPass, ticket: Ticket) -> Offer
        ensures gives_up { MayOffer false result }
        ensures records { false ≡ true → OfferKept C spent_view ticket result spent_view }
        ensures answer { (h : History) × IsLegalLog C h.counts h.events
            × (result ≡ offer_answer C ticket.number (numbers_at h ticket.op)) }
    {
        self.state.lock(rt).offer(ticket)
    }

    fn take<R: Wait>(&self, rt: &R, _pass: &mut LockedPass, op: Op) -> Take
        ensures gives_up { MayTake false result }
        ensures records { false ≡ true → TakeKept C spent_view op result spent_view }
        ensures answer { (h : History) × IsLegalLog C h.counts h.events
            × (result ≡ take_answer op (numbers_at h op)) }
    {
        self.state.lock(rt).take(op)
    }

    fn close<R: Wait>(&self, rt: &R, _pass: &mut LockedPass, op: Op) -> Close
        ensures gives_up { MayClose false result }
        ensures records { false ≡ true → CloseKept C spent_view op result spent_view }
        ensures answer { (h : History) × IsLegalLog C h.counts h.events
            × (result ≡ close_answer (numbers_at h op)) }
    {
        self.state.lock(rt).close(op)
    }

    // The numbers of the tally are those of some legal log for the counts given.
    fn finish(self, _pass: LockedPass) -> Tally
        ensures records { false ≡ true → EndsAsViews C spent_view result }
        ensures log { TalliesLog C (counts_given self.entry) result }
    {
        let LockedExchange { counts, state } = self;
        tally_of(state.into_inner(), counts)
    }
}

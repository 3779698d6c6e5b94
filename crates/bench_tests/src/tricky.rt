//! A gate that keeps no records, counts its calls, and plays a trick.

ghost use Rattle.std.specs.Prelude.{◌≡◌};

use mothra_exchange::{Close, Gate, Offer, Take, Tally, Ticket};
use mothra_ops::Op;
use std::hint::spin_loop;
use std::sync::Wait;
use std::sync::atomic::{AtomicBool, AtomicU64, Ordering};

/// How often a take that is held looks for a take of another pass before it gives up.
const MOST_TURNS: u32 = 50_000_000;

/// How many offers a pass keeps.
const NOTED: usize = 8;

/// What a gate does differently. Passes are numbered from 1 in the order in which they are split off.
#[derive(Clone, Copy, Drop)]
pub(crate) enum Trick {
    /// Each call is passed to the gate inside.
    Nothing,
    /// One take, after this many others, answers this ticket.
    Invents(u64, Ticket),
    /// Two tickets change places.
    Swaps(Ticket, Ticket),
    /// Each offer is answered as if the operator were closed.
    Refuses,
    /// A ticket is dropped, and the take is made again.
    Drops(Ticket),
    /// After this many tickets, takes answer that all is finished.
    Ends(u64),
    /// After this many offers, takes and closes, each call gives up.
    GivesUp(u64),
    /// The first take of the first pass waits for a take of another pass.
    Holds,
    /// The first take of one pass answers this ticket, and each call of another pass gives up.
    Mishaps(u64, Ticket, u64),
    /// Offers get these answers, one after another.
    Answers([Offer; NOTED]),
}

/// What a gate has counted.
#[derive(Drop)]
pub(crate) struct Counted {
    /// How many passes were split off.
    pub(crate) splits: AtomicU64,
    /// How many closes were answered with Done.
    pub(crate) closes: AtomicU64,
    /// How many calls or tickets the trick has counted.
    made: AtomicU64,
    /// Whether another pass than the first made a take.
    others: AtomicBool,
    /// Whether a call gave up. Then takes give up, too, since the operators of a feeder may stay open.
    stalled: AtomicBool,
}

impl Counted {
    /// Counts of a gate that was not called yet.
    pub(crate) fn new() -> Counted {
        Counted {
            splits: AtomicU64::new(0),
            closes: AtomicU64::new(0),
            made: AtomicU64::new(0),
            others: AtomicBool::new(false),
            stalled: AtomicBool::new(false),
        }
    }

    /// Whether another pass than the first makes a take in time.
    fn waits(&self) -> bool {
        for _ in 0..MOST_TURNS {
            if self.others.load(Ordering::SeqCst) {
                return true;
            }
            spin_loop();
        }
        false
    }
}

/// A gate that plays a trick around another gate.
#[derive(Drop)]
pub(crate) struct Tricky<'a, G> {
    inner: G,
    trick: Trick,
    counted: &'a Counted,
}

/// A pass of the gate, with a pass of the gate inside.
#[derive(Drop)]
pub(crate) struct TrickyPass<P> {
    inner: P,
    number: u64,
    /// Whether the pass made a take already.
    took: bool,
    /// The tickets that the pass offered, where the trick has the answers.
    pub(crate) offered: [Ticket; NOTED],
}

/// The offers of a pass that offered nothing yet.
const NO_OFFERS: [Ticket; NOTED] = [Ticket {
    op: Op::Aar,
    number: 0,
}; NOTED];

impl<'a, G> Tricky<'a, G> {
    /// The gate that plays the trick around this one, and its pass.
    pub(crate) fn of<P>(
        inner: G,
        pass: P,
        trick: Trick,
        counted: &'a Counted,
    ) -> (Tricky<'a, G>, TrickyPass<P>)
        ensures { (result.0.inner ≡ inner) × (result.1.inner ≡ pass) }
    {
        let gate = Tricky {
            inner,
            trick,
            counted,
        };
        let pass = TrickyPass {
            inner: pass,
            number: 0,
            took: false,
            offered: NO_OFFERS,
        };
        (gate, pass)
    }

    /// Whether this call of the pass with this number gives up.
    fn gives_up(&self, number: u64) -> bool {
        let gives_up = match self.trick {
            Trick::GivesUp(calls) => self.counted.made.fetch_add(1, Ordering::SeqCst) >= calls,
            Trick::Mishaps(_, _, other) => number == other,
            _ => false,
        };
        if gives_up {
            self.counted.stalled.store(true, Ordering::SeqCst);
        }
        gives_up
    }

    /// Whether this take may be made; `first` says whether it is the first of its pass.
    fn lets(&self, number: u64, first: bool) -> bool {
        if number != 1 {
            self.counted.others.store(true, Ordering::SeqCst);
            return true;
        }
        match self.trick {
            Trick::Holds if first => self.counted.waits(),
            _ => true,
        }
    }

    /// The ticket that the trick gives this take, if it does.
    fn invented(&self, number: u64, first: bool) -> Option<Ticket> {
        match self.trick {
            Trick::Invents(takes, ticket) => {
                (self.counted.made.fetch_add(1, Ordering::SeqCst) == takes).then_some(ticket)
            }
            Trick::Mishaps(one, ticket, _) => (first && number == one).then_some(ticket),
            _ => None,
        }
    }

    /// The answer that the trick has for this offer, which is kept in `offered`.
    fn answered(&self, offered: &mut [Ticket; NOTED], ticket: Ticket) -> Option<Offer> {
        let Trick::Answers(answers) = self.trick else {
            return None;
        };
        let made = self.counted.made.fetch_add(1, Ordering::SeqCst) as usize;
        if made >= NOTED {
            return Some(Offer::GaveUp);
        }
        offered[made] = ticket;
        Some(answers[made])
    }

    /// Whether so many tickets were handed out that there are no more.
    fn ends(&self) -> bool {
        match self.trick {
            Trick::Ends(tickets) => self.counted.made.load(Ordering::SeqCst) >= tickets,
            _ => false,
        }
    }

    /// Counts a ticket that is handed out, where the trick counts tickets.
    fn count(&self) {
        if let Trick::Ends(_) = self.trick {
            self.counted.made.fetch_add(1, Ordering::SeqCst);
        }
    }

    fn drops(&self, ticket: Ticket) -> bool {
        match self.trick {
            Trick::Drops(dropped) => ticket == dropped,
            _ => false,
        }
    }

    /// The ticket that is handed out in the place of this one.
    fn handed(&self, ticket: Ticket) -> Ticket {
        match self.trick {
            Trick::Swaps(one, other) if ticket == one => other,
            Trick::Swaps(one, other) if ticket == other => one,
            _ => ticket,
        }
    }
}

impl<G: Gate> Gate for Tricky<'_, G> {
    ghost use Rattle.std.specs.Prelude.{true, false};

    type Pass = TrickyPass<G::Pass>;

    ghost is_pass = { λ g p. G.is_pass g.inner p.inner };

    ghost view = { λ p. G.view p.inner };

    ghost keeps_records = { false };

    ghost needs_parts = { G.needs_parts };

    ghost may_give_up = { true };

    ghost bound = { G.bound };

    fn split(&self, pass: &mut TrickyPass<G::Pass>) -> TrickyPass<G::Pass> {
        let splits = self.counted.splits.fetch_add(1, Ordering::SeqCst);
        let inner = self.inner.split(&mut pass.inner);
        TrickyPass {
            inner,
            number: splits.wrapping_add(1),
            took: false,
            offered: NO_OFFERS,
        }
    }

    fn merge(&self, pass: &mut TrickyPass<G::Pass>, other: TrickyPass<G::Pass>) {
        let TrickyPass { inner, .. } = other;
        self.inner.merge(&mut pass.inner, inner);
    }

    fn offer<R: Wait>(&self, rt: &R, pass: &mut TrickyPass<G::Pass>, ticket: Ticket) -> Offer {
        if self.gives_up(pass.number) {
            return Offer::GaveUp;
        }
        if matches!(self.trick, Trick::Refuses) {
            return Offer::Closed;
        }
        if let Some(answer) = self.answered(&mut pass.offered, ticket) {
            return answer;
        }
        self.inner.offer(rt, &mut pass.inner, ticket)
    }

    fn take<R: Wait>(&self, rt: &R, pass: &mut TrickyPass<G::Pass>, op: Op) -> Take {
        let first = !pass.took;
        pass.took = true;
        if self.gives_up(pass.number) || !self.lets(pass.number, first) {
            return Take::GaveUp;
        }
        if let Some(ticket) = self.invented(pass.number, first) {
            return Take::Taken(ticket);
        }
        if self.counted.stalled.load(Ordering::SeqCst) {
            return Take::GaveUp;
        }
        if self.ends() {
            return Take::Finished;
        }
        match self.inner.take(rt, &mut pass.inner, op) {
            Take::Taken(ticket) if self.drops(ticket) => self.inner.take(rt, &mut pass.inner, op),
            Take::Taken(ticket) => {
                self.count();
                Take::Taken(self.handed(ticket))
            }
            answer => answer,
        }
    }

    fn close<R: Wait>(&self, rt: &R, pass: &mut TrickyPass<G::Pass>, op: Op) -> Close {
        if self.gives_up(pass.number) {
            return Close::GaveUp;
        }
        let answer = self.inner.close(rt, &mut pass.inner, op);
        if matches!(answer, Close::Done) {
            self.counted.closes.fetch_add(1, Ordering::SeqCst);
        }
        answer
    }

    fn finish(self, pass: TrickyPass<G::Pass>) -> Tally {
        let Tricky { inner, .. } = self;
        let TrickyPass { inner: own, .. } = pass;
        inner.finish(own)
    }
}

//! The gate: what feeders offer to and workers take from.

ghost use Rattle.std.specs.Prelude.{◌≡◌, ℕ, ◌+◌, ◌<◌, Bool, true};
ghost use Rattle.mothra_exchange.specs.declared.view.View.{View};
ghost use Rattle.mothra_exchange.specs.View.{view_after_split, split_off_view, united_view};
ghost use Rattle.mothra_exchange.specs.Sharing.{MergesWell};
ghost use Rattle.mothra_exchange.specs.Tally.{EndsAsViews};
ghost use Rattle.mothra_exchange.specs.Gate.{MayOffer, MayTake, MayClose, OfferKept, TakeKept, CloseKept};

use crate::answer::{Close, Offer, Take};
use crate::tally::Tally;
use mothra_codes::{Op, Ticket};
use std::sync::Wait;

/// An exchange, or a wrapper around one. Each caller has a pass. Offer, take and close may wait.
pub trait Gate {
    /// What a caller acts with. A pass belongs to one gate, and each thread has its own. A pass that is dropped keeps
    /// its view: its tickets stay counted, and no other pass is whole again.
    type Pass;

    // The pass belongs to this gate.
    ghost is_pass: { Self → Self.Pass → Type 0 };

    // What the pass has done and seen.
    ghost view: { Self.Pass → View };

    // Whether the gate keeps records, so that the view of a pass says what the pass did and saw.
    ghost keeps_records: { Bool };

    // Whether a pass has to have two shares to be split. A wrapper that keeps no records may hand this on.
    ghost needs_parts: { Bool };

    // Whether a call may answer that it gave up. What it had looked at before is left open then.
    ghost may_give_up: { Bool };

    // How many tickets of an operator may wait to be taken.
    ghost bound: { ℕ };

    /// A second pass, for another thread. The new pass has offered, taken and closed nothing.
    fn split(&self, pass: &mut Self::Pass) -> Self::Pass
        requires own { is_pass self.now pass.old }
        requires part { needs_parts ≡ true → 1 < (view pass.old).part }
        ensures own { is_pass self.now pass.new × is_pass self.now result }
        ensures part { needs_parts ≡ true
            → ((view pass.old).part ≡ (view pass.new).part + 1) × ((view result).part ≡ 1) }
        ensures records { keeps_records ≡ true
            → (view pass.new ≡ view_after_split (view pass.old))
            × (view result ≡ split_off_view (view pass.old)) };

    /// Merges another pass into this one, with all that it has done.
    fn merge(&self, pass: &mut Self::Pass, other: Self::Pass)
        requires own { is_pass self.now pass.old × is_pass self.now other }
        ensures own { is_pass self.now pass.new }
        ensures part { needs_parts ≡ true
            → (view pass.new).part ≡ (view pass.old).part + (view other).part }
        ensures records { keeps_records ≡ true
            → (view pass.new ≡ united_view (view pass.old) (view other))
            × MergesWell (view pass.old) (view other) };

    /// Offers a ticket.
    fn offer<R: Wait>(&self, rt: &R, pass: &mut Self::Pass, ticket: Ticket) -> Offer
        requires own { is_pass self.now pass.old }
        ensures own { is_pass self.now pass.new }
        ensures part { needs_parts ≡ true → (view pass.new).part ≡ (view pass.old).part }
        ensures gives_up { MayOffer may_give_up result }
        ensures records { keeps_records ≡ true
            → OfferKept bound (view pass.old) ticket result (view pass.new) };

    /// Takes the next ticket of the operator.
    fn take<R: Wait>(&self, rt: &R, pass: &mut Self::Pass, op: Op) -> Take
        requires own { is_pass self.now pass.old }
        ensures own { is_pass self.now pass.new }
        ensures part { needs_parts ≡ true → (view pass.new).part ≡ (view pass.old).part }
        ensures gives_up { MayTake may_give_up result }
        ensures records { keeps_records ≡ true
            → TakeKept bound (view pass.old) op result (view pass.new) };

    /// Closes the operator: no ticket of it is accepted from then on.
    fn close<R: Wait>(&self, rt: &R, pass: &mut Self::Pass, op: Op) -> Close
        requires own { is_pass self.now pass.old }
        ensures own { is_pass self.now pass.new }
        ensures part { needs_parts ≡ true → (view pass.new).part ≡ (view pass.old).part }
        ensures gives_up { MayClose may_give_up result }
        ensures records { keeps_records ≡ true
            → CloseKept bound (view pass.old) op result (view pass.new) };

    /// Ends the exchange. Any pass will do, also one that is not whole; passes that were not merged into it are of no
    /// more use.
    fn finish(self, pass: Self::Pass) -> Tally
        requires own { is_pass self pass }
        ensures records { keeps_records ≡ true → EndsAsViews bound (view pass) result };
}

//! The compare-exchange of an operator's word, for an offer, a take or a close.

ghost use Rattle.std.specs.Prelude.{◌≡◌, true, false};
ghost use Rattle.mothra_codes.specs.Op.{index};
ghost use Rattle.mothra_exchange.specs.code.Exchange.{ChangeOfTable, MayChange, word_after, view_after, IsNewChange};
ghost use Rattle.mothra_exchange.specs.code.Calls.{HasLoaded};
ghost use Rattle.mothra_exchange.specs.Calls.{LostTo};
ghost use Rattle.mothra_exchange.specs.Table.{view_of, IsPassOf};

use crate::table::{Pass, TableExchange};
use crate::view::View;
use crate::word::Word;
use atomic_table::Play;
use mothra_codes::Op;
use std::marker::PhantomData;

/// What a compare-exchange changes where it wins: it offers, takes or closes.
pub(crate) trait Changes {
    ghost change: { ChangeOfTable };
}

pub(crate) struct AnOffer;

impl Changes for AnOffer {
    ghost use Rattle.mothra_exchange.specs.code.Exchange.{an_offer};

    ghost change = { an_offer };
}

pub(crate) struct ATake;

impl Changes for ATake {
    ghost use Rattle.mothra_exchange.specs.code.Exchange.{a_take};

    ghost change = { a_take };
}

pub(crate) struct AClose;

impl Changes for AClose {
    ghost use Rattle.mothra_exchange.specs.code.Exchange.{a_close};

    ghost change = { a_close };
}

/// What a compare-exchange for this change shows, whether it wins or loses.
pub(crate) struct ExchangePlay<P> {
    change: PhantomData<P>,
}

impl<P: Changes> Play<(), View> for ExchangePlay<P> {
    ghost use Rattle.mothra_exchange.specs.code.Exchange.{Exchanges};

    ghost then = { Exchanges P.change };
}

impl<const C: u32> TableExchange<C> {
    // Puts the next word in the place of the one that the pass loaded last, if that one still stands
    // there. The result says whether it did.
    pub(crate) fn exchange<P: Changes>(
        &self,
        pass: &mut Pass,
        op: Op,
        word: Word,
        next: Word,
    ) -> bool
        requires own { IsPassOf self.now pass.old }
        requires loaded { HasLoaded C (view_of pass.old) (index op) word }
        requires may { MayChange P.change C word }
        requires next { next ≡ word_after P.change word }
        ensures own { IsPassOf self.now pass.new }
        ensures won { result ≡ true → IsNewChange P.change (view_of pass.old) op word
            × (view_of pass.new ≡ view_after P.change (view_of pass.old) op word) }
        ensures lost { result ≡ false → LostTo (view_of pass.old) op word (view_of pass.new) }
    {
        let old = word.pack();
        let found = self
            .table
            .shared
            .compare_exchange::<ExchangePlay<P>>(&mut pass.seat, op.index(), old, next.pack());
        found == old
    }
}

//! The exchange of packed words: how it is made, and how it ends.

ghost use Rattle.std.specs.Prelude.{◌≡◌, ◌<◌, [], length, IfOk, IfErr, OnOk};
ghost use Rattle.mothra_exchange.specs.View.{whole_view};
ghost use Rattle.mothra_exchange.specs.Fault.{AllCountsFit, IsFaultOfCounts};
ghost use Rattle.mothra_exchange.specs.Tally.{EndsAsViews};
ghost use Rattle.mothra_exchange.specs.Rule.{IsSoundExchange};
ghost use Rattle.mothra_exchange.specs.Law.{AreViewsInOrder, ShowOneLog};

use crate::fault::{ExchangeFault, first_too_large};
use crate::rule::Bound;
use crate::tally::Tally;
use crate::view::View;
use crate::word::Word;
use atomic_table::{Seat, Table, TableRule};
use std::alloc::Global;

/// The exchange in which each operator is one packed word. Up to `C` tickets of an operator may wait, 1 to
/// 1,048,575.
#[derive(Drop)]
pub struct TableExchange<const C: u32> {
    pub(crate) table: Table<(), View, [u32; 22], Bound<C>, Global>,
    ghost words: { table.shared.table_id.words ≡ 22 },
    ghost slots: { table.shared.table_id.slots ≡ 0 },
}

/// A pass of a `TableExchange`. It takes no memory.
#[derive(Drop)]
pub struct Pass {
    pub(crate) seat: Seat<(), View>,
    ghost holds_no_slot: { seat.me.1 ≡ [] },
    ghost has_a_part: { 0 < seat.me.0.part },
    ghost looks_at_each: { length seat.me.0.looks ≡ 22 },
}

// The word of each operator before anything is offered, which is the count itself.
fn opening_words(counts: &[u32; 22]) -> [u64; 22]
    ensures { result ≡ counts.now }
{
    let mut words = [0u64; 22];
    for i in 0..22 {
        words[i] = u64::from(counts[i]);
    }
    words
}

impl<const C: u32> TableExchange<C> {
    ghost use Rattle.mothra_exchange.specs.Table.{view_of, IsPassOf, BetweenStepsOf};

    /// An exchange with these counts, in the order of the operators, in which nothing was offered, and
    /// its first pass, which is whole.
    pub fn new(alloc: Global, counts: [u32; 22]) -> Result<(TableExchange<C>, Pass), ExchangeFault>
        ensures own { IfOk result (λ r. IsPassOf r.0 r.1) }
        ensures view { IfOk result (λ r. view_of r.1 ≡ whole_view counts) }
        ensures between { IfOk result (λ r.
            BetweenStepsOf ⟦<Bound<C> as TableRule<(), View, [u32; 22]>>⟧.holds r.0 (IsSoundExchange C counts)) }
        ensures in_order { IfOk result (λ r.
            BetweenStepsOf ⟦<Bound<C> as TableRule<(), View, [u32; 22]>>⟧.holds r.0 AreViewsInOrder) }
        ensures log { 0 < C → IfOk result (λ r.
            BetweenStepsOf ⟦<Bound<C> as TableRule<(), View, [u32; 22]>>⟧.holds r.0 (ShowOneLog C counts)) }
        ensures fits { OnOk result (AllCountsFit counts) }
        ensures fault { IfErr result (IsFaultOfCounts counts) }
    {
        if let Some(op) = first_too_large(&counts) {
            return Err(ExchangeFault::CountTooLarge(op));
        }
        match Table::of_words(alloc, &opening_words(&counts), &counts) {
            Ok((table, seat)) => Ok((TableExchange { table }, Pass { seat })),
            Err(_) => Err(ExchangeFault::Memory),
        }
    }

    // The numbers of each operator at the end.
    pub(crate) fn close_all(self, pass: Pass) -> Tally
        requires { IsPassOf self pass }
        ensures { EndsAsViews C (view_of pass) result }
    {
        let TableExchange { table } = self;
        let Pass { seat } = pass;
        let closed = table.close_with(seat);
        let mut words = [Word::opening(0); 22];
        for i in 0..22 {
            words[i] = Word::unpack(closed.word(i));
        }
        closed.free();
        Tally { words }
    }
}

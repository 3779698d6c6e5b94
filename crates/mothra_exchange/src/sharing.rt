//! A pass is split in two, and two passes are merged into one: a join, then a load.
//!
//! A join compares two views, and can not show how they stand to the words. So it keeps what both passes had seen
//! (`mine`, `theirs`), and the rule says that these looks, too, are at most the words. The load that follows concerns
//! the whole table, so it shows for all operators that both passes saw words of one legal log. It is not counted as a
//! load of an operator.

ghost use Rattle.std.specs.Prelude.{◌≡◌, ◌<◌};
ghost use Rattle.mothra_exchange.specs.View.{view_after_split, split_off_view, united_view};
ghost use Rattle.mothra_exchange.specs.Table.{view_of, IsPassOf};
ghost use Rattle.mothra_exchange.specs.Sharing.{MergesWell};

use crate::rule::{SettlePlay, Sharing};
use crate::table::{Pass, TableExchange};

impl<const C: u32> TableExchange<C> {
    // A new pass, which gets one share of the old one.
    pub(crate) fn split_pass(&self, pass: &mut Pass) -> Pass
        requires own { IsPassOf self.now pass.old }
        requires part { 1 < (view_of pass.old).part }
        ensures own { IsPassOf self.now pass.new × IsPassOf self.now result }
        ensures left { view_of pass.new ≡ view_after_split (view_of pass.old) }
        ensures right { view_of result ≡ split_off_view (view_of pass.old) }
    {
        Pass {
            seat: self.table.shared.split_seat::<Sharing>(&mut pass.seat),
        }
    }

    // A join shows nothing of the words. The load after it shows that both passes had seen words of one legal log.
    pub(crate) fn merge_pass(&self, pass: &mut Pass, other: Pass)
        requires own { IsPassOf self.now pass.old × IsPassOf self.now other }
        ensures own { IsPassOf self.now pass.new }
        ensures both { view_of pass.new ≡ united_view (view_of pass.old) (view_of other) }
        ensures agree { MergesWell (view_of pass.old) (view_of other) }
    {
        let Pass { seat } = other;
        self.table.shared.join_seat::<Sharing>(&mut pass.seat, seat);
        self.table.shared.load::<SettlePlay<C>>(&mut pass.seat, 0);
    }
}

//! The exchange of packed words as a gate.

use crate::answer::{Close, Offer, Take};
use crate::gate::Gate;
use crate::table::{Pass, TableExchange};
use crate::tally::Tally;
use mothra_codes::{Op, Ticket};
use std::sync::Wait;

impl<const C: u32> Gate for TableExchange<C> {
    ghost use Rattle.std.specs.Prelude.{true, false};
    ghost use Rattle.mothra_exchange.specs.Table.{view_of, IsPassOf};

    type Pass = Pass;

    ghost is_pass = { IsPassOf };

    ghost view = { view_of };

    ghost keeps_records = { true };

    ghost needs_parts = { true };

    ghost may_give_up = { false };

    ghost bound = { C };

    fn split(&self, pass: &mut Pass) -> Pass {
        self.split_pass(pass)
    }

    fn merge(&self, pass: &mut Pass, other: Pass) {
        self.merge_pass(pass, other);
    }

    fn offer<R: Wait>(&self, _rt: &R, pass: &mut Pass, ticket: Ticket) -> Offer {
        self.try_offer(pass, ticket)
    }

    fn take<R: Wait>(&self, _rt: &R, pass: &mut Pass, op: Op) -> Take {
        self.try_take(pass, op)
    }

    fn close<R: Wait>(&self, _rt: &R, pass: &mut Pass, op: Op) -> Close {
        self.try_close(pass, op)
    }

    fn finish(self, pass: Pass) -> Tally {
        self.close_all(pass)
    }
}

//! Offers that are made in order.
ghost use Rattle.mothra_exchange.specs.Table.{IsPassOf};

use mothra_codes::Op;
use mothra_exchange::{Offer, Pass, TableExchange, Ticket};
use std::process::Abort;

/// Offers 1 to the count.
pub(crate) fn offers_all<const C: u32>(
    rt: &impl Abort,
    exchange: &TableExchange<C>,
    pass: &mut Pass,
    op: Op,
    count: u32,
)
    requires { IsPassOf exchange.now pass.old }
    ensures { IsPassOf exchange.now pass.new }
{
    for before in 0..count {
        let ticket = Ticket {
            op,
            number: before + 1,
        };
        assert!(rt; exchange.try_offer(pass, ticket) == Offer::Accepted);
    }
}

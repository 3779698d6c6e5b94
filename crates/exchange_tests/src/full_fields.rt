//! A word all of whose fields are full.
ghost use Rattle.mothra_exchange.specs.Table.{IsPassOf};

use crate::offers::offers_all;
use crate::tickets::{assert_tally, counts, taken};
use mothra_codes::Op;
use mothra_exchange::{Close, Gate, Offer, Pass, TableExchange, Ticket};
use std::process::Abort;
use std::test::Fail;

/// Offers and takes all tickets of DER, and closes it.
fn fills(rt: &impl Abort, exchange: &TableExchange<1_048_575>, pass: &mut Pass)
    requires { IsPassOf exchange.now pass.old }
    ensures { IsPassOf exchange.now pass.new }
{
    offers_all(rt, exchange, pass, Op::Der, 1_048_575);
    for before in 0..1_048_575 {
        assert!(rt; exchange.try_take(pass, Op::Der) == taken(Op::Der, before + 1));
    }
    let past = Ticket {
        op: Op::Der,
        number: 1_048_576,
    };
    assert!(rt; exchange.try_offer(pass, past) == Offer::PastEnd);
    assert!(rt; exchange.try_close(pass, Op::Der) == Close::Done);
}

#[test]
fn fields_can_be_full(rt: HostRuntime) -> Result<(), Fail> {
    let full = counts(Op::Der, 1_048_575);
    let (exchange, mut pass) = TableExchange::<1_048_575>::new(rt.alloc(), full)?;
    fills(&rt, &exchange, &mut pass);
    let tally = exchange.finish(pass);
    assert_tally(
        &rt,
        &tally,
        Op::Der,
        [1_048_575, 1_048_575, 1_048_575],
        true,
    );
    assert_tally(&rt, &tally, Op::Csr, [0, 0, 0], false);
    assert_tally(&rt, &tally, Op::Dsa, [0, 0, 0], false);
    Ok(())
}

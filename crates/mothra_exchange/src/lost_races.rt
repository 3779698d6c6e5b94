//! Tests of lost races: a pass loads a word, another pass changes it, and the compare-exchange of the first fails.

ghost use Rattle.std.specs.Prelude.{◌≡◌};
ghost use Rattle.mothra_exchange.specs.Table.{IsPassOf};

use crate::{Close, ExchangeFault, Offer, Pass, TableExchange, Take, Ticket};
use mothra_codes::Op;
use std::process::Abort;

fn aar(number: u32) -> Ticket
    ensures { result.op ≡ Op.Aar }
{
    Ticket {
        op: Op::Aar,
        number,
    }
}

fn loses_an_offer(
    rt: &impl Abort,
    exchange: &TableExchange<2>,
    p: &mut Pass,
    q: &mut Pass,
    number: u32,
    next: u32,
)
    requires own { IsPassOf exchange.now p.old }
    requires other { IsPassOf exchange.now q.old }
    ensures own { IsPassOf exchange.now p.new }
    ensures other { IsPassOf exchange.now q.new }
{
    let word = exchange.load(p, Op::Aar);
    assert!(rt; exchange.try_offer(q, aar(number)) == Offer::Accepted);
    assert!(rt; exchange.answer_offer(p, aar(number), word) == Offer::Busy);
    assert!(rt; exchange.try_offer(p, aar(number)) == Offer::OutOfTurn(next));
}

fn loses_a_take(rt: &impl Abort, exchange: &TableExchange<2>, p: &mut Pass, q: &mut Pass)
    requires own { IsPassOf exchange.now p.old }
    requires other { IsPassOf exchange.now q.old }
    ensures own { IsPassOf exchange.now p.new }
    ensures other { IsPassOf exchange.now q.new }
{
    let word = exchange.load(p, Op::Aar);
    assert!(rt; exchange.try_take(q, Op::Aar) == Take::Taken(aar(1)));
    assert!(rt; exchange.answer_take(p, Op::Aar, word) == Take::Busy);
    assert!(rt; exchange.try_take(p, Op::Aar) == Take::Empty);
}

fn loses_a_close(rt: &impl Abort, exchange: &TableExchange<2>, p: &mut Pass, q: &mut Pass)
    requires own { IsPassOf exchange.now p.old }
    requires other { IsPassOf exchange.now q.old }
    ensures own { IsPassOf exchange.now p.new }
    ensures other { IsPassOf exchange.now q.new }
{
    let word = exchange.load(p, Op::Aar);
    assert!(rt; exchange.try_take(q, Op::Aar) == Take::Taken(aar(2)));
    assert!(rt; exchange.answer_close(p, Op::Aar, word) == Close::Busy);
    assert!(rt; exchange.try_close(p, Op::Aar) == Close::Done);
}

#[test]
fn races_are_lost(rt: HostRuntime) -> Result<(), ExchangeFault> {
    let mut counts = [0u32; 22];
    counts[Op::Aar.index()] = 3;
    let (exchange, mut p) = TableExchange::<2>::new(rt.alloc(), counts)?;
    let mut q = exchange.split_pass(&mut p);
    loses_an_offer(&rt, &exchange, &mut p, &mut q, 1, 2);
    loses_a_take(&rt, &exchange, &mut p, &mut q);
    loses_an_offer(&rt, &exchange, &mut p, &mut q, 2, 3);
    loses_a_close(&rt, &exchange, &mut p, &mut q);

    let word = exchange.load(&mut p, Op::Aar);
    assert!(rt; exchange.answer_close(&mut p, Op::Aar, word) == Close::Already);
    assert!(rt; exchange.try_close(&mut p, Op::Aar) == Close::Already);
    Ok(())
}

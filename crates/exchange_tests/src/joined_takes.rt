//! Two threads take each ticket once.
ghost use Rattle.mothra_exchange.specs.Table.{IsPassOf};

use crate::offers::offers_all;
use crate::tickets::counts;
use mothra_codes::Op;
use mothra_exchange::{Close, Gate, Pass, TableExchange, Take};
use std::alloc::{AllocError, Global};
use std::process::Abort;
use std::test::Fail;
use std::thread;
use std::thread::Threads;

/// The numbers that a pass takes until Finished, by a million takes at most. None where these were not enough.
fn take_all<const C: u32>(
    alloc: Global,
    exchange: &TableExchange<C>,
    mut pass: Pass,
) -> Result<Option<Vec<u32>>, AllocError>
    requires { IsPassOf exchange.now pass }
{
    let mut numbers = Vec::new(alloc);
    for _ in 0..1_000_000 {
        match exchange.try_take(&mut pass, Op::Aar) {
            Take::Taken(ticket) => numbers.push(ticket.number)?,
            Take::Finished => return Ok(Some(numbers)),
            _ => {}
        }
    }
    Ok(None)
}

/// The numbers that two threads take, each until Finished, in ascending order.
fn taken_by_two(
    rt: &(impl AllocGlobal + Threads),
    exchange: &TableExchange<2_000>,
    one: Pass,
    two: Pass,
) -> Result<Vec<u32>, Fail>
    requires one { IsPassOf exchange.now one }
    requires two { IsPassOf exchange.now two }
{
    let alloc = rt.alloc();
    let (left, right) = thread::join(
        rt,
        || -> Result<Option<Vec<u32>>, AllocError>
            requires { IsPassOf exchange.now one }
        { take_all(alloc, exchange, one) },
        || -> Result<Option<Vec<u32>>, AllocError>
            requires { IsPassOf exchange.now two }
        { take_all(alloc, exchange, two) },
    );
    let enough = "a million turns were not enough";
    let mut numbers = left?.ok_or(enough)?;
    numbers.extend_from_slice(&right?.ok_or(enough)?)?;
    numbers.sort()?;
    Ok(numbers)
}

/// The numbers are 1 to 2,000 in order.
fn assert_each_once(rt: &impl Abort, numbers: &[u32]) {
    for (&number, expected) in numbers.iter().zip(1..=2_000) {
        assert!(rt; number == expected, "{number} in the place of {expected}");
    }
    assert!(rt; numbers.len() == 2_000);
}

#[test]
fn two_halves_take_each_once(rt: HostRuntime) -> Result<(), Fail> {
    let (exchange, mut pass) = TableExchange::<2_000>::new(rt.alloc(), counts(Op::Aar, 2_000))?;
    let one = exchange.split(&mut pass);
    let two = exchange.split(&mut pass);
    offers_all(&rt, &exchange, &mut pass, Op::Aar, 2_000);
    assert!(rt; exchange.try_close(&mut pass, Op::Aar) == Close::Done);
    assert_each_once(&rt, &taken_by_two(&rt, &exchange, one, two)?);
    Ok(())
}

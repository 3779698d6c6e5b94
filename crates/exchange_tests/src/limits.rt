//! The limit on an operator's count, and the texts of faults.

use crate::tickets::counts;
use mothra_codes::Op;
use mothra_exchange::{ExchangeFault, LockedExchange, State, TableExchange};
use std::process::Abort;
use std::test::Fail;

#[test]
fn a_count_may_be_1048575(rt: HostRuntime) {
    let alloc = rt.alloc();
    let one = counts(Op::Aar, 1_048_575);
    assert!(rt; State::<2>::new(alloc, one).is_ok());
    assert!(rt; LockedExchange::<2>::new(alloc, one).is_ok());
    assert!(rt; TableExchange::<2>::new(alloc, [1_048_575; 22]).is_ok());
}

/// A `State` and both forms of the exchange refuse the counts, since that of this operator is too large.
fn assert_too_large(rt: &(impl AllocGlobal + Abort), many: [u32; 22], op: Op) {
    let alloc = rt.alloc();
    let fault = Some(ExchangeFault::CountTooLarge(op));
    assert!(rt; State::<2>::new(alloc, many).err() == fault);
    assert!(rt; LockedExchange::<2>::new(alloc, many).err() == fault);
    assert!(rt; TableExchange::<2>::new(alloc, many).err() == fault);
}

#[test]
fn the_first_count_that_is_too_large_is_reported(rt: HostRuntime) {
    assert_too_large(&rt, counts(Op::Aar, 1_048_576), Op::Aar);
    let mut two = counts(Op::Abs, 1_048_576);
    two[Op::Uoi.index()] = 4_294_967_295;
    assert_too_large(&rt, two, Op::Abs);
}

fn assert_text(
    rt: &(impl AllocGlobal + Abort),
    fault: ExchangeFault,
    expected: &str,
) -> Result<(), Fail> {
    let text = format!(in rt.alloc(); "{fault}")?;
    assert_eq!(rt; text.as_str(), expected);
    Ok(())
}

#[test]
fn each_fault_has_its_text(rt: HostRuntime) -> Result<(), Fail> {
    assert_text(&rt, ExchangeFault::Memory, "X1: no memory for the exchange")?;
    assert_text(
        &rt,
        ExchangeFault::CountTooLarge(Op::Aar),
        "X2: operator AAR has more than 1048575 mutants",
    )
}

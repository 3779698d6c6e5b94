//! Each allocation of an exchange is refused in turn: the answer is then X1, or the exchange works.

use crate::both_forms::splits_and_merges;
use crate::tickets::{aar, counts};
use mothra_codes::Op;
use mothra_exchange::{ExchangeFault, LockedExchange, Offer, State, TableExchange};

#[test]
fn refused_memory_is_a_fault_of_the_state(rt: HostRuntime) {
    match State::<2>::new(rt.alloc(), counts(Op::Aar, 3)) {
        Ok(mut state) => assert!(rt; state.offer(aar(1)) == Offer::Accepted),
        Err(fault) => assert!(rt; fault == ExchangeFault::Memory),
    }
}

#[test]
fn refused_memory_is_a_fault_of_the_locked_form(rt: HostRuntime) {
    match LockedExchange::<2>::new(rt.alloc(), counts(Op::Aar, 3)) {
        Ok((gate, pass)) => splits_and_merges(&rt, gate, pass),
        Err(fault) => assert!(rt; fault == ExchangeFault::Memory),
    }
}

#[test]
fn refused_memory_is_a_fault_of_the_word_form(rt: HostRuntime) {
    match TableExchange::<2>::new(rt.alloc(), counts(Op::Aar, 3)) {
        Ok((gate, pass)) => splits_and_merges(&rt, gate, pass),
        Err(fault) => assert!(rt; fault == ExchangeFault::Memory),
    }
}

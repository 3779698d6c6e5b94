//! Why there is no bench, verdict, matrix or report.

ghost use Rattle.std.specs.Prelude.{◌≡◌};
ghost use Rattle.mothra_verdicts.specs.declared.fault.BenchFault.TheVariants as fault;

use mothra_codes::Ticket;
use std::alloc::{AllocError, AllocFailed};
use thiserror::Error;

/// Why there is no report.
#[derive(Clone, Copy, Debug, PartialEq, Eq, Drop, Error)]
pub enum BenchFault {
    /// B1: memory ran out.
    #[error("memory ran out")]
    Memory,
    /// B2: a thread could not begin.
    #[error("a thread could not begin")]
    Thread,
    /// B3: the values of the test of this number, from 1, are not those of the dummy arguments.
    #[error("number {0} of the tests gives values that are not those of the dummy arguments")]
    TestShape(usize),
    /// B4: on the test of this number, from 1, the program neither returns nor stops within the limit on steps.
    #[error("on number {0} of the tests the program neither returns nor stops")]
    OriginalFails(usize),
    /// B5: the declared entry of this number, from 1, names no mutant.
    #[error("entry {0} of the declared equivalents names no mutant")]
    EquivalentUnknown(usize),
    /// B6: the declared entry of this number, from 1, names a mutant that an earlier one names.
    #[error("entry {0} of the declared equivalents names a mutant that stands before")]
    EquivalentTwice(usize),
    /// B7: the mutant has two rows.
    #[error("a mutant has two rows")]
    Double(Ticket),
    /// B8: the plan has no such mutant, or its row does not have a truth value for each test.
    #[error("a row is of no mutant of the plan")]
    Stranger(Ticket),
    /// B9: the mutant has no row, or was not handed out.
    #[error("a mutant has no row")]
    Missing(Ticket),
    /// B10: the gate gave up.
    #[error("the gate gave up")]
    Stalled,
}

impl From<AllocError> for BenchFault {
    ghost from_gives = { λ _ f. f ≡ fault.Memory };

    fn from(_error: AllocError) -> BenchFault {
        BenchFault::Memory
    }
}

impl<T: Drop> From<AllocFailed<T>> for BenchFault {
    ghost from_gives = { λ _ f. f ≡ fault.Memory };

    fn from(_error: AllocFailed<T>) -> BenchFault {
        BenchFault::Memory
    }
}

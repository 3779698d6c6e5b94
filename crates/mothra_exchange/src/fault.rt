//! Why an exchange can not be made.

ghost use Rattle.std.specs.Prelude.{IfNone, IfSome};
ghost use Rattle.mothra_exchange.specs.Fault.{AllCountsFit, IsFaultOfCounts};

use crate::word::LARGEST_COUNT;
use mothra_codes::Op;
use thiserror::Error;

/// Why an exchange can not be made.
#[derive(Clone, Copy, PartialEq, Eq, Debug, Drop, Error)]
pub enum ExchangeFault {
    /// X1: there is no memory for the exchange.
    #[error("X1: no memory for the exchange")]
    Memory,
    /// X2: the count of this operator is above 1,048,575, and that of no earlier operator is.
    #[error("X2: operator {} has more than {} mutants", .0.code(), LARGEST_COUNT)]
    CountTooLarge(Op),
}

// The first operator whose count is too large for its word.
pub(crate) fn first_too_large(counts: &[u32; 22]) -> Option<Op>
    ensures none { IfNone result (AllCountsFit counts.now) }
    ensures first { IfSome result (λ op. IsFaultOfCounts counts.now (ExchangeFault.CountTooLarge op)) }
{
    for i in 0..22 {
        if counts[i] > LARGEST_COUNT {
            return Some(Op::ALL[i]);
        }
    }
    None
}

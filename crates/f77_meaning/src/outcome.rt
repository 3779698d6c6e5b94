//! Outcomes: how runs end.

ghost use Rattle.std.specs.Prelude.{◌≡◌};
ghost use Rattle.f77_meaning.specs.declared.outcome.RunFault.TheVariants as fault;

use crate::argument::Arg;
use crate::values::Values;
use std::alloc::{AllocError, AllocFailed};
use thiserror::Error;

/// The outcome of a run within its limit on steps. The values are those of all dummy arguments, in order.
#[derive(Debug, PartialEq, Eq, Drop)]
pub enum Outcome {
    /// RETURN or END was executed (15.8, 11.14).
    Returned(Values<Arg>),
    /// STOP was executed (11.12).
    Stopped(Values<Arg>),
    /// A result is outside the range of INTEGER (4.3).
    Overflow,
    /// A division by zero, or MOD by zero (6.1.5, 15.10).
    DivideByZero,
    /// Zero to a power of zero or less (6.1.5).
    ZeroPower,
    /// A subscript below 1 or above its bound (5.4.2).
    BadSubscript,
    /// A DO with an incrementation parameter of zero (11.10.3).
    ZeroStep,
    /// A variable or an array element that has no value (2.11).
    Undefined,
    /// TRAP was executed, or ZPUSH had a 0.
    Trapped,
    /// The run did not end within the limit on steps.
    StepLimit,
}

/// Why a program can not be run.
#[derive(Clone, Copy, Debug, PartialEq, Eq, Error)]
pub enum RunFault {
    /// N1: memory ran out.
    #[error("memory ran out")]
    Memory,
    /// N2: there are more or fewer values than dummy arguments.
    #[error("there are more or fewer values than dummy arguments")]
    ArgumentCount,
    /// N3: the value with this number, counted from 1, has another kind or another number of elements than its dummy
    /// argument.
    #[error("value {0} has another kind or another number of elements than its dummy argument")]
    ArgumentShape(usize),
}

impl From<AllocError> for RunFault {
    ghost from_gives = { λ _ f. f ≡ fault.Memory };

    fn from(_e: AllocError) -> RunFault {
        RunFault::Memory
    }
}

impl<T: Drop> From<AllocFailed<T>> for RunFault {
    ghost from_gives = { λ _ f. f ≡ fault.Memory };

    fn from(_e: AllocFailed<T>) -> RunFault {
        RunFault::Memory
    }
}

//! Why an evaluation or a walk goes no further.

ghost use Rattle.std.specs.Prelude.{◌≡◌, true, Ok, IfOk, IfSome};
ghost use Rattle.f77_symbolic.specs.declared.halt.Halt.TheVariants as halt;

use f77_terms::Term;
use std::alloc::{AllocError, AllocFailed};
use std::cmp::Ordering;
use std::num::TryFromIntError;

/// Why there is no answer. Nothing follows from it: any path may be split on any term, and any walk given up.
#[derive(Drop)]
pub enum Halt {
    /// The path does not decide whether the term has this sign, and on each of two ways it may.
    Split(Term, Ordering),
    /// It is not told.
    Unknown,
    /// No memory was left.
    Memory,
}

impl From<AllocError> for Halt {
    fn from(_e: AllocError) -> Halt
        ensures { result ≡ halt.Memory }
    {
        Halt::Memory
    }
}

impl<T: Drop> From<AllocFailed<T>> for Halt {
    fn from(_e: AllocFailed<T>) -> Halt
        ensures { result ≡ halt.Memory }
    {
        Halt::Memory
    }
}

impl From<TryFromIntError> for Halt {
    fn from(_e: TryFromIntError) -> Halt {
        Halt::Unknown
    }
}

/// It goes on where this was shown.
pub(crate) fn unless_unknown(shown: bool) -> Result<(), Halt>
    ensures { IfOk result (λ _. shown ≡ true) }
{
    if shown { Ok(()) } else { Err(Halt::Unknown) }
}

/// The answer, if there is one. There is none too where the path would have to be split for it.
pub(crate) fn told<T: Drop>(answer: Result<T, Halt>) -> Result<Option<T>, AllocError>
    ensures { IfOk result (λ found. IfSome found (λ value. answer ≡ Ok value)) }
{
    match answer {
        Ok(value) => Ok(Some(value)),
        Err(Halt::Memory) => Err(AllocError),
        Err(_) => Ok(None),
    }
}

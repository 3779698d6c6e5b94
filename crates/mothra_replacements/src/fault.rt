//! Why a list of edits, or the program that an edit makes, can not be returned.

ghost use Rattle.std.specs.Prelude.{◌≡◌};
ghost use Rattle.mothra_replacements.specs.declared.fault.OpsFault.TheVariants as fault;

use mothra_codes::Op;
use std::alloc::{AllocError, AllocFailed};
use thiserror::Error;

/// Why there is no list of edits, or no program for an edit.
#[derive(Clone, Copy, Debug, PartialEq, Eq, Drop, Error)]
pub enum OpsFault {
    /// No memory was left.
    #[error("out of memory")]
    Memory,
    /// The operator does not give this edit.
    #[error("no such edit")]
    NotASite,
    /// The operator has more edits than a list may have.
    #[error("too many edits of one operator")]
    TooMany(Op),
}

impl From<AllocError> for OpsFault {
    ghost from_gives = { λ _ f. f ≡ fault.Memory };

    fn from(_e: AllocError) -> OpsFault {
        OpsFault::Memory
    }
}

impl<T: Drop> From<AllocFailed<T>> for OpsFault {
    ghost from_gives = { λ _ f. f ≡ fault.Memory };

    fn from(_e: AllocFailed<T>) -> OpsFault {
        OpsFault::Memory
    }
}

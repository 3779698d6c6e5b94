//! Why a source can not be read as cards, and why cards can not be written.

ghost use Rattle.std.specs.Prelude.{◌≡◌};
ghost use Rattle.f77_source.specs.declared.fault.FormFault.TheVariants.{Memory};

use std::alloc::{AllocError, AllocFailed};
use thiserror::Error;

/// What breaks the fixed source form. Lines count from 1.
#[derive(Clone, Copy, Debug, PartialEq, Eq, Error)]
pub enum FormFault {
    /// F1: memory ran out.
    #[error("memory ran out")]
    Memory,
    /// F2: the source has more than 65,536 bytes.
    #[error("the source has more than 65536 bytes")]
    TooLarge,
    /// F3: a byte outside 32 to 126 that is no tab.
    #[error("line {0} holds a character that is not printable ASCII")]
    NotAscii(u32),
    /// F4: a tab, which counts as no blank.
    #[error("line {0} holds a tab")]
    Tab(u32),
    /// F5: columns 1 to 5 hold no label.
    #[error("line {0} has no label in columns 1 to 5")]
    BadLabel(u32),
    /// F6: a continuation line with no initial line before it.
    #[error("line {0} continues no statement")]
    LooseContinuation(u32),
    /// F7: a twentieth continuation line of one statement, which may have 19 (3.3).
    #[error("line {0} is a continuation line too many")]
    TooManyContinuations(u32),
}

impl From<AllocError> for FormFault {
    ghost from_gives = { λ _ e. e ≡ Memory };

    fn from(_error: AllocError) -> FormFault {
        FormFault::Memory
    }
}

impl<T: Drop> From<AllocFailed<T>> for FormFault {
    ghost from_gives = { λ _ e. e ≡ Memory };

    fn from(_error: AllocFailed<T>) -> FormFault {
        FormFault::Memory
    }
}

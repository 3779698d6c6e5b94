//! Why no whole answer was written.

ghost use Rattle.std.specs.Prelude.{◌≡◌};
ghost use Rattle.mothra_cli.specs.declared.fault.AppFault.TheVariants.{Memory};

use std::alloc::AllocError;
use thiserror::Error;

/// Why no whole answer was written.
#[derive(Clone, Copy, Debug, PartialEq, Eq, Error)]
pub enum AppFault {
    /// A1: memory ran out before anything was written.
    #[error("memory ran out")]
    Memory,
    /// A2: a read failed, and nothing was written.
    #[error("a read failed")]
    Read,
    /// A3: a write failed or took no byte. Only the text in front of that was written.
    #[error("a write failed")]
    Write,
}

impl From<AllocError> for AppFault {
    ghost from_gives = { λ _ e. e ≡ Memory };

    fn from(_error: AllocError) -> AppFault {
        AppFault::Memory
    }
}

//! Why cards are no program, and why a program can not be printed.

ghost use Rattle.std.specs.Prelude.{◌≡◌};
ghost use Rattle.f77_program.specs.declared.fault.SyntaxFault.TheVariants as fault;

use std::alloc::{AllocError, AllocFailed};
use thiserror::Error;

/// Why cards are no program, or why a program can not be printed. Each number is the `line` of a card.
#[derive(Clone, Copy, Debug, PartialEq, Eq, Error)]
pub enum SyntaxFault {
    /// S1: memory ran out.
    #[error("memory ran out")]
    Memory,
    /// S2: no statement that may stand here.
    #[error("line {0} holds no statement that may stand there")]
    Unknown(u32),
    /// S3: a name of more than six characters.
    #[error("line {0} holds a name of more than six characters")]
    BadName(u32),
    /// S4: a constant, a bound or a repeat above 2147483647, a repeat of
    /// 0, or a label that is not 1 to 99999 or has more than five digits.
    #[error("line {0} holds a constant or a label out of range")]
    BadConstant(u32),
    /// S5: more than 40 parentheses are open at once.
    #[error("line {0} opens parentheses more than 40 deep")]
    TooDeep(u32),
    /// S6: more than 1,320 characters, or more than 200 nodes; where a program is printed, more than 20 lines.
    #[error("line {0} holds a statement that is too long")]
    TooLong(u32),
    /// S7: the first card is no SUBROUTINE statement, or there is none.
    #[error("the program does not begin with a SUBROUTINE statement")]
    NoSubroutine,
    /// S8: the last card is no END statement.
    #[error("the program does not end with an END statement")]
    NoEnd,
    /// S9: a card behind the END statement.
    #[error("line {0} stands behind the END statement")]
    AfterEnd(u32),
}

impl From<AllocError> for SyntaxFault {
    ghost from_gives = { λ _ e. e ≡ fault.Memory };

    fn from(_e: AllocError) -> SyntaxFault {
        SyntaxFault::Memory
    }
}

impl<T: Drop> From<AllocFailed<T>> for SyntaxFault {
    ghost from_gives = { λ _ e. e ≡ fault.Memory };

    fn from(_e: AllocFailed<T>) -> SyntaxFault {
        SyntaxFault::Memory
    }
}

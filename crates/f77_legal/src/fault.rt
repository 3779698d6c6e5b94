//! Why a program is not legal.

ghost use Rattle.std.specs.Prelude.{◌≡◌};
ghost use Rattle.f77_legal.specs.declared.fault.CheckFault.TheVariants as fault;

use f77_tree::Name;
use std::alloc::{AllocError, AllocFailed};
use thiserror::Error;

/// The first fault of a program (ANSI X3.9-1978), or that memory ran out. The number of a line is
/// the `line` of a line of the program.
#[derive(Debug, PartialEq, Eq, Drop, Error)]
pub enum CheckFault {
    /// C1: memory ran out.
    #[error("memory ran out")]
    Memory,
    /// C2: this name is REAL by its first letter (4.1.2).
    #[error("{0} is REAL by its first letter")]
    RealName(Name),
    /// C3: this name is typed, given bounds or a dummy argument twice, or is also the name of the unit or of a
    /// function.
    #[error("{0} is declared twice, or names the unit or a function as well")]
    Twice(Name),
    /// C4: the kinds of the statement on this line do not agree.
    #[error("the kinds on line {0} do not agree")]
    TypeClash(u32),
    /// C5: wrong bounds, subscripts or arguments on this line.
    #[error("line {0} has wrong bounds, subscripts or arguments")]
    Dimensions(u32),
    /// C6: this label stands on two statements (3.4).
    #[error("the label {0} stands on two statements")]
    DoubleLabel(u32),
    /// C7: a label that is named on this line stands on no statement.
    #[error("line {0} names a label that stands on no statement")]
    NoLabel(u32),
    /// C8: a jump on this line leads to a statement where control may not go (11.1, 11.4, 11.8).
    #[error("a jump on line {0} leads to a statement where control may not go")]
    BadTarget(u32),
    /// C9: a jump on this line leads into a range or a branch (11.10.8, 11.6 to 11.8).
    #[error("a jump on line {0} leads into a range or a branch")]
    IntoBlock(u32),
    /// C10: the DO on this line names a statement that may be no terminal statement (11.10).
    #[error("the DO on line {0} ends at a statement that may end none")]
    BadTerminal(u32),
    /// C11: the block or the DO on this line is not nested (11.6 to 11.10).
    #[error("the block or the DO on line {0} is not nested")]
    Nesting(u32),
    /// C12: the statement on this line sets the variable of a DO whose range holds it (11.10.5).
    #[error("line {0} sets the variable of a DO whose range holds it")]
    DoVariable(u32),
    /// C13: a name or a value of the DATA statement on this line may not stand there (section 9).
    #[error("the DATA statement on line {0} has a wrong name or value")]
    BadData(u32),
    /// C14: over 500 statements, 100 variables and arrays, or 10,000 elements over all arrays.
    #[error("the program has too many statements, names or elements")]
    TooMany,
}

impl From<AllocError> for CheckFault {
    ghost from_gives = { λ _ f. f ≡ fault.Memory };

    fn from(_e: AllocError) -> CheckFault {
        CheckFault::Memory
    }
}

impl<T: Drop> From<AllocFailed<T>> for CheckFault {
    ghost from_gives = { λ _ f. f ≡ fault.Memory };

    fn from(_e: AllocFailed<T>) -> CheckFault {
        CheckFault::Memory
    }
}

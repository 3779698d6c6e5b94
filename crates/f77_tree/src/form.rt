//! The forms of statements.

ghost use Rattle.std.specs.Prelude.{◌≡◌};
ghost use Rattle.f77_tree.specs.{acts, is_executable};

/// What a statement is, apart from what it names and computes (ANSI X3.9-1978, 7.1).
#[derive(Clone, Copy, Debug, PartialEq, Eq)]
pub enum Form {
    /// SUBROUTINE (15.6).
    Subroutine,
    /// INTEGER or LOGICAL (8.4).
    Declare,
    /// DIMENSION (8.1).
    Dimension,
    /// DATA (section 9).
    Preset,
    /// An assignment (section 10).
    Assign,
    /// An unconditional GO TO (11.1).
    Goto,
    /// A computed GO TO (11.2).
    ComputedGoto,
    /// An arithmetic IF (11.4).
    ArithIf,
    /// A logical IF (11.5).
    LogicalIf,
    /// A block IF (11.6).
    BlockIf,
    /// ELSE IF (11.7).
    ElseIf,
    /// ELSE (11.8).
    Else,
    /// END IF (11.9).
    EndIf,
    /// DO (11.10).
    Loop,
    /// CONTINUE (11.11).
    Continue,
    /// RETURN (15.8).
    Return,
    /// STOP (11.12).
    Stop,
    /// TRAP, which only mutants have in place of a statement.
    Trap,
    /// END (11.14).
    End,
}

impl Form {
    /// Whether a statement of this form is executable (7.1).
    pub fn is_executable(self) -> bool
        ensures { result ≡ is_executable self }
    {
        !matches!(
            self,
            Form::Subroutine | Form::Declare | Form::Dimension | Form::Preset
        )
    }

    /// Whether a statement of this form may stand in a logical IF (11.5): each executable one but DO, block IF, ELSE
    /// IF, ELSE, END IF, END and another logical IF.
    pub fn acts(self) -> bool
        ensures { result ≡ acts self }
    {
        !matches!(
            self,
            Form::Subroutine
                | Form::Declare
                | Form::Dimension
                | Form::Preset
                | Form::LogicalIf
                | Form::BlockIf
                | Form::ElseIf
                | Form::Else
                | Form::EndIf
                | Form::Loop
                | Form::End
        )
    }
}

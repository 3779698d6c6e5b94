//! The clauses that a single statement keeps or breaks.

ghost use Rattle.std.specs.Prelude.{◌≡◌, nat_lt};
ghost use Rattle.f77_legal.specs.code.Broken as broken;
ghost use Rattle.f77_legal.specs.{clause_fault};

use crate::fault::CheckFault;

/// A clause that each statement has to keep. They stand in the order of test.
#[derive(Clone, Copy, Debug, PartialEq, Eq)]
pub enum Clause {
    /// The kinds of its expressions agree.
    Kinds,
    /// Its bounds, and its numbers of subscripts and arguments, are right.
    Bounds,
    /// Each label that it names stands on a statement.
    NamedLabels,
    /// Control may go to each statement to which it jumps.
    Targets,
    /// A DO names a statement that may be a terminal statement.
    Terminals,
    /// Its block or its DO is nested.
    Nests,
    /// No jump of it leads into a range or a branch.
    Jumps,
    /// It does not set the variable of a DO whose range holds it.
    Variables,
}

impl Clause {
    /// The place of the clause in the order of test, from 0.
    pub(crate) fn rank(self) -> u32
        ensures { result ≡ broken.rank self }
    {
        self as u32
    }

    /// Whether the clause is tested before the labels of the program.
    pub(crate) fn is_on_expressions(self) -> bool
        ensures { result ≡ nat_lt (broken.rank self) 2 }
    {
        self.rank() <= Clause::Bounds.rank()
    }

    /// The fault of a statement on this line that breaks the clause.
    pub fn fault(self, line: u32) -> CheckFault
        ensures { result ≡ clause_fault self line }
    {
        match self {
            Clause::Kinds => CheckFault::TypeClash(line),
            Clause::Bounds => CheckFault::Dimensions(line),
            Clause::NamedLabels => CheckFault::NoLabel(line),
            Clause::Targets => CheckFault::BadTarget(line),
            Clause::Terminals => CheckFault::BadTerminal(line),
            Clause::Nests => CheckFault::Nesting(line),
            Clause::Jumps => CheckFault::IntoBlock(line),
            Clause::Variables => CheckFault::DoVariable(line),
        }
    }
}

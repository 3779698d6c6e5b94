//! The kill matrix and the mutation score. An entry also says whether its mutant is declared equivalent, so that the
//! score follows from the entries alone.

ghost use Rattle.std.specs.Prelude.{◌≡◌, ◌<◌, ◌^◌, List, length, vec_len};
ghost use Rattle.mothra_bench.specs.Matrix.{is_killed, is_equivalent, score_of, counts};
ghost use Rattle.mothra_bench.specs.declared.matrix.Entry.{Entry};

use crate::counts::Counts;
use f77_meaning::Values;
use mothra_exchange::Ticket;
use std::marker::Model;

/// Which tests kill a mutant, and whether it is declared equivalent.
#[derive(Debug, Drop)]
pub struct Entry {
    /// The mutant.
    pub ticket: Ticket,
    /// For each test, in order, whether it kills the mutant.
    pub kills: Values<bool>,
    /// Whether the mutant is declared equivalent.
    pub declared: bool,
}

impl Entry {
    /// Whether a test kills the mutant. The call takes no memory.
    pub fn is_killed(&self) -> bool
        ensures { result ≡ is_killed self.now }
    {
        self.kills.as_slice().iter().any(|kill| *kill)
    }

    /// Whether the mutant is declared equivalent and survived. The call takes no memory.
    pub fn is_equivalent(&self) -> bool
        ensures { result ≡ is_equivalent self.now }
    {
        self.declared && !self.is_killed()
    }
}

/// The kill matrix: one entry for each mutant of a plan, by operator and number. Only `collect` makes one.
#[derive(Debug, Drop)]
pub struct Matrix {
    entries: Vec<Entry>,
}

impl Model for Matrix {
    ghost Value = { List Entry };

    ghost view = { λ matrix. matrix.entries.items };

    ghost invariant = { λ matrix. length matrix.entries.items < 2 ^ 32 };
}

impl Matrix {
    /// The matrix of these entries.
    pub(crate) fn new(entries: Vec<Entry>) -> Matrix
        requires { vec_len entries < 2 ^ 32 }
        ensures { result ≡ entries.items }
    {
        Matrix { entries }
    }

    /// The entries, by operator and number. The call takes no memory.
    pub fn entries(&self) -> &[Entry]
        ensures entries { result.now ≡ self.now }
        ensures few { length self.now < 2 ^ 32 }
    {
        &self.entries
    }

    /// The mutation score (DeMillo, Lipton and Sayward 1978) in hundredths of a percent, 0 to 10000, rounded
    /// down. `None` where no mutant counts: there is none, or each is equivalent. The call takes no memory.
    pub fn score(&self) -> Option<u32>
        ensures { result ≡ score_of (counts self.now) }
    {
        Counts::of(&self.entries).score()
    }
}

//! The mutants of a program, proved equivalent one at a time.

ghost use Rattle.std.specs.Prelude.{◌≡◌, IfOk, IfSome, map};
ghost use Rattle.f77_equivalence.specs.Equivalent.{IsEquivalentWithin};
ghost use Rattle.f77_program.specs.Patching.{patched};
ghost use Rattle.f77_program.specs.Program.{line_of};
ghost use Rattle.f77_tree.specs.Statement.{statement_of};
ghost use Rattle.mothra_ops.specs.Made.{IsMadeMutant};

use f77_check::Checked;
use f77_finder::finding::entries_of;
use f77_symbolic::equivalent::Tours;
use f77_symbolic::rows::Rows;
use f77_symbolic::work::Work;
use mothra_ops::Mutant;
use std::alloc::{AllocError, Global};

/// So much work the walks of the program alone may take from all cuts.
const TOUR: u64 = 2_000_000;

/// So much the walk of the program alone may take from its start, past all cuts.
const FROM_START: u64 = 100_000;

/// So much all mutants of a plan may take, and so much of it each takes that is only made.
const BUDGET: u64 = 16_000_000;

const MADE: u64 = 7;

/// So much a mutant may take at least, and at most; and so many times its share of what is left.
const FEWEST: u64 = 2_000;

const MOST: u64 = 45_000;

const SHARES: u64 = 6;

/// So many rows are tried for a mutant at most.
const ROWS: usize = 240;

/// What judges mutants of a program, one after another, by the tours of the program.
#[derive(Drop)]
pub(crate) struct Prover<'a> {
    alloc: Global,
    pub(crate) tours: Tours<'a>,
    /// So many mutants may still be asked about.
    asked: u64,
    /// So much work is left for them.
    left: u64,
    /// What the proof left of the mutant that was asked about last.
    pub(crate) rows: Rows,
    /// For so many mutants the work did not do.
    pub(crate) unfinished: u64,
}

impl<'a> Prover<'a> {
    /// The prover of mutants of the program, for about so many. `seeks` says whether rows are asked for.
    pub(crate) fn of(
        alloc: Global,
        checked: &'a Checked,
        asked: u64,
        seeks: bool,
    ) -> Result<Prover<'a>, AllocError>
        ensures { IfOk result (λ prover. prover.tours ≡ checked.now) }
    {
        let entries = entries_of(alloc, checked)?;
        let tours = Tours::of(alloc, checked, &entries, TOUR, FROM_START, seeks)?;
        let left = BUDGET.saturating_sub(asked.saturating_mul(MADE));
        Ok(Prover {
            alloc,
            left: if tours.is_empty() { 0 } else { left },
            tours,
            asked,
            rows: Rows::new(alloc, if seeks { ROWS } else { 0 }),
            unfinished: 0,
        })
    }

    /// How many steps are to be spared for the mutant, if it is equivalent then. It is not asked where the change is in
    /// a declaration, in DATA or in the label of a DO.
    pub(crate) fn spare(
        &mut self,
        checked: &Checked,
        mutant: &Mutant,
    ) -> Result<Option<u64>, AllocError>
        requires made { IsMadeMutant checked.now mutant.now }
        requires tours { self.old.tours ≡ checked.now }
        ensures proved { IfOk result (λ found. IfSome found (λ spare.
            IsEquivalentWithin spare (map line_of checked.now.program)
            (patched (map line_of checked.now.program) mutant.now.edit.statement
            (statement_of mutant.now.stmt.value)))) }
        ensures tours { self.new.tours ≡ self.old.tours }
    {
        self.asked = self.asked.saturating_sub(1);
        self.rows.clear();
        if !mutant.is_alone {
            return Ok(None);
        }
        if self.left == 0 {
            self.unfinished = self.unfinished.saturating_add(1);
            return Ok(None);
        }
        let number = mutant.number();
        let stmt = mutant.statement(checked)?;
        let resolved = checked.resolved(number, &stmt)?;
        let share = (self.left / self.asked.max(1)).saturating_mul(SHARES);
        let most = share.max(FEWEST).min(MOST);
        let mut work = Work {
            left: self.left,
            kept: self.left.saturating_sub(most),
        };
        let spare = self.tours.steps_to_spare(
            self.alloc,
            number,
            &stmt,
            &resolved,
            &mut work,
            &mut self.rows,
        )?;
        self.left = work.left;
        if spare.is_none() && !work.is_left() {
            self.unfinished = self.unfinished.saturating_add(1);
        }
        Ok(spare)
    }
}

//! Whether bounds contradict each other: one atom after another is eliminated (Fourier and Motzkin).

ghost use Rattle.std.specs.Prelude.{◌≡◌, ◌≤ℤ◌, pos, true, IfOk};
ghost use Rattle.f77_terms.specs.{Valuation, IsBelow, AreBelow, AreKnown};

use crate::bounds::{add_bound, add_tight, is_refuted};
use crate::ranges::{Range, atom_range};
use crate::terms::{Term, atom_term, combined, copied_terms, copy, factor_of};
use std::alloc::{AllocError, Global};

/// So many atoms are eliminated, and no more.
const MOST_ATOMS: usize = 24;

/// With more bounds nothing is told.
const MOST_BOUNDS: usize = 80;

/// What an elimination costs more that may lose whole numbers.
const LOSS: usize = 1000;

/// An atom that was eliminated, and the bounds that had it.
#[derive(Drop)]
pub struct Level {
    pub atom: usize,
    pub bounds: Vec<Term>,
}

/// In how many bounds an atom has a factor above 0, and in how many one below, and the least and the greatest of them.
#[derive(Clone, Copy, Default)]
struct Count {
    atom: usize,
    above: usize,
    below: usize,
    least: i64,
    greatest: i64,
}

impl Count {
    /// Counts one factor more.
    fn add(&mut self, factor: i64) {
        self.above = self.above.saturating_add(usize::from(factor > 0));
        self.below = self.below.saturating_add(usize::from(factor < 0));
        self.least = self.least.min(factor);
        self.greatest = self.greatest.max(factor);
    }

    /// So many pairs of bounds an elimination combines.
    fn pairs(&self) -> usize {
        self.above.saturating_mul(self.below)
    }

    /// What an elimination costs: it loses no whole numbers where the factors of one side are 1, and goes first then.
    fn cost(&self) -> usize {
        let is_lossy = self.least < -1 && self.greatest > 1;
        self.pairs().saturating_add(if is_lossy { LOSS } else { 0 })
    }
}

/// The atom whose elimination costs least.
fn next_count(bounds: &Vec<Term>) -> Result<Option<Count>, AllocError> {
    let mut counts: Vec<Count> = Vec::new(*bounds.allocator());
    for part in bounds.iter().flat_map(|bound| &bound.parts) {
        match counts.iter_mut().find(|count| count.atom == part.atom) {
            Some(count) => count.add(part.factor),
            None => {
                let mut count = Count {
                    atom: part.atom,
                    ..Count::default()
                };
                count.add(part.factor);
                counts.push(count)?;
            }
        }
    }
    Ok(counts.iter().min_by_key(|count| count.cost()).copied())
}

/// Adds what is known of an atom.
fn add_known(known: &[Option<Range>], bounds: &mut Vec<Term>, atom: usize) -> Result<(), AllocError>
    ensures { IfOk result (λ _. (v : Valuation) → AreKnown v known.now → AreBelow v bounds.old.items
        → AreBelow v bounds.new.items) }
{
    let Some(range) = atom_range(known, atom) else {
        return Ok(());
    };
    let term = atom_term(*bounds.allocator(), atom)?;
    add_bound(bounds, -1, &term, range.low)?;
    add_bound(bounds, 1, &term, -range.high.max(-i64::MAX))
}

/// Adds what follows from a bound without the atom: itself, or, where its factor is above 0, what it leads to with
/// each of those in which the factor is below 0.
fn add_without(
    left: &mut Vec<Term>,
    bound: &Term,
    bounds: &[Term],
    atom: usize,
) -> Result<(), AllocError>
    ensures { IfOk result (λ _. (v : Valuation) → AreBelow v left.old.items → IsBelow v bound.now
        → AreBelow v bounds.now → AreBelow v left.new.items) }
{
    let factor = factor_of(bound, atom);
    if factor == 0 {
        return add_tight(left, copy(bound)?);
    }
    if factor < 0 {
        return Ok(());
    }
    for other in bounds {
        let below = factor_of(other, atom);
        if below < 0 && below != i64::MIN {
            if let Some(sum) = combined(-below, bound, factor, other)? {
                add_tight(left, sum)?;
            }
        }
    }
    Ok(())
}

/// What follows from the bounds, without the atom.
fn eliminated(alloc: Global, bounds: &[Term], atom: usize) -> Result<Vec<Term>, AllocError>
    ensures { IfOk result (λ left. (v : Valuation) → AreBelow v bounds.now → AreBelow v left.items) }
{
    let mut left = Vec::new(alloc);
    for bound in bounds {
        add_without(&mut left, bound, bounds, atom)?;
    }
    Ok(left)
}

/// Where this is known of atoms, not all of the bounds are at most 0. It tells which atoms were eliminated.
pub fn are_contradictory(
    alloc: Global,
    work: &mut u64,
    known: &[Option<Range>],
    bounds: &[Term],
    levels: &mut Vec<Level>,
) -> Result<bool, AllocError>
    ensures { IfOk result (λ yes. yes ≡ true → (v : Valuation) → AreKnown v known.now
        → ¬ (AreBelow v bounds.now)) }
{
    let mut left = copied_terms(alloc, bounds)?;
    for _ in 0..MOST_ATOMS {
        if is_refuted(&left) {
            return Ok(true);
        }
        let Some(count) = next_count(&left)? else {
            return Ok(false);
        };
        let atom = count.atom;
        let looked_at = left.len().saturating_add(count.pairs());
        *work = work.saturating_sub(looked_at as u64);
        if left.len() > MOST_BOUNDS || *work == 0 {
            return Ok(false);
        }
        add_known(known, &mut left, atom)?;
        let without = eliminated(alloc, &left, atom)?;
        left.retain(|bound| factor_of(bound, atom) != 0);
        levels.push(Level { atom, bounds: left })?;
        left = without;
    }
    Ok(false)
}

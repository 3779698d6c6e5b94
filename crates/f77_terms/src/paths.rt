//! Paths: what is known where control comes, and whether that is possible.

ghost use Rattle.std.specs.Prelude.{◌≡◌, ◌⊎◌, ◌+ℤ◌, ◌*ℤ◌, ◌≤ℤ◌, pos, true, IfOk};
ghost use Rattle.f77_terms.specs.{Valuation, sum_value, AreBelow, IsIn, AreKnown};
ghost use Rattle.f77_terms.specs.{IsUnequal, Holds};

use crate::bounds::{add_bound, joint_bounds};
use crate::near::path_near;
use crate::ranges::{Range, narrow_all, narrow_all_apart, set_within};
use crate::splitting::is_refuted_with;
use crate::terms::{Term, copied_terms, copy};
use f77_tree::Shared;
use std::alloc::{AllocError, Global};

/// To copy so many terms and choices of a path takes as much work as a bound; so many ranges count as one of these.
const COPIES: usize = 8;

/// So many times a case is split at most.
const MOST_SPLITS: usize = 24;

/// One of two cases is there: in it each of its bounds is at most 0.
#[derive(Drop)]
pub struct Choice {
    pub first: Vec<Term>,
    pub second: Vec<Term>,
}

/// What is known: ranges of atoms, terms at most 0, terms that are not 0, and choices.
#[derive(Drop)]
pub struct Path {
    pub known: Vec<Option<Range>>,
    pub below: Vec<Term>,
    pub unequal: Vec<Term>,
    pub choices: Vec<Shared<Choice>>,
}

impl Path {
    /// The work that it takes to copy the path.
    pub fn cost_to_copy(&self) -> u64 {
        let ranges = self.known.len() / COPIES;
        let others = self.unequal.len().saturating_add(self.choices.len());
        let copied = self.below.len().saturating_add(others);
        (copied.saturating_add(ranges) / COPIES) as u64
    }
}

/// Where the path holds, not all of these terms are at most 0. Where there are none it is shown that it holds nowhere.
/// It is false too where the work that is left, of which it takes, does not do: a unit is a bound that is looked at,
/// and what takes as long.
pub fn refuted(work: &mut u64, path: &Path, extra: &[Term]) -> Result<bool, AllocError>
    ensures { IfOk result
        (λ yes. yes ≡ true → (v : Valuation) → Holds v path.now → ¬ (AreBelow v extra.now)) }
{
    let alloc = *path.below.allocator();
    *work = work.saturating_sub(path.cost_to_copy());
    let near = path_near(path, extra)?;
    let bounds = joint_bounds(alloc, &near.below, extra)?;
    is_refuted_with(alloc, work, &near, &near.known, &bounds, 0, MOST_SPLITS)
}

/// A path on which nothing is known.
pub fn new_path(alloc: Global) -> Path
    ensures { (v : Valuation) → Holds v result }
{
    Path {
        known: Vec::new(alloc),
        below: Vec::new(alloc),
        unequal: Vec::new(alloc),
        choices: Vec::new(alloc),
    }
}

/// The path in memory of its own.
pub fn copied_path(path: &Path) -> Result<Path, AllocError>
    ensures { IfOk result (λ copied. (v : Valuation) → Holds v path.now → Holds v copied) }
{
    let alloc = *path.known.allocator();
    Ok(Path {
        known: Vec::from_slice(alloc, &path.known)?,
        below: copied_terms(alloc, &path.below)?,
        unequal: copied_terms(alloc, &path.unequal)?,
        choices: path.choices.to_vec(alloc)?,
    })
}

/// Makes room for what is known of an atom.
fn make_room(known: &mut Vec<Option<Range>>, atom: usize) -> Result<(), AllocError>
    ensures { IfOk result (λ _. (v : Valuation) → AreKnown v known.old.items → AreKnown v known.new.items) }
{
    known.resize(known.len().max(atom.saturating_add(1)), None)
}

/// Adds that an atom is in a range.
pub fn add_range(path: &mut Path, atom: usize, range: Range) -> Result<(), AllocError>
    ensures { IfOk result (λ _. (v : Valuation) → Holds v path.old → IsIn range (v atom) → Holds v path.new) }
{
    make_room(&mut path.known, atom)?;
    set_within(&mut path.known, atom, range);
    Ok(())
}

/// Adds that a term, m times, and a constant are at most 0.
pub fn add_below(path: &mut Path, m: i64, term: &Term, constant: i64) -> Result<(), AllocError>
    ensures { IfOk result (λ _. (v : Valuation) → Holds v path.old
        → (constant +ℤ m *ℤ sum_value v term.now) ≤ℤ pos 0 → Holds v path.new) }
{
    add_bound(&mut path.below, m, term, constant)
}

/// Adds that a term is 0.
pub fn add_equal(path: &mut Path, term: &Term) -> Result<(), AllocError>
    ensures { IfOk result (λ _. (v : Valuation) → Holds v path.old → sum_value v term.now ≡ pos 0
        → Holds v path.new) }
{
    add_below(path, 1, term, 0)?;
    add_below(path, -1, term, 0)
}

/// Adds that a term is not 0.
pub fn add_unequal(path: &mut Path, term: &Term) -> Result<(), AllocError>
    ensures { IfOk result (λ _. (v : Valuation) → Holds v path.old → IsUnequal v term.now → Holds v path.new) }
{
    Ok(path.unequal.push(copy(term)?)?)
}

/// Adds that one of two cases is there.
pub fn add_choice(path: &mut Path, first: Vec<Term>, second: Vec<Term>) -> Result<(), AllocError>
    ensures { IfOk result (λ _. (v : Valuation) → Holds v path.old
        → AreBelow v first.items ⊎ AreBelow v second.items → Holds v path.new) }
{
    let choice = Shared::new(*path.choices.allocator(), Choice { first, second })?;
    Ok(path.choices.push(choice)?)
}

/// Narrows the ranges of atoms by what is at most 0, and by what is not 0.
pub fn settle(path: &mut Path)
    ensures { (v : Valuation) → Holds v path.old → Holds v path.new }
{
    narrow_all(&mut path.known, &path.below);
    narrow_all_apart(&mut path.known, &path.unequal);
}

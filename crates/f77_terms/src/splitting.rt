//! Cases of a path: whether one is possible, and how it splits by what is not 0 and by choices.

ghost use Rattle.std.specs.Prelude.{◌≡◌, true, IfOk, IfSome};
ghost use Rattle.f77_terms.specs.{Valuation, AreBelow, AreKnown, IsUnequal, HasCase, Holds};

use crate::assignment::Assignment;
use crate::bounds::{joint_bounds, sign_bounds};
use crate::elimination::{Level, are_contradictory};
use crate::paths::{Choice, Path};
use crate::ranges::{Range, is_ruled_out, narrow_all};
use crate::terms::Term;
use f77_tree::Shared;
use std::alloc::{AllocError, Global};
use std::cmp::Ordering;

/// To look at the ranges of so many atoms takes as much work as a bound.
const ATOMS: usize = 16;

/// So often each bound narrows the ranges of atoms.
const MOST_ROUNDS: usize = 6;

/// Where this is known of atoms, not all of the bounds are at most 0: by ranges, which are narrowed, and else by
/// elimination.
fn is_impossible(
    alloc: Global,
    work: &mut u64,
    ranges: &mut [Option<Range>],
    bounds: &[Term],
    levels: &mut Vec<Level>,
) -> Result<bool, AllocError>
    ensures told { IfOk result (λ yes. yes ≡ true → (v : Valuation) → AreKnown v ranges.old
        → ¬ (AreBelow v bounds.now)) }
    ensures kept { (v : Valuation) → AreKnown v ranges.old → AreBelow v bounds.now → AreKnown v ranges.new }
{
    if *work == 0 {
        return Ok(false);
    }
    let taken = bounds.len().saturating_add(ranges.len() / ATOMS);
    *work = work.saturating_sub(taken as u64);
    for _ in 0..MOST_ROUNDS {
        let is_new = narrow_all(ranges, bounds);
        if is_ruled_out(ranges, bounds) {
            return Ok(true);
        }
        if !is_new {
            return are_contradictory(alloc, work, ranges, bounds, levels);
        }
    }
    are_contradictory(alloc, work, ranges, bounds, levels)
}

/// A choice of the path: what is not 0 is below it or above it, and comes before its choices.
fn choice_at(path: &Path, place: usize) -> Result<Option<Shared<Choice>>, AllocError>
    ensures { IfOk result
        (λ found. IfSome found (λ choice. (v : Valuation) → Holds v path.now → HasCase v choice)) }
{
    if place < path.unequal.len() {
        let term = &path.unequal[place];
        let first = sign_bounds(term, Ordering::Less)?;
        let second = sign_bounds(term, Ordering::Greater)?;
        let choice = Shared::new(*path.choices.allocator(), Choice { first, second })?;
        return Ok(Some(choice));
    }
    let behind = place - path.unequal.len();
    if behind < path.choices.len() {
        return Ok(Some(path.choices[behind].clone()?));
    }
    Ok(None)
}

/// Where the path holds and this is known of atoms, not all of the bounds are at most 0. Cases are split so many times,
/// one in another; `next` is what is to split a case where numbers do not tell it.
pub fn is_refuted_with(
    alloc: Global,
    work: &mut u64,
    path: &Path,
    known: &[Option<Range>],
    bounds: &[Term],
    next: usize,
    splits: usize,
) -> Result<bool, AllocError>
    ensures { IfOk result (λ yes. yes ≡ true → (v : Valuation) → Holds v path.now → AreKnown v known.now
        → ¬ (AreBelow v bounds.now)) }
{
    let mut ranges = Vec::from_slice(alloc, known)?;
    let mut levels = Vec::new(alloc);
    if is_impossible(alloc, work, &mut ranges, bounds, &mut levels)? {
        return Ok(true);
    }
    if splits == 0 || *work == 0 {
        return Ok(false);
    }
    let assignment = Assignment::of(alloc, &ranges, &levels)?;
    let Some(place) = assignment.split_of(path, bounds, next) else {
        return Ok(false);
    };
    let Some(choice) = choice_at(path, place)? else {
        return Ok(false);
    };
    let after = next.saturating_add(usize::from(place == next));
    let first = joint_bounds(alloc, bounds, &choice.first)?;
    if !is_refuted_with(alloc, work, path, &ranges, &first, after, splits - 1)? {
        return Ok(false);
    }
    let second = joint_bounds(alloc, bounds, &choice.second)?;
    is_refuted_with(alloc, work, path, &ranges, &second, after, splits - 1)
}

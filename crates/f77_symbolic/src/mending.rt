//! Samples are mended: numbers of slots are changed, one after another, so that a sample is on a path and a term has a
//! sign there.

use crate::evaluator::Evaluator;
use crate::samples::Sample;
use f77_terms::{Function, Key, Part, Path, Range, Table, Term, common_divisor, constant_of};
use std::alloc::AllocError;
use std::slice;

/// So many samples are tried to be changed for one question, the last made first.
const MOST_TRIES: usize = 4;

/// So often one of them is changed.
const MOST_CHANGES: usize = 8;

/// With so many samples no more are made.
const MOST_SAMPLES: usize = 160;

/// The same where rows are asked for.
const MOST_SOUGHT: usize = 400;

/// Numbers that are tried for a slot where no change of it was found.
const TRIED: [i64; 6] = [-1, 0, 1, 2, 2147483647, -2147483648];

/// Larger common multiples of divisors are left.
const MOST_MULTIPLE: u64 = 1_000_000;

/// To change one costs a unit of work for so many atoms.
const ATOMS: u64 = 2;

/// The number divided, and rounded away from 0.
fn rounded(distance: i64, by: i64) -> Option<i64> {
    let less_than_by = by.checked_abs()?.checked_sub(1)?;
    let most = distance.checked_add(less_than_by.checked_mul(distance.signum())?)?;
    most.checked_div(by)
}

/// The least common multiple of two numbers.
fn multiple_with(multiple: u64, divisor: u64) -> Option<u64> {
    let quotient = multiple.checked_div(common_divisor(multiple, divisor))?;
    let both = quotient.checked_mul(divisor)?;
    (both != 0 && both <= MOST_MULTIPLE).then_some(both)
}

/// A number by multiples of which a slot may be changed, so that remainders stay.
fn common_multiple(table: &Table) -> i64 {
    let divisors = table.keys.iter().filter_map(|key| match &**key {
        Key::Function(Function::Remainder, _, b) => Some(constant_of(b)?.unsigned_abs()),
        _ => None,
    });
    let multiple = divisors.fold(1, |all, by| multiple_with(all, by).unwrap_or(all));
    i64::try_from(multiple).unwrap_or(1)
}

/// What is tried in place of a number: one changed by so much, one by a multiple of divisors, and those of the list.
fn tried(table: &Table, now: i64, by: i64, way: usize) -> i64 {
    let multiple = match way {
        0 => 1,
        1 => common_multiple(table),
        _ => return TRIED.get(way - 2).copied().unwrap_or(now),
    };
    let times = rounded(by, multiple).unwrap_or(0);
    now.saturating_add(times.saturating_mul(multiple))
}

impl Sample {
    /// A slot and its next number, by which a part, of which the atom may be a function of terms, changes by so much.
    fn next_number(&self, table: &Table, part: &Part, by: i64, way: usize) -> Option<(usize, i64)> {
        let z = rounded(by, part.factor)?;
        let (parts, by) = match &**table.keys.get(part.atom)? {
            Key::Function(Function::Quotient, a, b) => (&*a.parts, z.checked_mul(self.value(b)?)?),
            Key::Function(Function::Product, a, b) => (&*a.parts, rounded(z, self.value(b)?)?),
            Key::Function(_, a, _) => (&*a.parts, z),
            _ => (slice::from_ref(part), by),
        };
        let slot_in = |part: &Part| Some((self.slot_of(table.keys.get(part.atom)?)?, part.factor));
        let (slot, factor) = parts.iter().find_map(slot_in)?;
        let now = *self.held.get(slot)?;
        let next = tried(table, now, rounded(by, factor)?, way);
        (next != now && i32::try_from(next).is_ok()).then_some((slot, next))
    }

    /// A term that keeps the sample from the path or from the bounds, and by how much it is to be changed.
    fn lack<'a>(&self, path: &'a Path, bounds: &'a [Term]) -> Option<(&'a Term, i64)> {
        let above = |term: &Term| self.value(term).unwrap_or(1).max(0);
        let mut below = bounds.iter().chain(&path.below);
        if let Some(term) = below.find(|term| above(term) > 0) {
            return Some((term, above(term).saturating_neg()));
        }
        let mut unequal = path.unequal.iter();
        Some((unequal.find(|term| self.value(term).unwrap_or(0) == 0)?, 1))
    }

    /// Numbers of slots that are not in the range of their atom are moved there.
    fn move_within(&mut self, table: &Table, known: &[Option<Range>]) {
        for (key, known) in table.keys.iter().zip(known) {
            if let (Some(range), Some(slot)) = (known, self.slot_of(key)) {
                if let Some(number) = self.held.get_mut(slot) {
                    *number = (*number).max(range.low).min(range.high);
                }
            }
        }
    }
}

impl Evaluator {
    /// Slots of a sample are changed, so that it is on the path and the bounds hold. False where that is not told.
    fn mend(&self, sample: &mut Sample, bounds: &[Term], way: usize) -> Result<bool, AllocError> {
        let table = &self.atoms.table;
        self.samples.spend(table.keys.len() as u64 / ATOMS + 1);
        for changes in 0..MOST_CHANGES {
            sample.move_within(table, &self.path.known);
            sample.values.clear();
            sample.extend(table)?;
            let Some((term, by)) = sample.lack(&self.path, bounds) else {
                sample.is_on_path = sample.is_on(&self.path);
                return Ok(sample.is_on_path);
            };
            let way = if changes == 0 { way } else { way.min(1) };
            let parts = &term.parts;
            let mut turned = parts.iter().cycle().skip(changes).take(parts.len());
            let change = turned.find_map(|part| sample.next_number(table, part, by, way));
            let Some((slot, next)) = change else {
                return Ok(false);
            };
            if let Some(number) = sample.held.get_mut(slot) {
                *number = next;
            }
        }
        Ok(false)
    }

    /// A sample on the path, where the bounds hold, is made from others, if one is found and not too many were made.
    fn made(&self, bounds: &[Term]) -> Result<Option<Sample>, AllocError> {
        let seeks = self.samples.seeks;
        let most = if seeks { MOST_SOUGHT } else { MOST_SAMPLES };
        let ways = if seeks { 2 + TRIED.len() } else { 1 };
        let are_any = self.samples.are_any()?;
        let list = self.samples.list()?;
        let tries = if list.len() < most { MOST_TRIES } else { 0 };
        let fits = |sample: &&Sample| sample.is_on_path == are_any;
        for sample in list.iter().rev().filter(fits).take(tries) {
            for way in 0..ways {
                let mut sample = sample.copied()?;
                if self.mend(&mut sample, bounds, way)? {
                    return Ok(Some(sample));
                }
            }
        }
        Ok(None)
    }

    /// Such a sample is made and added, if one is found.
    pub(crate) fn find_sample(&self, bounds: &[Term]) -> Result<bool, AllocError> {
        let Some(sample) = self.made(bounds)? else {
            return Ok(false);
        };
        self.samples.list_to_change()?.push(sample)?;
        Ok(true)
    }
}

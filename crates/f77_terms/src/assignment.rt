//! Numbers that fit bounds, as far as an elimination tells them. Nothing follows from them: they choose what a case is
//! split by.

use crate::elimination::Level;
use crate::numbers::plus_multiple;
use crate::paths::{Choice, Path};
use crate::ranges::{Range, atom_range, limited};
use crate::terms::{Term, factor_of};
use std::alloc::{AllocError, Global};

/// The numbers of atoms. Others have a number of their range.
#[derive(Drop)]
pub struct Assignment<'a> {
    known: &'a [Option<Range>],
    numbers: Vec<(usize, i64)>,
}

/// A number of a range, so far from its end, that several seldom are the same.
fn number_in(range: Range, offset: i64) -> i64 {
    if range.low > i64::MIN {
        let number = range.low.saturating_add(offset);
        number.min(range.high).max(range.low)
    } else if range.high < i64::MAX {
        range.high.saturating_sub(offset)
    } else {
        offset
    }
}

impl<'a> Assignment<'a> {
    /// The number of an atom.
    fn number_of(&self, atom: usize) -> i64 {
        let least = |range: Range| range.low.max(0).min(range.high);
        let mut numbers = self.numbers.iter();
        match numbers.find(|(named, _)| *named == atom) {
            Some((_, number)) => *number,
            None => atom_range(self.known, atom).map_or(0, least),
        }
    }

    /// The number of a term.
    fn value_of(&self, term: &Term) -> Option<i64> {
        let mut parts = term.parts.iter();
        parts.try_fold(term.constant, |sum, part| {
            plus_multiple(sum, part.factor, self.number_of(part.atom))
        })
    }

    /// What the bounds of a level leave for its atom, which is 0 so far.
    fn range_at(&self, level: &Level) -> Range {
        let (low, high) = (i64::MIN, i64::MAX);
        let mut range = Range { low, high };
        for bound in &level.bounds {
            if let Some(rest) = self.value_of(bound) {
                range = limited(range, factor_of(bound, level.atom), rest).unwrap_or(range);
            }
        }
        range
    }

    /// Numbers for the atoms that were eliminated, the last of them first.
    pub fn of(
        alloc: Global,
        known: &'a [Option<Range>],
        levels: &[Level],
    ) -> Result<Assignment<'a>, AllocError> {
        let numbers = Vec::with_capacity(alloc, levels.len())?;
        let mut made = Assignment { known, numbers };
        for (place, level) in levels.iter().rev().enumerate() {
            made.numbers.push((level.atom, 0))?;
            let range = made.range_at(level);
            if let Some(last) = made.numbers.last_mut() {
                last.1 = number_in(range, (place as i64).saturating_mul(7));
            }
        }
        Ok(made)
    }

    /// Each of the terms is at most 0.
    fn are_below(&self, terms: &[Term]) -> bool {
        terms.iter().all(|term| self.value_of(term).is_some_and(|number| number <= 0))
    }

    /// A case of the choice is there.
    fn has_case(&self, choice: &Choice) -> bool {
        self.are_below(&choice.first) || self.are_below(&choice.second)
    }

    /// By what a case with these bounds is to be split: by the first of all that the path knows with which the numbers
    /// do not fit. By nothing where all fits.
    pub fn split_of(&self, path: &Path, bounds: &[Term], next: usize) -> Option<usize> {
        let mut terms = path.unequal.iter();
        if let Some(place) = terms.position(|term| self.value_of(term) == Some(0)) {
            return Some(place);
        }
        let mut choices = path.choices.iter();
        if let Some(place) = choices.position(|choice| !self.has_case(choice)) {
            return path.unequal.len().checked_add(place);
        }
        (!self.are_below(bounds)).then_some(next)
    }
}

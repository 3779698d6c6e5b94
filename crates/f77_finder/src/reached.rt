//! The cuts that control was found to come to, with what is known there.

use crate::widening::join;
use f77_code::Place;
use f77_facts::{Entry, are_covered, is_empty};
use std::alloc::AllocError;
use std::slice::from_ref;

/// So many times an entry takes in another one before its bounds are widened to thresholds, and to the ends of the
/// range.
const PLAIN_JOINS: u32 = 6;

const JOINS_TO_THRESHOLDS: u32 = 40;

/// A cut that control was found to come to.
#[derive(Drop)]
pub(crate) struct Reached {
    pub(crate) entry: Entry,
    /// How often more was found to be allowed.
    joins: u32,
    /// Where control goes from here is to be found.
    waits: bool,
}

impl Reached {
    /// Control comes to the cut by another way.
    fn take_in(&mut self, entry: &Entry, thresholds: &[i64]) {
        if are_covered(from_ref(&self.entry), from_ref(entry)) {
            return;
        }
        let thresholds = match self.joins {
            0..PLAIN_JOINS => None,
            PLAIN_JOINS..JOINS_TO_THRESHOLDS => Some(thresholds),
            _ => Some(&thresholds[..0]),
        };
        join(&mut self.entry, entry, thresholds);
        self.joins = self.joins.saturating_add(1);
        self.waits = true;
    }
}

/// Control comes to a cut, if anything is allowed there.
pub(crate) fn reach(
    list: &mut Vec<Reached>,
    entry: Entry,
    thresholds: &[i64],
) -> Result<(), AllocError> {
    if is_empty(&entry.facts) {
        return Ok(());
    }
    match list.iter_mut().find(|it| it.entry.place == entry.place) {
        Some(reached) => reached.take_in(&entry, thresholds),
        None => list.push(Reached {
            entry,
            joins: 0,
            waits: true,
        })?,
    }
    Ok(())
}

/// What is known at the cut first in the program from which control is to be followed, which waits no more. No cut is
/// an incrementation.
pub(crate) fn next_waiting(list: &mut [Reached]) -> Option<&Entry> {
    let waiting = list.iter_mut().filter(|reached| reached.waits);
    let first = waiting.min_by_key(|reached| match reached.entry.place {
        Place::Execute(i) | Place::Increment(i) => i,
    })?;
    first.waits = false;
    Some(&first.entry)
}

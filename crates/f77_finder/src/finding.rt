//! Finds what is known at each cut of a program.

use crate::reached::{Reached, next_waiting, reach};
use crate::thresholds::thresholds_of;
use f77_check::Checked;
use f77_equivalence::start::starting_entry;
use f77_facts::Entry;
use f77_symbolic::cuts::cuts_of;
use f77_symbolic::visiting::entries_behind;
use std::alloc::{AllocError, Global};

/// So many entries are gone on from for each statement, at most.
const LOOKS: usize = 128;

/// So much work the walks from all entries may take.
const WORK: u64 = 4_000_000;

/// The cuts to which control comes from the start. None where it can come to none, or they are not found soon enough.
fn cuts_reached(alloc: Global, checked: &Checked) -> Result<Option<Vec<Reached>>, AllocError> {
    let statements = checked.statements();
    let cuts = cuts_of(alloc, statements, checked.start().entry, true)?;
    if cuts.len() == 1 {
        return Ok(None);
    }
    let thresholds = thresholds_of(alloc, checked)?;
    let mut list = Vec::new(alloc);
    reach(&mut list, starting_entry(alloc, checked)?, &thresholds)?;
    let mut left = WORK;
    for _look in 0..=checked.count().saturating_mul(LOOKS) {
        let Some(entry) = next_waiting(&mut list) else {
            return Ok(Some(list));
        };
        let Some(moves) = entries_behind(alloc, statements, &cuts, entry, &mut left)? else {
            return Ok(None);
        };
        for entry in moves {
            reach(&mut list, entry, &thresholds)?;
        }
    }
    Ok(None)
}

/// What is known where a run of the program starts and of each cut to which control comes from there: an entry for each
/// cut, or that of the start alone where control comes to no cut or the search would take too long. Nothing is claimed
/// of them: they are to be checked.
pub fn entries_of(alloc: Global, checked: &Checked) -> Result<Vec<Entry>, AllocError> {
    match cuts_reached(alloc, checked)? {
        Some(list) => list.into_iter().map(|reached| reached.entry).collect(alloc),
        None => Ok(vec![in alloc; starting_entry(alloc, checked)?]?),
    }
}

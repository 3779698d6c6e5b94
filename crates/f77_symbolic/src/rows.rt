//! Rows: what samples have of the dummy arguments where a walk is given up. Each may be a test that kills the changed
//! program. Nothing is claimed of rows.

use crate::samples::{Sample, Samples};
use f77_facts::assigning::Slots;
use std::alloc::{AllocError, Global};

/// Where a walk of both programs is.
#[derive(Clone, Copy, PartialEq, Eq, Debug)]
pub struct Gap {
    /// The statement at which the program is, from 0.
    pub own: usize,
    /// The one at which the changed program is.
    pub other: usize,
    /// The slot of which the values were compared last, or the first one of an array, if any were.
    pub slot: Option<usize>,
}

/// Rows for one changed program, each once: the numbers of the slots of all dummy arguments, in order; those first that
/// are on the path that was not settled.
#[derive(Drop)]
pub struct Rows {
    pub list: Vec<Vec<i64>>,
    /// So many are kept.
    most: usize,
    /// Where the first walk was given up.
    pub gap: Option<Gap>,
}

impl Rows {
    /// No rows yet, and at most so many. It takes no memory.
    pub fn new(alloc: Global, most: usize) -> Rows {
        Rows {
            list: Vec::new(alloc),
            most,
            gap: None,
        }
    }

    /// Leaves out all, for another changed program.
    pub fn clear(&mut self) {
        self.list.clear();
        self.gap = None;
    }

    /// Adds the row of a sample, if it is another one.
    fn add(&mut self, sample: &Sample, dummies: &[Slots]) -> Result<(), AllocError> {
        if self.list.len() >= self.most {
            return Ok(());
        }
        let mut row = Vec::new(*self.list.allocator());
        for slots in dummies {
            let numbers = sample.held.iter().skip(slots.first);
            row.extend(numbers.take(slots.count).copied())?;
        }
        if !self.list.contains(&row) {
            self.list.push(row)?;
        }
        Ok(())
    }

    /// Adds the rows of samples: first of those that are on the path, then of all; the last made come first. Notes
    /// where the walk was.
    pub(crate) fn add_all(
        &mut self,
        samples: &Samples,
        dummies: &[Slots],
    ) -> Result<(), AllocError> {
        self.gap = self.gap.or(samples.gap.get());
        let list = samples.list()?;
        let on_path = list.iter().rev().filter(|sample| sample.is_on_path);
        for sample in on_path.chain(list.iter().rev()) {
            self.add(sample, dummies)?;
        }
        Ok(())
    }
}

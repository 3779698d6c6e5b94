//! The first visit of each statement in a run, with the step made then.

ghost use Rattle.std.specs.Prelude.{◌≡◌, length, IfOk};
ghost use Rattle.f77_code.specs.Follow.{AreNone};

use f77_code::Passed;
use std::alloc::{AllocError, Global};

/// For each statement, in order, the first time at which control was there, with the step made then.
///
/// The visits are of the code of a `Runner` and serve that of a `ChangedRunner`, which may number its constants
/// otherwise. So only the registers of slots are kept (`law::twins_do_the_same`).
#[derive(Drop)]
pub struct Visits {
    pub(crate) list: Vec<Passed>,
    /// The number of steps that the run makes.
    pub(crate) made: u32,
}

impl Visits {
    /// Visits of this many statements, with nothing noted.
    pub(crate) fn none(alloc: Global, count: usize) -> Result<Visits, AllocError>
        ensures count { IfOk result (λ visits. length visits.list.items ≡ count) }
        ensures none { IfOk result (λ visits. AreNone visits.list.items) }
    {
        let mut list = Vec::with_capacity(alloc, count)?;
        for _statement in 0..count {
            list.push(Passed {
                first: None,
                more: false,
            })?;
        }
        Ok(Visits { list, made: 0 })
    }
}

//! The numbers of places: those of the statements come first, then those of the incrementations of DOs.

ghost use Rattle.std.specs.Prelude.{◌≡◌, ◌<◌, ◌+◌, if◌then◌else◌, List, length, true, IfOk};
ghost use Rattle.f77_actions.specs.declared.resolved.Resolved.{Resolved};
ghost use Rattle.f77_code.specs.Instructions as meaning;
ghost use Rattle.f77_code.specs.Holds as counts;
ghost use Rattle.f77_code.specs.Moves as moves;
ghost use Rattle.f77_code.specs.{is_of_32_bits};

use crate::compiling::place_of;
use f77_actions::{Action, Resolved};
use f77_tree::Shared;
use std::alloc::{AllocError, Global};

/// The places of the incrementations of DOs: the number of statements, and for each statement the place of its
/// incrementation, or the next one where it is no DO.
#[derive(Drop)]
pub struct Places {
    first: u32,
    increments: Vec<u32>,
}

/// The place behind the incrementation of this action if it is a DO, and else the same place.
fn behind(place: u32, action: &Action) -> u32
    requires { place < 4294967295 }
    ensures { result ≡ (if moves.is_loop action.now then place + 1 else place) }
{
    match action {
        Action::Loop { .. } => place + 1,
        _ => place,
    }
}

/// Those of the DOs `ends` that are outside of the DO `d`. All of them end together, and stand with the innermost
/// first.
fn round(ends: &[usize], d: usize) -> &[usize]
    ensures { result.now ≡ meaning.round d ends.now }
{
    for (k, end) in ends.iter().enumerate() {
        if d == *end {
            return &ends[k + 1..];
        }
    }
    &[]
}

impl Places {
    ghost use Rattle.f77_code.specs.Places.{ArePlaces, have_places};

    /// The places of the incrementations of these statements.
    pub(crate) fn new(alloc: Global, statements: &[Shared<Resolved>]) -> Result<Places, AllocError>
        requires { length statements.now < 2147483648 }
        ensures { IfOk result (λ places. ArePlaces statements.now places) }
    {
        let first = statements.len() as u32;
        let mut increments = Vec::with_capacity(alloc, statements.len())?;
        let mut place = first;
        for i in 0..statements.len() {
            increments.push(place)?;
            place = behind(place, &statements[i].action);
        }
        Ok(Places { first, increments })
    }

    /// The number of the counter of the DO `d`, from 0.
    pub(crate) fn counter(&self, d: usize) -> u32
        requires { d < length self.now.increments.items }
        ensures { (statements : List Resolved) → ArePlaces statements self.now → result ≡ counts.do_rank statements d }
    {
        self.increments[d].saturating_sub(self.first)
    }

    /// The place behind a statement that ends these DOs, the innermost first: the incrementation of the innermost, or
    /// the statement `next` where there is none.
    pub(crate) fn onward(&self, ends: &[usize], next: usize) -> u32
        requires ends { moves.are_below (length self.now.increments.items) ends.now ≡ true }
        requires next { is_of_32_bits next ≡ true }
        ensures { (statements : List Resolved)
            → ArePlaces statements self.now → result ≡ meaning.onward statements ends.now next }
    {
        match ends {
            [] => place_of(next),
            [d, ..] => self.increments[*d],
        }
    }

    /// The place behind the DO `d`, which ends at the statement `terminal`, when it has no pass left (11.10.7).
    pub(crate) fn left(&self, statements: &[Shared<Resolved>], d: usize, terminal: usize) -> u32
        requires places { ArePlaces statements.now self.now }
        requires have { have_places statements.now ≡ true }
        requires terminal { terminal < length statements.now }
        ensures { meaning.IsLeftDone statements.now d terminal result }
    {
        let end = &statements[terminal];
        self.onward(round(&end.ends, d), end.next)
    }
}

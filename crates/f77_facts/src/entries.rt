//! What is known at the places where control may be.

ghost use Rattle.std.specs.Prelude.{◌≡◌, true};
ghost use Rattle.f77_facts.specs.{AreCovered, GrowsEntries};

use crate::facts::{Fact, is_empty, is_inside};
use crate::loops::{LoopFact, is_loops_inside};
use f77_code::Place;

/// What is known of slots and DOs where control is at this place. A place may have several entries.
#[derive(Drop)]
pub struct Entry {
    pub place: Place,
    pub facts: Vec<Fact>,
    pub loops: Vec<LoopFact>,
}

/// Some entry of the place allows all that these facts allow.
pub fn is_covered(entries: &[Entry], place: Place, facts: &[Fact], loops: &[LoopFact]) -> bool
    ensures { result ≡ true → AreCovered entries.now place facts.now loops.now }
{
    is_empty(facts)
        || entries.iter().any(|entry| {
            entry.place == place
                && is_inside(facts, &entry.facts)
                && is_loops_inside(loops, &entry.loops)
        })
}

/// Each of these entries is covered.
pub fn are_covered(entries: &[Entry], covered: &[Entry]) -> bool
    ensures { result ≡ true → GrowsEntries covered.now entries.now }
{
    covered.iter().all(|entry| is_covered(entries, entry.place, &entry.facts, &entry.loops))
}

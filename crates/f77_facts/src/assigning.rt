//! What is known after an assignment.

ghost use Rattle.std.specs.Prelude.{◌≡◌, ℕ, slice_set, Option, IfSome, IsSome};
ghost use Rattle.f77_facts.specs.Prelude.{Value, Cells};
ghost use Rattle.f77_facts.specs.{AreIn, SuitsFact, HasSlot};

use crate::facts::{Fact, hull_of, set};
use f77_terms::item_at;

/// So many slots from the first one on.
#[derive(Clone, Copy, Debug, PartialEq, Eq)]
pub struct Slots {
    pub first: usize,
    pub count: usize,
}

/// One of these slots is given what suits the fact. It is not told what is known then where they are several, and the
/// fact of one is of another kind.
pub fn assign(facts: &mut [Fact], slots: Slots, fact: Fact) -> Option<()>
    ensures known { IfSome result (λ _. (cells : Cells) (k : ℕ) (cell : Option Value) → AreIn facts.old cells
        → HasSlot slots k → SuitsFact fact cell → AreIn facts.new (slice_set cells k cell)) }
    ensures told { slots.count ≡ 1 → IsSome result }
{
    if slots.count == 1 {
        set(facts, slots.first, fact);
        return Some(());
    }
    for slot in slots.first..slots.first.saturating_add(slots.count).min(facts.len()) {
        let hull = hull_of(*item_at(facts, slot), fact)?;
        set(facts, slot, hull);
    }
    Some(())
}

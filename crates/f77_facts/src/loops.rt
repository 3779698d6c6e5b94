//! What is known of which DOs are active, and of what they have left.

ghost use Rattle.std.specs.Prelude.{◌≡◌, true, Option};
ghost use Rattle.f77_facts.specs.Prelude.{Turn, TurnList};
ghost use Rattle.f77_facts.specs.{SuitsTurn, AreLeft};

use f77_terms::{Range, is_within};

/// What is known of a DO, which goes by its statement.
#[derive(Clone, Copy, Debug, PartialEq, Eq)]
pub enum LoopFact {
    /// It is not active.
    Inactive,
    /// It is active, with so many passes to make, and such an incrementation parameter.
    Active { passes: Range, step: Range },
}

fn is_loop_within(a: LoopFact, b: LoopFact) -> bool
    ensures { result ≡ true → (turn : Option Turn) → SuitsTurn a turn → SuitsTurn b turn }
{
    match (a, b) {
        (LoopFact::Inactive, LoopFact::Inactive) => true,
        (
            LoopFact::Active { passes, step },
            LoopFact::Active {
                passes: count,
                step: by,
            },
        ) => is_within(passes, count) && is_within(step, by),
        _ => false,
    }
}

/// What suits the first facts suits the second.
pub fn is_loops_inside(inner: &[LoopFact], outer: &[LoopFact]) -> bool
    ensures { result ≡ true → (turns : TurnList) → AreLeft inner.now turns → AreLeft outer.now turns }
{
    inner.len() == outer.len() && inner.iter().zip(outer).all(|(a, b)| is_loop_within(*a, *b))
}

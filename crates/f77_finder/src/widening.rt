//! Joins what is known where control comes to a place with what is known of the place. Bounds move no further than they
//! must; or, where there are thresholds, to the next of these, and else to the end of the range.

use f77_facts::{Entry, Fact, LoopFact, numbers_of};
use f77_terms::{Range, hull, is_empty};
use f77_tree::Kind;

/// More passes than a DO may have, and so few that sums of such numbers are told still: what DOs have left is kept only
/// where it has a bound.
const MOST_PASSES: i64 = 1_099_511_627_776;

/// The old numbers or others, with those bounds at thresholds that are not the old ones, and else at these ends.
fn widened(old: Range, other: Range, thresholds: Option<&[i64]>, ends: Range) -> Range {
    let Range { mut low, mut high } = hull(old, other);
    if let (Some(thresholds), false) = (thresholds, is_empty(old)) {
        if low < old.low {
            let below = thresholds.iter().filter(|it| **it <= low).max();
            low = *below.unwrap_or(&ends.low);
        }
        if old.high < high {
            let above = thresholds.iter().filter(|it| **it >= high).min();
            high = *above.unwrap_or(&ends.high);
        }
    }
    Range { low, high }
}

/// The old fact or the other one, of the same slot.
fn joined_fact(old: Fact, other: Fact, thresholds: Option<&[i64]>) -> Fact {
    Fact {
        may_lack: old.may_lack || other.may_lack,
        range: widened(old.range, other.range, thresholds, numbers_of(old.kind)),
        ..old
    }
}

/// The old fact or the other one. Where just one of them says that the DO is active, the old one stands.
fn joined_loop(old: LoopFact, other: LoopFact, thresholds: Option<&[i64]>) -> LoopFact {
    let (
        LoopFact::Active { passes, step },
        LoopFact::Active {
            passes: count,
            step: by,
        },
    ) = (old, other)
    else {
        return old;
    };
    let ends = Range {
        low: count.low.min(1),
        high: count.high.max(MOST_PASSES),
    };
    LoopFact::Active {
        passes: widened(passes, count, thresholds.map(|_| [].as_slice()), ends),
        step: widened(step, by, thresholds, numbers_of(Kind::Integer)),
    }
}

/// The entry allows what it allowed and what the other one of its place allows.
pub(crate) fn join(entry: &mut Entry, other: &Entry, thresholds: Option<&[i64]>) {
    for (fact, other) in entry.facts.iter_mut().zip(&other.facts) {
        *fact = joined_fact(*fact, *other, thresholds);
    }
    for (fact, other) in entry.loops.iter_mut().zip(&other.loops) {
        *fact = joined_loop(*fact, *other, thresholds);
    }
}

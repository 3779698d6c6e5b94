//! What a path tells of terms: by the ranges of atoms, by samples, and by refutation. Where it does not decide which of
//! two numbers is less, or which item a number chooses, it may be split.

ghost use Rattle.std.specs.Prelude.{◌≡◌, ◌≤ℤ◌, pos, true, IfOk};
ghost use Rattle.f77_symbolic.specs.Prelude.{is_below, is_same, compared, joined, AreBelow, HasSign, Holds};
ghost use Rattle.f77_symbolic.specs.Prelude.{Valuation, sum_value};
ghost use Rattle.f77_symbolic.specs.code.{HasItem};

use crate::evaluator::Evaluator;
use crate::halt::Halt;
use f77_actions::{Connective, Relation};
use f77_terms::{Term, copy, is_ranged_off, refuted, sign_bounds};
use std::alloc::AllocError;
use std::cmp::Ordering;

/// So much work a question takes before a sample is sought that shows that the path does not tell it.
const FIRST_WORK: u64 = 30;

/// So much it takes at most.
const MOST_WORK: u64 = 1000;

impl Evaluator {
    /// Whether so much work shows that not all bounds are at most 0 where the path holds, and whether more may show it.
    fn refute(&self, most: u64, bounds: &[Term]) -> Result<(bool, bool), AllocError>
        ensures { IfOk result (λ found. found.0 ≡ true → (v : Valuation) → Holds v self.now.path
            → ¬ (AreBelow v bounds.now)) }
    {
        let mut work = most;
        let is_refuted = refuted(&mut work, &self.path, bounds)?;
        self.samples.spend(most.saturating_sub(work));
        Ok((is_refuted, work == 0))
    }

    /// Where the path holds, the term has not this sign. It is false too where that is not told.
    pub(crate) fn never_has(&self, term: &Term, sign: Ordering) -> Result<bool, AllocError>
        ensures { IfOk result (λ yes. yes ≡ true → (v : Valuation) → Holds v self.now.path
            → ¬ (HasSign sign (sum_value v term.now))) }
    {
        if is_ranged_off(&self.path, term, sign) {
            return Ok(true);
        }
        if self.samples.show(term, sign)? {
            return Ok(false);
        }
        let bounds = sign_bounds(term, sign)?;
        let (is_told, is_open) = self.refute(FIRST_WORK, &bounds)?;
        // A sample is sought where more work finds nothing, too: it answers questions to come.
        if is_told || self.find_sample(&bounds)? || !is_open {
            return Ok(is_told);
        }
        Ok(self.refute(MOST_WORK, &bounds)?.0)
    }

    /// Where the path holds, the term is 0. It is false too where that is not told.
    pub(crate) fn is_zero(&self, term: &Term) -> Result<bool, AllocError>
        ensures { IfOk result (λ yes. yes ≡ true → (v : Valuation) → Holds v self.now.path
            → sum_value v term.now ≡ pos 0) }
    {
        Ok(self.never_has(term, Ordering::Less)? && self.never_has(term, Ordering::Greater)?)
    }

    /// It is shown that the path holds nowhere. Where a sample is on it that is not asked.
    pub(crate) fn is_dead(&self) -> Result<bool, AllocError>
        ensures { IfOk result (λ yes. yes ≡ true → (v : Valuation) → ¬ (Holds v self.now.path)) }
    {
        if self.samples.are_any()? {
            return Ok(false);
        }
        Ok(self.refute(MOST_WORK, &[])?.0)
    }

    /// Whether the term is below 0.
    pub(crate) fn is_negative(&self, term: &Term) -> Result<bool, Halt>
        ensures { IfOk result (λ b. (v : Valuation) → Holds v self.now.path
            → is_below (sum_value v term.now) (pos 0) ≡ b) }
    {
        if self.never_has(&self.plus(1, term, 1)?, Ordering::Greater)? {
            return Ok(true);
        }
        if self.never_has(term, Ordering::Less)? {
            return Ok(false);
        }
        Err(Halt::Split(copy(term)?, Ordering::Less))
    }

    /// Whether the term is 0.
    pub(crate) fn is_nothing(&self, term: &Term) -> Result<bool, Halt>
        ensures { IfOk result (λ b. (v : Valuation) → Holds v self.now.path
            → is_same (sum_value v term.now) (pos 0) ≡ b) }
    {
        if self.never_has(term, Ordering::Equal)? {
            return Ok(false);
        }
        if self.is_zero(term)? {
            return Ok(true);
        }
        Err(Halt::Split(copy(term)?, Ordering::Equal))
    }

    /// Whether the numbers are so related.
    pub(crate) fn is_related(&self, relation: Relation, a: &Term, b: &Term) -> Result<bool, Halt>
        ensures { IfOk result (λ c. (v : Valuation) → Holds v self.now.path
            → compared relation (sum_value v a.now) (sum_value v b.now) ≡ c) }
    {
        match relation {
            Relation::Less => self.is_negative(&self.combination(1, a, -1, b)?),
            Relation::LessOrEqual => Ok(!self.is_negative(&self.combination(1, b, -1, a)?)?),
            Relation::Equal => self.is_nothing(&self.combination(1, a, -1, b)?),
            Relation::NotEqual => Ok(!self.is_nothing(&self.combination(1, a, -1, b)?)?),
            Relation::GreaterOrEqual => Ok(!self.is_negative(&self.combination(1, a, -1, b)?)?),
            Relation::Greater => self.is_negative(&self.combination(1, b, -1, a)?),
        }
    }

    /// The first number is at most the second. It is false too where the path does not decide it.
    pub(crate) fn is_at_most(&self, a: &Term, b: &Term) -> Result<bool, Halt>
        ensures { IfOk result (λ yes. yes ≡ true → (v : Valuation) → Holds v self.now.path
            → sum_value v a.now ≤ℤ sum_value v b.now) }
    {
        Ok(self.never_has(&self.combination(1, a, -1, b)?, Ordering::Greater)?)
    }

    /// The numbers are equal. It is false too where the path does not decide it.
    pub(crate) fn are_equal(&self, a: &Term, b: &Term) -> Result<bool, Halt>
        ensures { IfOk result (λ yes. yes ≡ true → (v : Valuation) → Holds v self.now.path
            → sum_value v b.now ≡ sum_value v a.now) }
    {
        Ok(self.is_zero(&self.combination(1, a, -1, b)?)?)
    }

    /// Which of so many items a number has. Both ends are tried first, so that most of a path is decided together.
    pub(crate) fn item_of(&self, number: &Term, count: usize) -> Result<Option<usize>, Halt>
        ensures { IfOk result (λ item. (v : Valuation) → Holds v self.now.path
            → HasItem item count (sum_value v number.now)) }
    {
        if self.is_negative(&self.plus(1, number, -1)?)? {
            return Ok(None);
        }
        if self.is_negative(&self.plus(-1, number, i64::try_from(count)?)?)? {
            return Ok(None);
        }
        for place in 0..count {
            if self.is_nothing(&self.plus(1, number, -1 - i64::try_from(place)?)?)? {
                return Ok(Some(place));
            }
        }
        Err(Halt::Unknown)
    }
}

/// Two truth values connected.
pub(crate) fn connected(connective: Connective, a: bool, b: bool) -> bool
    ensures { joined connective a b ≡ result }
{
    match connective {
        Connective::And => a && b,
        Connective::Or => a || b,
        Connective::Equivalent => a == b,
        Connective::NotEquivalent => a != b,
    }
}

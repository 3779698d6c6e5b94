//! What expressions mean, by terms.

ghost use Rattle.std.specs.Prelude.{◌∷◌, ◌+◌, ◌≤ℤ◌, ◌<ℤ◌, ◌≡◌, pos, [], Ok, None, IfOk};
ghost use Rattle.f77_actions.specs.Value as meaning;
ghost use Rattle.f77_actions.specs.Value.{element, given};
ghost use Rattle.f77_symbolic.specs.Prelude.{number_in, slot_in, truth_in, slot_behind, Valuation, sum_value};
ghost use Rattle.f77_symbolic.specs.code.{Extends, Always, Answers, Calculates};
ghost use Rattle.f77_symbolic.specs.code.{YieldsNumber, YieldsSlot, YieldsTruth};
ghost use Rattle.f77_symbolic.specs.{IsInside, slot_of, content_of};

use crate::asking::connected;
use crate::evaluator::Evaluator;
use crate::halt::Halt;
use crate::memory::{Location, Symbolic, Write, fixed};
use f77_actions::{Condition, Element, Number};
use f77_terms::{Term, constant_of, constant_term};
use f77_tree::Shared;
use std::alloc::Global;
use std::cmp::Ordering;

/// The location with this index, which is one of so many: a slot of its own where the index is a constant.
fn located(alloc: Global, first: usize, count: usize, index: Term) -> Result<Location, Halt>
    ensures { IfOk result
        (λ location. (v : Valuation) → pos 0 ≤ℤ sum_value v index → sum_value v index <ℤ pos count
        → IsInside v location × (slot_of v location ≡ slot_behind first (sum_value v index))) }
{
    match constant_of(&index) {
        Some(z) => {
            let behind = usize::try_from(z).unwrap_or(0);
            Ok(fixed(alloc, first.checked_add(behind).ok_or(Halt::Unknown)?))
        }
        None => Ok(Location {
            first,
            count,
            index,
        }),
    }
}

#[tactic(auto, using(crate::proofs::Extending::extending))]
impl Evaluator {
    /// The location of a reference.
    #[cycle(values)]
    pub(crate) fn location_of(
        &mut self,
        writes: &[Shared<Write>],
        e: &Element,
    ) -> Result<Location, Halt>
        ensures yields { IfOk result (λ location. YieldsSlot self.old self.new writes.now location
            (λ cells. slot_in cells e.now)) }
        ensures extends { Extends self.old.atoms self.new.atoms }
    {
        match e {
            Element::Variable(slot) => Ok(fixed(self.alloc, *slot)),
            Element::Vector {
                first,
                bound,
                subscript,
            } => {
                let number = self.number_of(writes, subscript)?;
                self.expect_within(1, &number, *bound)?;
                let index = self.plus(1, &number, -1)?;
                located(self.alloc, *first, *bound as usize, index)
            }
            Element::Matrix {
                first,
                rows,
                columns,
                row,
                column,
            } => {
                let row = self.number_of(writes, row)?;
                let column = self.number_of(writes, column)?;
                self.expect_within(1, &row, *rows)?;
                self.expect_within(1, &column, *columns)?;
                let height = i64::from(*rows);
                let both = self.combination(1, &row, height, &column)?;
                let index = self.plus(1, &both, -1 - height)?;
                located(
                    self.alloc,
                    *first,
                    *rows as usize * *columns as usize,
                    index,
                )
            }
        }
    }

    /// The number that a slot holds.
    pub(crate) fn whole(&self, value: Symbolic) -> Result<Term, Halt>
        ensures { IfOk result (λ term. Calculates self.now self.now term (λ v. meaning.whole (content_of v value))) }
    {
        match value {
            Symbolic::Number(term) => Ok(term),
            Symbolic::Truth(_) => Err(Halt::Unknown),
        }
    }

    /// The value of an INTEGER expression.
    #[cycle(values)]
    pub(crate) fn number_of(&mut self, writes: &[Shared<Write>], x: &Number) -> Result<Term, Halt>
        ensures yields { IfOk result (λ term. YieldsNumber self.old self.new writes.now term
            (λ cells. number_in cells x.now)) }
        ensures extends { Extends self.old.atoms self.new.atoms }
    {
        match x {
            Number::Constant(z) => Ok(constant_term(self.alloc, i64::from(*z))),
            Number::TooLarge => Err(Halt::Unknown),
            Number::Element(e) => {
                let location = self.location_of(writes, e)?;
                let value = self.read(writes, &location)?;
                self.whole(value)
            }
            Number::Negated(operand) => {
                let a = self.number_of(writes, operand)?;
                let negative = self.plus(-1, &a, 0)?;
                self.ranged(negative)
            }
            Number::Absolute(operand) => {
                let a = self.number_of(writes, operand)?;
                let size = self.size(&a)?;
                self.ranged(size)
            }
            Number::ZeroPush(operand) => {
                let a = self.number_of(writes, operand)?;
                self.expect_not(&a, Ordering::Equal)?;
                Ok(a)
            }
            Number::Binary(operation, left, right) => {
                let a = self.number_of(writes, left)?;
                let b = self.number_of(writes, right)?;
                self.calculate(*operation, &a, &b)
            }
        }
    }

    /// The truth value that a slot holds.
    fn logic(&self, value: Symbolic) -> Result<bool, Halt>
        ensures { IfOk result (λ b. Always self.now self.now (λ start v. Answers v self.now self.now
            (meaning.logic (content_of v value)) (λ c. b ≡ c))) }
    {
        match value {
            Symbolic::Truth(term) => Ok(!self.is_nothing(&term)?),
            Symbolic::Number(_) => Err(Halt::Unknown),
        }
    }

    /// The value of a LOGICAL expression.
    pub(crate) fn truth_of(&mut self, writes: &[Shared<Write>], c: &Condition) -> Result<bool, Halt>
        ensures yields { IfOk result (λ b. YieldsTruth self.old self.new writes.now b
            (λ cells. truth_in cells c.now)) }
        ensures extends { Extends self.old.atoms self.new.atoms }
    {
        match c {
            Condition::Constant(b) => Ok(*b),
            Condition::Element(e) => {
                let location = self.location_of(writes, e)?;
                let value = self.read(writes, &location)?;
                self.logic(value)
            }
            Condition::Not(operand) => Ok(!self.truth_of(writes, operand)?),
            Condition::Related(relation, left, right) => {
                let a = self.number_of(writes, left)?;
                let b = self.number_of(writes, right)?;
                self.is_related(*relation, &a, &b)
            }
            Condition::Connected(connective, left, right) => {
                let a = self.truth_of(writes, left)?;
                let b = self.truth_of(writes, right)?;
                Ok(connected(*connective, a, b))
            }
        }
    }
}

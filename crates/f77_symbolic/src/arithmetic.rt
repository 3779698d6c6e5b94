//! Operations on numbers.

ghost use Rattle.std.specs.Prelude.{◌≡◌, ◌≢◌, ◌*ℤ◌, ◌≤ℤ◌, ℕ, pos, IfOk, IfSome};
ghost use Rattle.f77_actions.specs.Number as exact;
ghost use Rattle.f77_symbolic.specs.Prelude.{calculated, Valuation, sum_value};
ghost use Rattle.f77_symbolic.specs.code.{Extends, Always, AlwaysTells, Calculates, IsDivision, StaysOn};

use crate::evaluator::Evaluator;
use crate::halt::Halt;
use f77_actions::Arithmetic;
use f77_actions::number::power;
use f77_terms::{Function, Term, atom_term, constant_of, constant_term, copy, know_division};
use std::alloc::Global;
use std::cmp::Ordering;

/// A power of more factors is given up.
const MOST_FACTORS: i64 = 8;

/// The quotient and the remainder of a constant and another.
fn constant_division(alloc: Global, a: i64, b: i64) -> Option<(Term, Term)>
    ensures { IfSome result (λ division. (v : Valuation) → IsDivision v division a b) }
{
    let quotient = a.checked_div(b)?;
    let remainder = a.checked_rem(b)?;
    Some((
        constant_term(alloc, quotient),
        constant_term(alloc, remainder),
    ))
}

#[tactic(auto, using(crate::proofs::Extending::extending))]
impl Evaluator {
    /// The term, if INTEGER holds it.
    pub(crate) fn ranged(&mut self, term: Term) -> Result<Term, Halt>
        ensures calculates { IfOk result (λ value. Calculates self.old self.new value
            (λ v. exact.in_range (sum_value v term))) }
        ensures extends { Extends self.old.atoms self.new.atoms }
    {
        self.expect_within(-2147483648, &term, 2147483647)?;
        Ok(term)
    }

    /// MIN0 of two numbers: one of them, or an atom.
    fn lesser(&mut self, a: &Term, b: &Term) -> Result<Term, Halt>
        ensures calculates { IfOk result (λ value. Calculates self.old self.new value
            (λ v. calculated Arithmetic.Least (sum_value v a.now) (sum_value v b.now))) }
        ensures extends { Extends self.old.atoms self.new.atoms }
    {
        if self.is_at_most(a, b)? {
            return Ok(copy(a)?);
        }
        if self.is_at_most(b, a)? {
            return Ok(copy(b)?);
        }
        let minimum = self.function_of(Function::Minimum, a, b)?;
        Ok(atom_term(self.alloc, minimum)?)
    }

    /// MAX0 of two numbers: the negative of MIN0 of their negatives.
    fn greater(&mut self, a: &Term, b: &Term) -> Result<Term, Halt>
        ensures calculates { IfOk result (λ value. Calculates self.old self.new value
            (λ v. calculated Arithmetic.Greatest (sum_value v a.now) (sum_value v b.now))) }
        ensures extends { Extends self.old.atoms self.new.atoms }
    {
        let first = self.plus(-1, a, 0)?;
        let second = self.plus(-1, b, 0)?;
        let least = self.lesser(&first, &second)?;
        self.plus(-1, &least, 0)
    }

    /// The size of a number: the greater of it and its negative, of which the one without a sign comes first.
    pub(crate) fn size(&mut self, a: &Term) -> Result<Term, Halt>
        ensures tells { IfOk result (λ size. AlwaysTells self.old self.new
            (λ start v. sum_value v size ≡ exact.without_sign (sum_value v a.now))) }
        ensures extends { Extends self.old.atoms self.new.atoms }
    {
        let negative = self.plus(-1, a, 0)?;
        let is_turned = a.parts.first().map_or(a.constant, |part| part.factor) < 0;
        if is_turned {
            self.greater(&negative, a)
        } else {
            self.greater(a, &negative)
        }
    }

    /// The quotient and the remainder, if they need no atom.
    fn plain_division(&self, a: &Term, b: &Term) -> Result<Option<(Term, Term)>, Halt>
        ensures { IfOk result (λ made. IfSome made (λ division. (v : Valuation)
            → IsDivision v division (sum_value v a.now) (sum_value v b.now))) }
    {
        let Some(divisor) = constant_of(b) else {
            return Ok(None);
        };
        if let Some(dividend) = constant_of(a) {
            return Ok(constant_division(self.alloc, dividend, divisor));
        }
        if divisor != 1 && divisor != -1 {
            return Ok(None);
        }
        Ok(Some((self.plus(divisor, a, 0)?, constant_term(self.alloc, 0))))
    }

    /// The quotient and the remainder. Where they are atoms, the path comes to know what follows of division.
    pub(crate) fn divided(&mut self, a: &Term, b: &Term) -> Result<(Term, Term), Halt>
        ensures divides { IfOk result (λ division. Always self.old self.new (λ start v. sum_value v b.now ≢ pos 0
            → StaysOn v self.old self.new × IsDivision v division (sum_value v a.now) (sum_value v b.now))) }
        ensures extends { Extends self.old.atoms self.new.atoms }
    {
        if let Some(plain) = self.plain_division(a, b)? {
            return Ok(plain);
        }
        let quotient = self.function_of(Function::Quotient, a, b)?;
        let remainder = self.function_of(Function::Remainder, a, b)?;
        let quotient = atom_term(self.alloc, quotient)?;
        let product = self.multiplied(&quotient, b)?;
        know_division(&mut self.path, a, &product, remainder)?;
        Ok((quotient, atom_term(self.alloc, remainder)?))
    }

    /// The quotient, truncated toward zero.
    fn quotient(&mut self, a: &Term, b: &Term) -> Result<Term, Halt>
        ensures calculates { IfOk result (λ value. Calculates self.old self.new value
            (λ v. exact.quotient (sum_value v a.now) (sum_value v b.now))) }
        ensures extends { Extends self.old.atoms self.new.atoms }
    {
        self.expect_not(b, Ordering::Equal)?;
        let (quotient, _) = self.divided(a, b)?;
        self.ranged(quotient)
    }

    /// MOD: what a division leaves, which goes by the size of the divisor.
    fn modulus(&mut self, a: &Term, b: &Term) -> Result<Term, Halt>
        ensures calculates { IfOk result (λ value. Calculates self.old self.new value
            (λ v. exact.modulus (sum_value v a.now) (sum_value v b.now))) }
        ensures extends { Extends self.old.atoms self.new.atoms }
    {
        self.expect_not(b, Ordering::Equal)?;
        let divisor = self.size(b)?;
        let (_, remainder) = self.divided(a, &divisor)?;
        self.ranged(remainder)
    }

    /// The product of two numbers: an atom where both are unknown.
    fn multiplied(&mut self, a: &Term, b: &Term) -> Result<Term, Halt>
        ensures tells { IfOk result (λ term. AlwaysTells self.old self.new
            (λ start v. sum_value v term ≡ sum_value v a.now *ℤ sum_value v b.now)) }
        ensures extends { Extends self.old.atoms self.new.atoms }
    {
        if let Some(m) = constant_of(a) {
            return self.plus(m, b, 0);
        }
        if let Some(m) = constant_of(b) {
            return self.plus(m, a, 0);
        }
        let product = self.function_of(Function::Product, a, b)?;
        Ok(atom_term(self.alloc, product)?)
    }

    /// The power of two numbers that are known.
    fn known_power(&self, base: i64, exponent: i64) -> Result<Term, Halt>
        ensures { IfOk result (λ term. Calculates self.now self.now term (λ v. exact.power base exponent)) }
    {
        match power(i32::try_from(base)?, i32::try_from(exponent)?) {
            Ok(result) => Ok(constant_term(self.alloc, i64::from(result))),
            Err(_) => Err(Halt::Unknown),
        }
    }

    /// The product of so many factors, each of them this one.
    fn repeated(&mut self, a: &Term, factors: i64) -> Result<Term, Halt>
        ensures tells { IfOk result (λ term. pos 1 ≤ℤ factors → (n : ℕ) → factors ≡ pos n
            → AlwaysTells self.old self.new
            (λ start v. sum_value v term ≡ exact.exact_power (sum_value v a.now) n)) }
        ensures extends { Extends self.old.atoms self.new.atoms }
    {
        let mut term = copy(a)?;
        for _ in 1..factors {
            term = self.multiplied(a, &term)?;
        }
        Ok(term)
    }

    /// The power of two numbers.
    pub(crate) fn power_of(&mut self, a: &Term, b: &Term) -> Result<Term, Halt>
        ensures calculates { IfOk result (λ term. Calculates self.old self.new term
            (λ v. exact.power (sum_value v a.now) (sum_value v b.now))) }
        ensures extends { Extends self.old.atoms self.new.atoms }
    {
        let exponent = constant_of(b).ok_or(Halt::Unknown)?;
        if let Some(base) = constant_of(a) {
            return self.known_power(base, exponent);
        }
        if exponent < 1 || exponent > MOST_FACTORS {
            return Err(Halt::Unknown);
        }
        let term = self.repeated(a, exponent)?;
        self.ranged(term)
    }

    /// What an operation makes of two numbers.
    pub(crate) fn calculate(
        &mut self,
        operation: Arithmetic,
        a: &Term,
        b: &Term,
    ) -> Result<Term, Halt>
        ensures calculates { IfOk result (λ value. Calculates self.old self.new value
            (λ v. calculated operation (sum_value v a.now) (sum_value v b.now))) }
        ensures extends { Extends self.old.atoms self.new.atoms }
    {
        match operation {
            Arithmetic::Add => {
                let exact = self.combination(1, a, 1, b)?;
                self.ranged(exact)
            }
            Arithmetic::Subtract => {
                let exact = self.combination(1, a, -1, b)?;
                self.ranged(exact)
            }
            Arithmetic::Multiply => {
                let exact = self.multiplied(a, b)?;
                self.ranged(exact)
            }
            Arithmetic::Divide => self.quotient(a, b),
            Arithmetic::Power => self.power_of(a, b),
            Arithmetic::Modulus => self.modulus(a, b),
            Arithmetic::Least => self.lesser(a, b),
            Arithmetic::Greatest => self.greater(a, b),
        }
    }
}

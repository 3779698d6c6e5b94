//! Bounds: terms that are at most 0.

ghost use Rattle.std.specs.Prelude.{◌≡◌, ◌+ℤ◌, ◌*ℤ◌, ◌≤ℤ◌, ℤ, pos, true, IfOk};
ghost use Rattle.f77_terms.specs.{Valuation, sum_value, IsBelow, AreBelow, HasSign};

use crate::numbers::{ceiling, divisor_of};
use crate::terms::{
    Part, Term, add_multiple, combined, constant_of, constant_term, copied_terms, copy,
    is_same_term,
};
use std::alloc::{AllocError, Global};
use std::cmp::Ordering;

/// The parts, with the quotient of each factor.
fn divided_parts(parts: &Vec<Part>, g: i64) -> Result<Vec<Part>, AllocError> {
    let mut divided = parts.clone()?;
    for part in divided.iter_mut() {
        part.factor = part.factor.checked_div(g).unwrap_or(0);
    }
    Ok(divided)
}

/// The bound without the common divisor of its factors, which is sharper where it does not divide the constant.
fn tightened(bound: Term) -> Result<Term, AllocError>
    ensures { IfOk result (λ tight. (v : Valuation) → IsBelow v bound → IsBelow v tight) }
{
    let g = divisor_of(&bound.parts);
    if g == 1 {
        return Ok(bound);
    }
    let parts = divided_parts(&bound.parts, g)?;
    let mut tight = Term { constant: 0, parts };
    let mut whole = constant_term(*bound.parts.allocator(), bound.constant);
    if !add_multiple(&mut whole, g, &tight)? || !is_same_term(&whole, &bound) {
        return Ok(bound);
    }
    tight.constant = ceiling(bound.constant, g);
    Ok(tight)
}

/// Adds a bound, in place of a weaker one with the same parts.
pub(crate) fn add_tight(bounds: &mut Vec<Term>, bound: Term) -> Result<(), AllocError>
    ensures { IfOk result (λ _. (v : Valuation) → AreBelow v bounds.old.items → IsBelow v bound
        → AreBelow v bounds.new.items) }
{
    let tight = tightened(bound)?;
    match bounds.iter().position(|other| other.parts == tight.parts) {
        Some(place) if bounds[place].constant >= tight.constant => {}
        Some(place) => bounds[place] = tight,
        None => bounds.push(tight)?,
    }
    Ok(())
}

/// The bounds of two cases.
pub(crate) fn joint_bounds(alloc: Global, a: &[Term], b: &[Term]) -> Result<Vec<Term>, AllocError>
    ensures { IfOk result
        (λ bounds. (v : Valuation) → AreBelow v a.now → AreBelow v b.now → AreBelow v bounds.items) }
{
    let mut bounds = copied_terms(alloc, a)?;
    for bound in b {
        add_tight(&mut bounds, copy(bound)?)?;
    }
    Ok(bounds)
}

/// Adds that a term, m times, and a constant are at most 0, unless a number gets too large.
pub(crate) fn add_bound(
    bounds: &mut Vec<Term>,
    m: i64,
    term: &Term,
    constant: i64,
) -> Result<(), AllocError>
    ensures { IfOk result (λ _. (v : Valuation) → AreBelow v bounds.old.items
        → (constant +ℤ m *ℤ sum_value v term.now) ≤ℤ pos 0 → AreBelow v bounds.new.items) }
{
    let mut bound = constant_term(*bounds.allocator(), constant);
    if !add_multiple(&mut bound, m, term)? {
        return Ok(());
    }
    add_tight(bounds, bound)
}

/// Adds that a term, m times, and a constant are at most another term, unless a number gets too large.
pub(crate) fn add_order(
    bounds: &mut Vec<Term>,
    m: i64,
    a: &Term,
    constant: i64,
    b: &Term,
) -> Result<(), AllocError>
    ensures { IfOk result (λ _. (v : Valuation) → AreBelow v bounds.old.items
        → (constant +ℤ m *ℤ sum_value v a.now) ≤ℤ sum_value v b.now → AreBelow v bounds.new.items) }
{
    match combined(m, a, -1, b)? {
        Some(both) => add_bound(bounds, 1, &both, constant),
        None => Ok(()),
    }
}

/// The first term, m times, and the second, n times, are at most 0.
pub(crate) fn both_below(m: i64, a: &Term, n: i64, b: &Term) -> Result<Vec<Term>, AllocError>
    ensures { IfOk result (λ case. (v : Valuation)
        → (pos 0 +ℤ m *ℤ sum_value v a.now) ≤ℤ pos 0 → (pos 0 +ℤ n *ℤ sum_value v b.now) ≤ℤ pos 0
        → AreBelow v case.items) }
{
    let mut bounds = Vec::new(*a.parts.allocator());
    add_bound(&mut bounds, m, a, 0)?;
    add_bound(&mut bounds, n, b, 0)?;
    Ok(bounds)
}

/// What follows where a term has this sign.
pub fn sign_bounds(term: &Term, sign: Ordering) -> Result<Vec<Term>, AllocError>
    ensures { IfOk result
        (λ bounds. (v : Valuation) → HasSign sign (sum_value v term.now) → AreBelow v bounds.items) }
{
    let mut bounds = Vec::new(*term.parts.allocator());
    match sign {
        Ordering::Less => add_bound(&mut bounds, 1, term, 1)?,
        Ordering::Equal => return both_below(1, term, -1, term),
        Ordering::Greater => add_bound(&mut bounds, -1, term, 1)?,
    }
    Ok(bounds)
}

/// A constant above 0 would be at most 0.
pub fn is_refuted(bounds: &[Term]) -> bool
    ensures { result ≡ true → (v : Valuation) → ¬ (AreBelow v bounds.now) }
{
    bounds.iter().any(|bound| constant_of(bound).is_some_and(|constant| constant > 0))
}

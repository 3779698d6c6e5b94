//! Terms: linear polynomials over atoms.

ghost use Rattle.std.specs.Prelude.{◌≡◌, ◌≤◌, ◌+ℤ◌, ◌*ℤ◌, ℤ, true, length, vec_len, All, IfOk, IfSome};
ghost use Rattle.f77_terms.specs.{Valuation, parts_value, part_value, sum_value};
ghost use Rattle.f77_terms.specs.{IsWorth, AddsIfDone, AreBelow, IsUnequal};

use crate::items::item_at;
use crate::numbers::plus_multiple;
use std::alloc::{AllocError, Global};

/// A longer term is given up.
const MOST_PARTS: usize = 40;

/// An atom, so many times.
#[derive(Clone, Copy, Debug, PartialEq, Eq)]
pub struct Part {
    pub factor: i64,
    pub atom: usize,
}

/// A constant and parts: in rising order of their atoms, which differ, and with factors that are not 0.
#[derive(Clone, Debug, Drop, PartialEq, Eq)]
pub struct Term {
    pub constant: i64,
    pub parts: Vec<Part>,
}

/// The term that is this constant.
pub fn constant_term(alloc: Global, constant: i64) -> Term
    ensures { (v : Valuation) → sum_value v result ≡ constant }
{
    let parts = Vec::new(alloc);
    Term { constant, parts }
}

/// The term that is an atom.
pub fn atom_term(alloc: Global, atom: usize) -> Result<Term, AllocError>
    ensures { IfOk result (λ term. (v : Valuation) → sum_value v term ≡ v atom) }
{
    let factor = 1;
    let parts = vec![in alloc; Part { factor, atom }]?;
    Ok(Term { constant: 0, parts })
}

/// The same term in memory of its own.
pub fn copy(term: &Term) -> Result<Term, AllocError>
    ensures value { IfOk result (λ copied. (v : Valuation) → sum_value v copied ≡ sum_value v term.now) }
    ensures parts { IfOk result (λ copied. copied.parts.items ≡ term.now.parts.items) }
{
    let constant = term.constant;
    let parts = Vec::from_slice(*term.parts.allocator(), &term.parts)?;
    Ok(Term { constant, parts })
}

/// The terms in memory of their own.
pub(crate) fn copied_terms(alloc: Global, terms: &[Term]) -> Result<Vec<Term>, AllocError>
    ensures below { IfOk result (λ copied. (v : Valuation) → AreBelow v terms.now → AreBelow v copied.items) }
    ensures unequal { IfOk result (λ copied. (v : Valuation) → All (IsUnequal v) terms.now
        → All (IsUnequal v) copied.items) }
{
    terms.to_vec(alloc)
}

/// The number of a constant term.
pub fn constant_of(term: &Term) -> Option<i64>
    ensures { IfSome result (λ z. (v : Valuation) → sum_value v term.now ≡ z) }
{
    (term.parts.len() == 0).then_some(term.constant)
}

/// The place of the part with an atom, or where it is to stand if there is none.
fn place_of(parts: &[Part], atom: usize) -> usize
    ensures { result ≤ length parts.now }
{
    parts.partition_point(|part| part.atom < atom)
}

/// How many times the term has an atom.
pub fn factor_of(term: &Term, atom: usize) -> i64 {
    match term.parts.get(place_of(&term.parts, atom)) {
        Some(part) if part.atom == atom => part.factor,
        _ => 0,
    }
}

/// Takes out the part with an atom, if it stands at this place. It tells how many times the atom was there.
fn taken_out(parts: &mut Vec<Part>, place: usize, atom: usize) -> i64
    requires { place ≤ vec_len parts.old }
    ensures value { (v : Valuation)
        → parts_value v parts.old.items ≡ parts_value v parts.new.items +ℤ result *ℤ v atom }
    ensures place { place ≤ vec_len parts.new }
{
    if place < parts.len() && item_at(parts, place).atom == atom {
        return parts.remove(place).factor;
    }
    0
}

/// Adds a part, so many times, unless a factor gets too large.
fn add_part(term: &mut Term, m: i64, part: Part) -> Result<bool, AllocError>
    ensures { IfOk result (λ done. AddsIfDone term.old term.new done (λ v. m *ℤ part_value v part)) }
{
    let place = place_of(&term.parts, part.atom);
    let before = taken_out(&mut term.parts, place, part.atom);
    let Some(factor) = plus_multiple(before, m, part.factor) else {
        return Ok(false);
    };
    if factor != 0 {
        term.parts.insert(place, Part { factor, ..part })?;
    }
    Ok(true)
}

/// Adds another term, so many times, unless a number gets too large.
pub fn add_multiple(term: &mut Term, m: i64, addend: &Term) -> Result<bool, AllocError>
    ensures { IfOk result (λ done. AddsIfDone term.old term.new done (λ v. m *ℤ sum_value v addend.now)) }
{
    let Some(constant) = plus_multiple(term.constant, m, addend.constant) else {
        return Ok(false);
    };
    term.constant = constant;
    for part in &addend.parts {
        if !add_part(term, m, *part)? {
            return Ok(false);
        }
    }
    Ok(true)
}

/// The first term, m times, and the second, n times, unless a number gets too large, or the term too long.
pub fn combined(m: i64, a: &Term, n: i64, b: &Term) -> Result<Option<Term>, AllocError>
    ensures { IfOk result (λ made. IsWorth made (λ v. m *ℤ sum_value v a.now +ℤ n *ℤ sum_value v b.now)) }
{
    let mut term = constant_term(*a.parts.allocator(), 0);
    if !add_multiple(&mut term, m, a)?
        || !add_multiple(&mut term, n, b)?
        || term.parts.len() > MOST_PARTS
    {
        return Ok(None);
    }
    Ok(Some(term))
}

/// They are the same term.
pub fn is_same_term(a: &Term, b: &Term) -> bool
    ensures { result ≡ true → (v : Valuation) → sum_value v a.now ≡ sum_value v b.now }
{
    a == b
}

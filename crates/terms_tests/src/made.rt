//! Terms for tests, and questions on paths.

use f77_terms::terms::add_multiple;
use f77_terms::{Path, Term, atom_term, constant_term, refuted, sign_bounds};
use std::alloc::{AllocError, Global};
use std::cmp::Ordering;

pub(crate) const X: usize = 0;

pub(crate) const Y: usize = 1;

pub(crate) const Z: usize = 2;

/// A constant and atoms, each so many times.
pub(crate) fn made(
    alloc: Global,
    constant: i64,
    parts: &[(i64, usize)],
) -> Result<Term, AllocError> {
    let mut term = constant_term(alloc, constant);
    for (factor, atom) in parts {
        let next = atom_term(alloc, *atom)?;
        add_multiple(&mut term, *factor, &next)?;
    }
    Ok(term)
}

/// Where the path holds, not all of the terms are at most 0.
pub(crate) fn is_refuted(path: &Path, extra: &[Term]) -> Result<bool, AllocError> {
    let mut work = 2000;
    refuted(&mut work, path, extra)
}

/// Where the path holds, the term has not this sign.
pub(crate) fn never_has(path: &Path, term: &Term, sign: Ordering) -> Result<bool, AllocError> {
    is_refuted(path, &sign_bounds(term, sign)?)
}

/// Where the path holds, the term is at most 0.
pub(crate) fn is_below(path: &Path, term: &Term) -> Result<bool, AllocError> {
    never_has(path, term, Ordering::Greater)
}

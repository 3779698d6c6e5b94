//! What a path comes to know of atoms that are functions of terms.

ghost use Rattle.std.specs.Prelude.{◌≡◌, ◌+ℤ◌, ◌*ℤ◌, ◌≤ℤ◌, ℤ, pos, true, int_div, int_rem, IfOk};
ghost use Rattle.std.specs.Int.{int_min};
ghost use Rattle.f77_terms.specs.{AreBelow, HasSign, Holds, IsDefined, Valuation, function_value, sum_value};

use crate::atoms::Function;
use crate::bounds::{add_order, both_below};
use crate::functions::function_range;
use crate::paths::{Path, add_choice, add_equal, add_range, settle};
use crate::ranges::{may_have, term_range};
use crate::terms::{Term, add_multiple, atom_term, combined, copy, factor_of, is_same_term};
use std::alloc::AllocError;
use std::cmp::Ordering;

/// By the ranges of its atoms alone, the term has not this sign.
pub fn is_ranged_off(path: &Path, term: &Term, sign: Ordering) -> bool
    ensures { result ≡ true → (v : Valuation) → Holds v path.now → ¬ (HasSign sign (sum_value v term.now)) }
{
    match term_range(&path.known, term) {
        Some(range) => !may_have(range, sign),
        None => false,
    }
}

/// A choice of the path is of the atom: what is known of a quotient, or of the lesser of two numbers.
fn has_choice_of(path: &Path, atom: usize) -> bool {
    path.choices.iter().any(|choice| {
        let mut bounds = choice.first.iter().chain(&choice.second);
        bounds.any(|bound| factor_of(bound, atom) != 0)
    })
}

/// Adds what is known of a division, once: the remainder and the product of quotient and divisor are the dividend, of
/// which the remainder has the sign.
pub fn know_division(
    path: &mut Path,
    dividend: &Term,
    product: &Term,
    remainder: usize,
) -> Result<(), AllocError>
    ensures { IfOk result (λ _. (v : Valuation) (divisor : ℤ) → Holds v path.old
        → sum_value v product.now ≡ int_div (sum_value v dividend.now) divisor *ℤ divisor
        → v remainder ≡ int_rem (sum_value v dividend.now) divisor → Holds v path.new) }
{
    if has_choice_of(path, remainder) {
        return Ok(());
    }
    let rest = atom_term(*product.parts.allocator(), remainder)?;
    let above = both_below(-1, dividend, -1, &rest)?;
    add_choice(path, above, both_below(1, dividend, 1, &rest)?)?;
    let mut whole = copy(product)?;
    if !add_multiple(&mut whole, 1, &rest)? || !add_multiple(&mut whole, -1, dividend)? {
        return Ok(());
    }
    add_equal(path, &whole)
}

/// Narrows the ranges of atoms, and adds that of an atom that is this function of two terms.
fn know_range(
    path: &mut Path,
    function: Function,
    a: &Term,
    b: &Term,
    atom: usize,
) -> Result<(), AllocError>
    ensures { IfOk result (λ _. (v : Valuation) → Holds v path.old → IsDefined function (sum_value v b.now)
        → v atom ≡ function_value function (sum_value v a.now) (sum_value v b.now) → Holds v path.new) }
{
    settle(path);
    match function_range(&path.known, function, a, b) {
        Some(range) => add_range(path, atom, range),
        None => Ok(()),
    }
}

/// Adds what is known of the square of a term: it is above its tangents at 1 and -1.
fn know_square(path: &mut Path, root: &Term, square: usize) -> Result<(), AllocError>
    ensures { IfOk result (λ _. (v : Valuation) → Holds v path.old
        → v square ≡ sum_value v root.now *ℤ sum_value v root.now → Holds v path.new) }
{
    let square = atom_term(*root.parts.allocator(), square)?;
    add_order(&mut path.below, 2, root, -1, &square)?;
    add_order(&mut path.below, -2, root, -1, &square)
}

/// The case where a term is at most another.
fn order_case(a: &Term, b: &Term) -> Result<Vec<Term>, AllocError>
    ensures { IfOk result (λ case. (v : Valuation) → (pos 0 +ℤ pos 1 *ℤ sum_value v a.now) ≤ℤ sum_value v b.now
        → AreBelow v case.items) }
{
    let mut bounds = Vec::new(*a.parts.allocator());
    add_order(&mut bounds, 1, a, 0, b)?;
    Ok(bounds)
}

/// Adds what is known of the lesser of two terms, once: it is at most half of their sum, where that is constant.
fn know_minimum(path: &mut Path, a: &Term, b: &Term, minimum: usize) -> Result<(), AllocError>
    ensures { IfOk result (λ _. (v : Valuation) → Holds v path.old
        → v minimum ≡ int_min (sum_value v a.now) (sum_value v b.now) → Holds v path.new) }
{
    if has_choice_of(path, minimum) {
        return Ok(());
    }
    let least = atom_term(*a.parts.allocator(), minimum)?;
    let first = order_case(a, &least)?;
    add_choice(path, first, order_case(b, &least)?)?;
    add_order(&mut path.below, 1, &least, 0, a)?;
    add_order(&mut path.below, 1, &least, 0, b)?;
    if let Some(both) = combined(1, a, 1, b)? {
        if both.parts.is_empty() {
            add_order(&mut path.below, 2, &least, 0, &both)?;
            settle(path);
        }
    }
    Ok(())
}

/// Narrows the ranges of atoms, and adds what is known of an atom that is this function of two terms: its range, that a
/// square is above two of its tangents, and, once, that one of two terms is the lesser.
pub fn know_function(
    path: &mut Path,
    function: Function,
    a: &Term,
    b: &Term,
    atom: usize,
) -> Result<(), AllocError>
    ensures { IfOk result (λ _. (v : Valuation) → Holds v path.old → IsDefined function (sum_value v b.now)
        → v atom ≡ function_value function (sum_value v a.now) (sum_value v b.now) → Holds v path.new) }
{
    know_range(path, function, a, b, atom)?;
    match function {
        Function::Product if is_same_term(a, b) => know_square(path, a, atom),
        Function::Minimum => know_minimum(path, a, b, atom),
        _ => Ok(()),
    }
}

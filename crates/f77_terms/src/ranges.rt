//! Ranges of atoms and of terms.

ghost use Rattle.std.specs.Prelude.{◌≡◌, ◌≢◌, ◌<◌, ◌+ℤ◌, ◌*ℤ◌, ◌≤ℤ◌, ℤ, pos, false, true, length, vec_len};
ghost use Rattle.std.specs.Prelude.{slice_get, Some, IfSome, All};
ghost use Rattle.f77_terms.specs.{Valuation, parts_value, sum_value};
ghost use Rattle.f77_terms.specs.{IsBelow, AreBelow, HasSign, IsIn, AreKnown, IsUnequal};

use crate::items::item_at;
use crate::numbers::ceiling;
use crate::terms::{Part, Term};
use std::cmp::Ordering;

/// The numbers from the low to the high one.
#[derive(Clone, Copy, Debug, PartialEq, Eq)]
pub struct Range {
    pub low: i64,
    pub high: i64,
}

/// The range of an atom.
pub fn atom_range(known: &[Option<Range>], atom: usize) -> Option<Range>
    ensures within { IfSome result (λ range. (v : Valuation) → AreKnown v known.now → IsIn range (v atom)) }
    ensures told { atom < length known.now → slice_get known.now atom ≡ Some result }
{
    *known.get(atom)?
}

/// The range of a number, m times.
pub(crate) fn multiple_range(range: Range, m: i64) -> Option<Range>
    ensures { IfSome result (λ r. (x : ℤ) → IsIn range x → IsIn r (m *ℤ x)) }
{
    let low = m.checked_mul(range.low)?;
    let high = m.checked_mul(range.high)?;
    let (low, high) = if m < 0 { (high, low) } else { (low, high) };
    Some(Range { low, high })
}

/// A number of the range may have this sign.
pub fn may_have(range: Range, sign: Ordering) -> bool
    ensures { result ≡ false → (x : ℤ) → IsIn range x → ¬ (HasSign sign x) }
{
    match sign {
        Ordering::Less => range.low < 0,
        Ordering::Equal => range.low <= 0 && 0 <= range.high,
        Ordering::Greater => 0 < range.high,
    }
}

/// No number is in the range.
pub fn is_empty(range: Range) -> bool
    ensures { result ≡ true → (x : ℤ) → ¬ (IsIn range x) }
{
    range.high < range.low
}

/// Each number of the first range is in the second.
pub fn is_within(a: Range, b: Range) -> bool
    ensures { result ≡ true → (x : ℤ) → IsIn a x → IsIn b x }
{
    is_empty(a) || b.low <= a.low && a.high <= b.high
}

/// The least range that has both.
pub fn hull(a: Range, b: Range) -> Range
    ensures first { (x : ℤ) → IsIn a x → IsIn result x }
    ensures second { (x : ℤ) → IsIn b x → IsIn result x }
{
    if is_empty(a) {
        return b;
    }
    if is_empty(b) {
        return a;
    }
    Range {
        low: if a.low < b.low { a.low } else { b.low },
        high: if a.high < b.high { b.high } else { a.high },
    }
}

/// The numbers that are in both.
pub fn common(a: Range, b: Range) -> Range
    ensures { (x : ℤ) → IsIn a x → IsIn b x → IsIn result x }
{
    Range {
        low: if a.low < b.low { b.low } else { a.low },
        high: if a.high < b.high { a.high } else { b.high },
    }
}

/// The range of a number and the sum of parts.
fn parts_range(known: &[Option<Range>], number: i64, parts: &[Part]) -> Option<Range>
    ensures { IfSome result
        (λ range. (v : Valuation) → AreKnown v known.now → IsIn range (number +ℤ parts_value v parts.now)) }
{
    let (mut low, mut high) = (number, number);
    for part in parts {
        let range = multiple_range(atom_range(known, part.atom)?, part.factor)?;
        low = low.checked_add(range.low)?;
        high = high.checked_add(range.high)?;
    }
    Some(Range { low, high })
}

/// The range of a term.
pub fn term_range(known: &[Option<Range>], term: &Term) -> Option<Range>
    ensures { IfSome result (λ range. (v : Valuation) → AreKnown v known.now → IsIn range (sum_value v term.now)) }
{
    parts_range(known, term.constant, &term.parts)
}

/// Sets what is known of an atom. It tells whether that is new.
fn set_range(known: &mut [Option<Range>], atom: usize, range: Range) -> bool
    ensures { (v : Valuation) → AreKnown v known.old → IsIn range (v atom) → AreKnown v known.new }
{
    if atom >= known.len() || known[atom] == Some(range) {
        return false;
    }
    known[atom] = Some(range);
    true
}

/// What is left of a range where the rest and a number of it, so many times, are at most 0.
pub(crate) fn limited(range: Range, factor: i64, rest: i64) -> Option<Range>
    ensures { IfSome result
        (λ left. (x : ℤ) → IsIn range x → (rest +ℤ factor *ℤ x) ≤ℤ pos 0 → IsIn left x) }
{
    if factor > 0 {
        let high = ceiling(rest, factor).checked_neg()?.min(range.high);
        return Some(Range { high, ..range });
    }
    let size = factor.checked_neg()?;
    if size <= 0 {
        return None;
    }
    let low = ceiling(rest, size).max(range.low);
    Some(Range { low, ..range })
}

/// What a bound leaves of the range of the atom that is the part at a place.
fn narrowed_at(known: &[Option<Range>], bound: &Term, place: usize) -> Option<(usize, Range)>
    requires { place < vec_len bound.now.parts }
    ensures { IfSome result (λ left. (v : Valuation) → AreKnown v known.now → IsBelow v bound.now
        → IsIn left.1 (v left.0)) }
{
    let parts = bound.parts.as_slice();
    let before = parts_range(known, bound.constant, &parts[..place])?;
    let behind = parts_range(known, 0, &parts[place + 1..])?;
    let rest = before.low.checked_add(behind.low)?;
    let part = *item_at(parts, place);
    let range = limited(atom_range(known, part.atom)?, part.factor, rest)?;
    Some((part.atom, range))
}

/// Notes what follows for atoms from a bound. It tells whether something is new.
fn narrow(known: &mut [Option<Range>], bound: &Term) -> bool
    ensures { (v : Valuation) → AreKnown v known.old → IsBelow v bound.now → AreKnown v known.new }
{
    let mut is_new = false;
    for place in 0..bound.parts.len() {
        if let Some((atom, range)) = narrowed_at(known, bound, place) {
            is_new |= set_range(known, atom, range);
        }
    }
    is_new
}

/// Notes what follows for atoms from each bound. It tells whether something is new.
pub fn narrow_all(known: &mut [Option<Range>], bounds: &[Term]) -> bool
    ensures { (v : Valuation) → AreKnown v known.old → AreBelow v bounds.now → AreKnown v known.new }
{
    let mut is_new = false;
    for bound in bounds {
        is_new |= narrow(known, bound);
    }
    is_new
}

/// The atom of a term of one part, and the number of it for which the term is 0, if that is told.
fn root_of(term: &Term) -> Option<(usize, i64)>
    ensures { IfSome result (λ root. (v : Valuation) → v root.0 ≡ root.1 → sum_value v term.now ≡ pos 0) }
{
    match term.parts.as_slice() {
        [Part { factor: 1, atom }] => Some((*atom, term.constant.checked_neg()?)),
        [Part { factor: -1, atom }] => Some((*atom, term.constant)),
        _ => None,
    }
}

/// Notes that an atom is not this number, where the number is an end of its range.
fn leave_out(known: &mut [Option<Range>], atom: usize, number: i64)
    ensures { (v : Valuation) → AreKnown v known.old → v atom ≢ number → AreKnown v known.new }
{
    let Some(range) = atom_range(known, atom) else {
        return;
    };
    if range.low == number && number < i64::MAX {
        let low = number + 1;
        set_range(known, atom, Range { low, ..range });
    } else if range.high == number && number > i64::MIN {
        let high = number - 1;
        set_range(known, atom, Range { high, ..range });
    }
}

/// Notes what follows for atoms from each term that is not 0.
pub fn narrow_all_apart(known: &mut [Option<Range>], terms: &[Term])
    ensures { (v : Valuation) → AreKnown v known.old → All (IsUnequal v) terms.now → AreKnown v known.new }
{
    for term in terms {
        if let Some((atom, root)) = root_of(term) {
            leave_out(known, atom, root);
        }
    }
}

/// No number is in the range of an atom, or a bound would be above 0.
pub fn is_ruled_out(known: &[Option<Range>], bounds: &[Term]) -> bool
    ensures { result ≡ true → (v : Valuation) → AreKnown v known.now → ¬ (AreBelow v bounds.now) }
{
    for atom in 0..known.len() {
        if let Some(range) = atom_range(known, atom) {
            if is_empty(range) {
                return true;
            }
        }
    }
    bounds.iter().any(|bound| term_range(known, bound).is_some_and(|range| range.low > 0))
}

/// Notes that an atom is in a range.
pub fn set_within(known: &mut [Option<Range>], atom: usize, range: Range)
    ensures { (v : Valuation) → AreKnown v known.old → IsIn range (v atom) → AreKnown v known.new }
{
    let old = atom_range(known, atom).unwrap_or(range);
    set_range(known, atom, common(old, range));
}

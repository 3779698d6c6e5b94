//! Ranges of functions of two numbers, by those of the numbers. Most questions on a remainder, a quotient or a size are
//! answered by them, and need no elimination.

ghost use Rattle.std.specs.Prelude.{◌≢◌, ◌≤ℤ◌, ◌*ℤ◌, ℤ, pos, IfSome, int_div, int_rem};
ghost use Rattle.std.specs.Int.{int_min};
ghost use Rattle.f77_terms.specs.{AreKnown, IsDefined, IsIn, Valuation, function_value, sum_value};
ghost use Rattle.f77_terms.specs.code.{IsToward};

use crate::atoms::Function;
use crate::ranges::{Range, common, hull, multiple_range, term_range};
use crate::terms::{Term, is_same_term};

/// The range of products.
fn product_range(a: Range, b: Range) -> Option<Range>
    ensures { IfSome result (λ r. (x y : ℤ) → IsIn a x → IsIn b y → IsIn r (x *ℤ y)) }
{
    Some(hull(multiple_range(b, a.low)?, multiple_range(b, a.high)?))
}

/// The range of squares.
fn square_range(a: Range) -> Option<Range>
    ensures { IfSome result (λ r. (x : ℤ) → IsIn a x → IsIn r (x *ℤ x)) }
{
    let range = product_range(a, a)?;
    let low = if range.low < 0 { 0 } else { range.low };
    Some(Range { low, ..range })
}

/// The numbers from 0 to those of the range.
fn range_from_zero(range: Range) -> Range
    ensures { (x z : ℤ) → IsIn range x → IsToward x z → IsIn result z }
{
    hull(Range { low: 0, high: 0 }, range)
}

/// The range of quotients: from 0 to the dividend where the divisor is above 0, and to its negative where it is below.
fn quotient_range(dividend: Range, divisor: Range) -> Option<Range>
    ensures { IfSome result (λ r. (x y : ℤ) → IsIn dividend x → IsIn divisor y → y ≢ pos 0
        → IsIn r (int_div x y)) }
{
    if divisor.low >= 0 {
        return Some(range_from_zero(dividend));
    }
    let negative = multiple_range(dividend, -1)?;
    if divisor.high <= 0 {
        return Some(range_from_zero(negative));
    }
    Some(range_from_zero(hull(dividend, negative)))
}

/// The range of what divisions leave: from 0 to the dividend, and of less size than the divisor.
fn remainder_range(dividend: Range, divisor: Range) -> Option<Range>
    ensures { IfSome result (λ r. (x y : ℤ) → IsIn dividend x → IsIn divisor y → y ≢ pos 0
        → IsIn r (int_rem x y)) }
{
    let size = divisor.high.max(divisor.low.checked_neg()?).max(1);
    let low = 1 - size;
    let high = size - 1;
    Some(common(range_from_zero(dividend), Range { low, high }))
}

/// The range of the lesser of two numbers.
fn minimum_range(a: Range, b: Range) -> Range
    ensures { (x y : ℤ) → IsIn a x → IsIn b y → IsIn result (int_min x y) }
{
    Range {
        low: a.low.min(b.low),
        high: a.high.min(b.high),
    }
}

/// The range of a function of two terms.
pub fn function_range(
    known: &[Option<Range>],
    function: Function,
    a: &Term,
    b: &Term,
) -> Option<Range>
    ensures { IfSome result (λ range. (v : Valuation) → AreKnown v known.now
        → IsDefined function (sum_value v b.now)
        → IsIn range (function_value function (sum_value v a.now) (sum_value v b.now))) }
{
    let first = term_range(known, a)?;
    let second = term_range(known, b)?;
    match function {
        Function::Quotient => quotient_range(first, second),
        Function::Remainder => remainder_range(first, second),
        Function::Minimum => Some(minimum_range(first, second)),
        Function::Product if is_same_term(a, b) => square_range(first),
        Function::Product => product_range(first, second),
    }
}

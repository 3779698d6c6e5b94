//! Division that rounds up, and common divisors.

ghost use Rattle.std.specs.Prelude.{◌≡◌, ◌+ℤ◌, ◌*ℤ◌, ◌≤ℤ◌, ◌<ℤ◌, ℤ, pos, IfSome};

use crate::terms::Part;

/// A number and another one, so many times.
pub(crate) fn plus_multiple(number: i64, m: i64, other: i64) -> Option<i64>
    ensures { IfSome result (λ sum. sum ≡ number +ℤ m *ℤ other) }
{
    number.checked_add(m.checked_mul(other)?)
}

/// The quotient, rounded up: what g times a whole number and c at most make 0 says of that number.
pub fn ceiling(c: i64, g: i64) -> i64
    requires { pos 0 <ℤ g }
    ensures { (s : ℤ) → (c +ℤ g *ℤ s) ≤ℤ pos 0 → (result +ℤ s) ≤ℤ pos 0 }
{
    let quotient = c / g;
    if c % g > 0 {
        quotient.saturating_add(1)
    } else {
        quotient
    }
}

/// The greatest common divisor.
pub fn common_divisor(a: u64, b: u64) -> u64 {
    if b == 0 { a } else { common_divisor(b, a % b) }
}

/// The greatest common divisor of all factors, or 1 if it is too large.
pub(crate) fn divisor_of(parts: &[Part]) -> i64
    ensures { pos 0 <ℤ result }
{
    let divisor = parts.iter().fold(0, |divisor, part| {
        common_divisor(part.factor.unsigned_abs(), divisor)
    });
    i64::try_from(divisor).unwrap_or(1).max(1)
}

//! INTEGER arithmetic: the exact number if it is in the range, and else Overflow (ANSI X3.9-1978, 4.3, 6.1.5 and
//! 15.10).

ghost use Rattle.std.specs.Prelude.{◌≡◌, ◌≢◌, ◌+ℤ◌, ◌-ℤ◌, ◌*ℤ◌, ◌^◌, ◌<◌};
ghost use Rattle.std.specs.Prelude.{◌≤◌, pos};
ghost use Rattle.std.specs.Prelude.{negsuc, int_div, unsigned_abs, if◌then◌else◌};
ghost use Rattle.f77_actions.specs.Number as exact;
ghost use Rattle.f77_actions.specs.Value as meaning;

use crate::finish::Fault;

fn narrow(number: i64) -> Result<i32, Fault>
    ensures { result ≡ exact.in_range number }
{
    i32::try_from(number).map_err(|_| Fault::Overflow)
}

/// The sum, or Overflow.
pub fn sum(a: i32, b: i32) -> Result<i32, Fault>
    ensures { result ≡ exact.in_range (a +ℤ b) }
{
    narrow(i64::from(a) + i64::from(b))
}

/// The difference, or Overflow.
pub fn difference(a: i32, b: i32) -> Result<i32, Fault>
    ensures { result ≡ exact.in_range (a -ℤ b) }
{
    narrow(i64::from(a) - i64::from(b))
}

/// The product, or Overflow.
pub fn product(a: i32, b: i32) -> Result<i32, Fault>
    ensures { result ≡ exact.in_range (a *ℤ b) }
{
    narrow(i64::from(a) * i64::from(b))
}

/// The quotient, truncated toward zero.
#[tactic(auto, using(crate::proofs::Ranges::checked_quotient))]
pub fn quotient(a: i32, b: i32) -> Result<i32, Fault>
    ensures { result ≡ exact.quotient a b }
{
    if b == 0 {
        return Err(Fault::DivideByZero);
    }
    a.checked_div(b).ok_or(Fault::Overflow)
}

/// MOD: `a` minus `b` times the truncated quotient. It is in the range even where the quotient is not.
pub fn modulus(a: i32, b: i32) -> Result<i32, Fault>
    ensures { result ≡ exact.modulus a b }
{
    if b == 0 {
        return Err(Fault::DivideByZero);
    }
    if b == -1 {
        return Ok(0);
    }
    Ok(a % b)
}

/// The negative of the number: Overflow for -2147483648.
pub fn negated(a: i32) -> Result<i32, Fault>
    ensures { result ≡ exact.in_range (exact.negated a) }
{
    difference(0, a)
}

/// IABS: Overflow for -2147483648.
pub fn absolute(a: i32) -> Result<i32, Fault>
    ensures { result ≡ exact.in_range (exact.without_sign a) }
{
    narrow(i64::from(a).abs())
}

/// The value of ZPUSH: the number, but Trapped where it is 0.
pub fn pushed(a: i32) -> Result<i32, Fault>
    ensures { result ≡ meaning.pushed a }
{
    if a == 0 { Err(Fault::Trapped) } else { Ok(a) }
}

/// Whether the first number is below the second.
pub fn is_below(a: i32, b: i32) -> bool
    ensures { result ≡ exact.is_below a b }
{
    a < b
}

/// Whether the two numbers are equal.
pub fn is_same(a: i32, b: i32) -> bool
    ensures { result ≡ exact.is_same a b }
{
    a == b
}

/// MIN0 of two numbers.
pub fn lesser(a: i32, b: i32) -> i32
    ensures { result ≡ (if exact.is_below b a then b else a) }
{
    a.min(b)
}

/// MAX0 of two numbers.
pub fn greater(a: i32, b: i32) -> i32
    ensures { result ≡ (if exact.is_below a b then b else a) }
{
    a.max(b)
}

/// The exact power. For a negative exponent it is 1 over the power of its negative, truncated toward zero.
#[inline(never)]
#[tactic(auto, using(crate::proofs::Powers::power_of_one, crate::proofs::Powers::inverse_power))]
pub fn power(base: i32, exponent: i32) -> Result<i32, Fault>
    ensures { result ≡ exact.power base exponent }
{
    match base {
        0 if exponent > 0 => Ok(0),
        0 => Err(Fault::ZeroPower),
        1 => Ok(1),
        -1 => Ok(alternating(exponent)),
        _ if exponent < 0 => Ok(0),
        _ => repeated_product(base, exponent as u32),
    }
}

/// The power of -1.
#[tactic(auto, using(crate::proofs::Powers::even_power, crate::proofs::Powers::odd_power))]
fn alternating(exponent: i32) -> i32
    ensures { exact.power_of (negsuc 0) exponent ≡ Ok result }
{
    if exponent % 2 == 0 { 1 } else { -1 }
}

/// The power of a base other than 0, 1 and -1. The product leaves the range after 32 factors at the latest.
fn repeated_product(base: i32, factors: u32) -> Result<i32, Fault>
    requires { 2 ≤ unsigned_abs base }
    ensures { result ≡ exact.in_range (exact.exact_power base factors) }
{
    let mut power = 1;
    for _ in 0..factors {
        power = product(base, power)?;
    }
    Ok(power)
}

/// The trip count of a DO with these parameters (11.10.3), which can need more than 32 bits.
pub fn trip_count(first: i32, last: i32, step: i32) -> u64
    requires { step ≢ pos 0 }
    ensures { result ≡ exact.trip_count first last step }
{
    u64::try_from(steps_within(span(first, last, step), step)).unwrap_or(0)
}

fn span(first: i32, last: i32, step: i32) -> i64
    ensures value { result ≡ last -ℤ first +ℤ step }
    ensures small { unsigned_abs result < 2 ^ 40 }
{
    i64::from(last) - i64::from(first) + i64::from(step)
}

fn steps_within(distance: i64, step: i32) -> i64
    requires nonzero { step ≢ pos 0 }
    requires small { unsigned_abs distance < 2 ^ 40 }
    ensures { result ≡ int_div distance step }
{
    // Nearly all DOs count by one, and a division costs as much as many of their steps.
    if step == 1 {
        return distance;
    }
    distance / i64::from(step)
}

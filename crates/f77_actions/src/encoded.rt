//! Operations on numbers of 64 bits, each of which stands for a value or for a fault. A number within the range of
//! INTEGER is a value, and from 2^40 on it is a fault.
//!
//! A sum with a fault is outside of the range, so one test of the range is all that a sum needs. Of two faults the left
//! one counts. Other operations can bring a fault back into the range, so they test their operands.

ghost use Rattle.std.specs.Prelude.{◌≡◌, ◌+ℤ◌, ◌-ℤ◌, ◌*ℤ◌, if◌then◌else◌, ℤ, Result};
ghost use Rattle.std.specs.Prelude.{Ok, Err};
ghost use Rattle.f77_actions.specs.declared.finish.Fault.{Fault};
ghost use Rattle.f77_actions.specs.Number as exact;
ghost use Rattle.f77_actions.specs.Encoded as meaning;
ghost use Rattle.f77_actions.specs.Value as values;
ghost use Rattle.f77_actions.specs.{fits, in_range, is_below, Encodes, IsValueOrFault, HasValue, operation_fault};
ghost use Rattle.f77_actions.specs.{given, both};

use crate::finish::Fault;
use crate::number;

/// The least number that stands for a fault: there is no value. The other faults follow.
pub const UNDEFINED: i64 = 1_099_511_627_776;
/// A result outside the range of INTEGER (4.3).
pub const OVERFLOW: i64 = 1_099_511_627_777;
/// A subscript below 1 or above its bound (5.4.2).
pub const BAD_SUBSCRIPT: i64 = 1_099_511_627_778;
/// A DO with an incrementation parameter of zero (11.10.3).
pub const ZERO_STEP: i64 = 1_099_511_627_779;
/// TRAP was executed, or ZPUSH had a 0.
pub const TRAPPED: i64 = 1_099_511_627_780;
/// A division by zero, or MOD by zero (6.1.5, 15.10).
pub const DIVIDE_BY_ZERO: i64 = 1_099_511_627_781;
/// Zero to a power of zero or less (6.1.5).
pub const ZERO_POWER: i64 = 1_099_511_627_782;

/// Whether the number is a value of INTEGER.
#[inline(always)]
fn is_value(x: i64) -> bool
    ensures { result ≡ fits x }
{
    i32::try_from(x).is_ok()
}

/// The fault of an operation on these two numbers that has no value: that of the left one, else that of the right one,
/// else Overflow.
#[cold]
#[inline(never)]
#[tactic(auto, using(crate::proofs::Faults::unfit_left, crate::proofs::Faults::unfit_right, crate::proofs::Faults::unfit_neither))]
pub fn unfit(x: i64, y: i64) -> i64
    ensures { (r q : Result ℤ Fault) → Encodes x r → Encodes y q → Encodes result (operation_fault r q) }
{
    if UNDEFINED <= x {
        return x;
    }
    if UNDEFINED <= y {
        return y;
    }
    OVERFLOW
}

/// The sum. With a fault it is outside of the range, so the range alone is tested.
#[inline(always)]
pub fn sum(x: i64, y: i64) -> i64
    requires x { IsValueOrFault x }
    requires y { IsValueOrFault y }
    ensures { (r q : Result ℤ Fault)
        → Encodes x r → Encodes y q → Encodes result (both (λ a b. in_range (a +ℤ b)) r q) }
{
    let z = x + y;
    if is_value(z) { z } else { unfit(x, y) }
}

/// The difference. Where the right operand is a fault it may be in the range, so the right operand is tested too.
#[inline(always)]
pub fn difference(x: i64, y: i64) -> i64
    requires x { IsValueOrFault x }
    requires y { IsValueOrFault y }
    ensures { (r q : Result ℤ Fault)
        → Encodes x r → Encodes y q → Encodes result (both (λ a b. in_range (a -ℤ b)) r q) }
{
    if UNDEFINED <= y {
        return unfit(x, y);
    }
    let z = x - y;
    if is_value(z) { z } else { unfit(x, y) }
}

/// The product. With a fault it may be in the range, or beyond 64 bits, so both operands are tested.
#[inline(always)]
pub fn product(x: i64, y: i64) -> i64
    requires x { IsValueOrFault x }
    requires y { IsValueOrFault y }
    ensures { (r q : Result ℤ Fault)
        → Encodes x r → Encodes y q → Encodes result (both (λ a b. in_range (a *ℤ b)) r q) }
{
    if UNDEFINED <= x {
        return unfit(x, y);
    }
    if UNDEFINED <= y {
        return unfit(x, y);
    }
    let z = x * y;
    if is_value(z) { z } else { unfit(x, y) }
}

/// The number that stands for a fault.
#[cold]
#[inline(never)]
fn code(fault: Fault) -> i64
    ensures { Encodes result (Err fault) }
{
    match fault {
        Fault::Overflow => OVERFLOW,
        Fault::DivideByZero => DIVIDE_BY_ZERO,
        Fault::ZeroPower => ZERO_POWER,
        Fault::BadSubscript => BAD_SUBSCRIPT,
        Fault::ZeroStep => ZERO_STEP,
        Fault::Undefined => UNDEFINED,
        Fault::Trapped => TRAPPED,
    }
}

/// The number that stands for a value or a fault.
#[inline(always)]
fn coded(outcome: Result<i32, Fault>) -> i64
    ensures { Encodes result outcome }
{
    match outcome {
        Ok(value) => i64::from(value),
        Err(fault) => code(fault),
    }
}

/// A truth value as a number: 1 or 0.
#[inline(always)]
pub fn truth(truth: bool) -> i64
    ensures { result ≡ meaning.truth_number truth }
{
    if truth { 1 } else { 0 }
}

/// The result of an operation on `x` and `y`, where `z` is its result if both are values.
#[inline(always)]
pub fn settled(x: i64, y: i64, z: i64) -> i64
    ensures { (f : ℤ → ℤ → Result ℤ Fault) (r q : Result ℤ Fault)
        → (HasValue x → HasValue y → Encodes z (f x y)) → Encodes x r → Encodes y q
        → Encodes result (both f r q) }
{
    if UNDEFINED <= x {
        return unfit(x, y);
    }
    if UNDEFINED <= y {
        return unfit(x, y);
    }
    z
}

/// A value in 32 bits. For a number that is no value it is 0.
#[inline(always)]
fn narrow(x: i64) -> i32
    requires { IsValueOrFault x }
    ensures { HasValue x → result ≡ x }
{
    i32::try_from(x).unwrap_or(0)
}

/// The quotient, truncated toward zero (6.1.5).
#[inline(always)]
pub fn quotient(x: i64, y: i64) -> i64
    requires x { IsValueOrFault x }
    requires y { IsValueOrFault y }
    ensures { (r q : Result ℤ Fault)
        → Encodes x r → Encodes y q → Encodes result (both exact.quotient r q) }
{
    settled(x, y, coded(number::quotient(narrow(x), narrow(y))))
}

/// The power, that of a negative exponent truncated toward zero (6.1.5).
#[inline(always)]
pub fn power(x: i64, y: i64) -> i64
    requires x { IsValueOrFault x }
    requires y { IsValueOrFault y }
    ensures { (r q : Result ℤ Fault) → Encodes x r → Encodes y q → Encodes result (both exact.power r q) }
{
    settled(x, y, coded(number::power(narrow(x), narrow(y))))
}

/// MOD (15.10).
#[inline(always)]
pub fn modulus(x: i64, y: i64) -> i64
    requires x { IsValueOrFault x }
    requires y { IsValueOrFault y }
    ensures { (r q : Result ℤ Fault) → Encodes x r → Encodes y q → Encodes result (both exact.modulus r q) }
{
    settled(x, y, coded(number::modulus(narrow(x), narrow(y))))
}

#[inline(always)]
fn least(x: i64, y: i64) -> i64
    ensures { result ≡ (if is_below y x then y else x) }
{
    x.min(y)
}

#[inline(always)]
fn greatest(x: i64, y: i64) -> i64
    ensures { result ≡ (if is_below x y then y else x) }
{
    x.max(y)
}

/// MIN0 (15.10).
#[inline(always)]
pub fn lesser(x: i64, y: i64) -> i64
    requires x { IsValueOrFault x }
    requires y { IsValueOrFault y }
    ensures { (r q : Result ℤ Fault) → Encodes x r
        → Encodes y q → Encodes result (both (λ a b. Ok (if is_below b a then b else a)) r q) }
{
    settled(x, y, least(x, y))
}

/// MAX0 (15.10).
#[inline(always)]
pub fn greater(x: i64, y: i64) -> i64
    requires x { IsValueOrFault x }
    requires y { IsValueOrFault y }
    ensures { (r q : Result ℤ Fault) → Encodes x r
        → Encodes y q → Encodes result (both (λ a b. Ok (if is_below a b then b else a)) r q) }
{
    settled(x, y, greatest(x, y))
}

/// The number with a minus before it (6.1).
#[inline(always)]
pub fn negated(x: i64) -> i64
    requires { IsValueOrFault x }
    ensures { (r : Result ℤ Fault) → Encodes x r → Encodes result (given r (λ z. in_range (exact.negated z))) }
{
    if UNDEFINED <= x {
        return x;
    }
    coded(number::negated(x as i32))
}

/// IABS (15.10).
#[inline(always)]
pub fn absolute(x: i64) -> i64
    requires { IsValueOrFault x }
    ensures { (r : Result ℤ Fault)
        → Encodes x r → Encodes result (given r (λ z. in_range (exact.without_sign z))) }
{
    if UNDEFINED <= x {
        return x;
    }
    coded(number::absolute(x as i32))
}

/// The value of ZPUSH: the number, but TRAPPED where it is 0.
#[inline(always)]
pub fn pushed(x: i64) -> i64
    requires { IsValueOrFault x }
    ensures { (r : Result ℤ Fault) → Encodes x r → Encodes result (given r values.pushed) }
{
    if UNDEFINED <= x {
        return x;
    }
    if x == 0 { TRAPPED } else { x }
}

/// `.NOT.` of a truth value, as a number (6.4).
#[inline(always)]
pub fn negation(x: i64) -> i64
    requires { IsValueOrFault x }
    ensures { (r : Result ℤ Fault) → Encodes x r → Encodes result (given r (λ z. Ok (meaning.negation z))) }
{
    if UNDEFINED <= x {
        return x;
    }
    truth(x == 0)
}

//! Operations on values, each as its definition has it: the exact number, then the test against the range
//! (f77_actions/specs/Number.antt). An `i64` holds all exact numbers here but powers; a power that saturates is out of
//! the range, as the exact one is.

use f77_run::Fault;
use f77_tree::{Intrinsic, Operator};

/// `in_range` (4.3): -2147483648 to 2147483647.
pub(crate) fn in_range(number: i64) -> Result<i32, Fault> {
    match i32::try_from(number) {
        Ok(number) => Ok(number),
        Err(_) => Err(Fault::Overflow),
    }
}

/// `quotient` (6.1.5): truncated toward zero.
fn quotient(a: i32, b: i32) -> Result<i32, Fault> {
    match i64::from(a).checked_div(i64::from(b)) {
        Some(number) => in_range(number),
        None => Err(Fault::DivideByZero),
    }
}

/// `modulus` (15.10): a minus b times the truncated quotient.
fn modulus(a: i32, b: i32) -> Result<i32, Fault> {
    let (a, b) = (i64::from(a), i64::from(b));
    match a.checked_div(b) {
        Some(number) => in_range(a.saturating_sub(b.saturating_mul(number))),
        None => Err(Fault::DivideByZero),
    }
}

/// `exact_power`: one factor after another. The factors of -1 come in pairs, and after 32 factors any other base that
/// is left is out of the range.
fn exact_power(a: i64, factors: u32) -> i64 {
    let factors = match a {
        1 => 0,
        -1 => factors % 2,
        _ => factors.min(32),
    };
    let mut power: i64 = 1;
    for _ in 0..factors {
        power = power.saturating_mul(a);
    }
    power
}

/// `power` and `power_of` (6.1.5): for a negative exponent 1 over the exact power, truncated.
fn power(a: i32, b: i32) -> Result<i32, Fault> {
    if a == 0 {
        return if b > 0 { Ok(0) } else { Err(Fault::ZeroPower) };
    }
    let exact = exact_power(i64::from(a), b.unsigned_abs());
    if b >= 0 {
        return in_range(exact);
    }
    match 1i64.checked_div(exact) {
        Some(number) => in_range(number),
        None => Err(Fault::ZeroPower),
    }
}

/// `called`, with `least` and `greatest` (15.10).
pub(crate) fn called(function: Intrinsic, arguments: &[i32]) -> Result<i32, Fault> {
    match (function, arguments) {
        (Intrinsic::Mod, [a, b]) => modulus(*a, *b),
        (Intrinsic::Iabs, [a]) => in_range(i64::from(*a).abs()),
        (Intrinsic::Min0, [a, rest @ ..]) => Ok(rest.iter().fold(*a, |least, b| least.min(*b))),
        (Intrinsic::Max0, [a, rest @ ..]) => Ok(rest.iter().fold(*a, |most, b| most.max(*b))),
        _ => Err(Fault::Undefined),
    }
}

/// `arithmetic` (f77_meaning/specs/Value.antt; 6.1).
pub(crate) fn arithmetic(operator: Operator, a: i32, b: i32) -> Result<i32, Fault> {
    match operator {
        Operator::Add => in_range(i64::from(a) + i64::from(b)),
        Operator::Subtract => in_range(i64::from(a) - i64::from(b)),
        Operator::Multiply => in_range(i64::from(a) * i64::from(b)),
        Operator::Divide => quotient(a, b),
        Operator::Power => power(a, b),
        _ => Err(Fault::Undefined),
    }
}

/// `related` (f77_meaning/specs/Value.antt; 6.3). None where the operator is no relation.
pub(crate) fn related(operator: Operator, a: i32, b: i32) -> Option<bool> {
    match operator {
        Operator::Less => Some(a < b),
        Operator::LessOrEqual => Some(a <= b),
        Operator::Equal => Some(a == b),
        Operator::NotEqual => Some(a != b),
        Operator::GreaterOrEqual => Some(a >= b),
        Operator::Greater => Some(a > b),
        _ => None,
    }
}

/// `is_relation` (f77_tree/specs/Operator.antt; 6.3).
pub(crate) fn is_relation(operator: Operator) -> bool {
    related(operator, 0, 0).is_some()
}

/// `connected` (f77_meaning/specs/Value.antt; 6.4).
pub(crate) fn connected(operator: Operator, a: bool, b: bool) -> bool {
    match operator {
        Operator::And => a && b,
        Operator::Or => a || b,
        Operator::Equivalent => a == b,
        Operator::NotEquivalent => a != b,
        _ => false,
    }
}

/// `trip_count` (11.10.3): 0 where the number is negative.
pub(crate) fn trip_count(first: i32, last: i32, step: i32) -> u64 {
    let span = i64::from(last) - i64::from(first) + i64::from(step);
    match span.checked_div(i64::from(step)) {
        Some(number) => u64::try_from(number).unwrap_or(0),
        None => 0,
    }
}

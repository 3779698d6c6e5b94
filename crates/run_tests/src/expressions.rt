//! The values of expressions (f77_meaning/specs/Value.antt). All operands are evaluated, from left to right, before the
//! operator is applied, and the first fault is that of the expression: a `?` is `given` of
//! f77_actions/specs/Value.antt.

use crate::arithmetic::{arithmetic, called, connected, in_range, is_relation, related};
use crate::store::Store;
use crate::unit::{Halt, Unit};
use f77_run::{Fault, Value};
use f77_tree::{Expr, Kind, Ref, Sign};

/// `element` (f77_actions/specs/Value.antt; 5.2.4, 5.4): the place from 0, the first subscript varying fastest.
fn element(bounds: &[u32], subscripts: &[i32]) -> Result<usize, Fault> {
    if bounds.len() != subscripts.len() {
        return Err(Fault::BadSubscript);
    }
    let mut place: usize = 0;
    let mut distance: usize = 1;
    for (bound, subscript) in bounds.iter().zip(subscripts) {
        let subscript = u32::try_from(*subscript).unwrap_or(0);
        if subscript < 1 || subscript > *bound {
            return Err(Fault::BadSubscript);
        }
        place = place.saturating_add(distance.saturating_mul(subscript as usize - 1));
        distance = distance.saturating_mul(*bound as usize);
    }
    Ok(place)
}

/// `whole` (f77_actions/specs/Value.antt; 2.11): the value of an INTEGER element.
pub(crate) fn whole(value: Option<Value>) -> Result<i32, Fault> {
    match value {
        Some(Value::Number(number)) => Ok(number),
        _ => Err(Fault::Undefined),
    }
}

/// `logic` (f77_actions/specs/Value.antt; 2.11): the value of a LOGICAL element.
pub(crate) fn logic(value: Option<Value>) -> Result<bool, Fault> {
    match value {
        Some(Value::Truth(truth)) => Ok(truth),
        _ => Err(Fault::Undefined),
    }
}

/// `number`: the value of an INTEGER expression.
#[cycle(numbers)]
pub(crate) fn number(unit: &Unit<'_>, s: &Store, expr: &Expr) -> Result<i32, Halt> {
    match expr {
        // 4.3
        Expr::Number(number) => Ok(in_range(i64::from(*number))?),
        // 5.3, 6.1.2
        Expr::Reference(reference) => {
            let subscripts = numbers(unit, s, &reference.subscripts)?;
            let k = element(unit.bounds_of(&reference.name), &subscripts)?;
            Ok(whole(s.element(&reference.name, k))?)
        }
        // 15.10
        Expr::Call(function, arguments) => {
            let arguments = numbers(unit, s, arguments)?;
            Ok(called(*function, &arguments)?)
        }
        // 6.1: `signed`
        Expr::Signed(Sign::Plus, operand) => number(unit, s, operand),
        Expr::Signed(Sign::Minus, operand) => {
            Ok(in_range(0 - i64::from(number(unit, s, operand)?))?)
        }
        // 6.1
        Expr::Binary(operator, left, right) => {
            let a = number(unit, s, left)?;
            let b = number(unit, s, right)?;
            Ok(arithmetic(*operator, a, b)?)
        }
        // In mutants alone: `pushed`.
        Expr::ZeroPush(operand) => match number(unit, s, operand)? {
            0 => Err(Halt::from(Fault::Trapped)),
            value => Ok(value),
        },
        // In no legal program.
        Expr::Truth(_) | Expr::Not(_) => Err(Halt::from(Fault::Undefined)),
    }
}

/// `numbers`: the values of subscripts (5.4.2) or of arguments (15.10), from left to right.
#[cycle(numbers)]
fn numbers(unit: &Unit<'_>, s: &Store, items: &[Expr]) -> Result<Vec<i32>, Halt> {
    let mut values = Vec::new(unit.alloc);
    for item in items {
        let value = number(unit, s, item)?;
        values.push(value)?;
    }
    Ok(values)
}

/// `place`: the place of the element that a reference names (5.3).
pub(crate) fn place(unit: &Unit<'_>, s: &Store, reference: &Ref) -> Result<usize, Halt> {
    let subscripts = numbers(unit, s, &reference.subscripts)?;
    Ok(element(unit.bounds_of(&reference.name), &subscripts)?)
}

/// `truth`: the value of a LOGICAL expression.
pub(crate) fn truth(unit: &Unit<'_>, s: &Store, expr: &Expr) -> Result<bool, Halt> {
    match expr {
        // 4.7
        Expr::Truth(truth) => Ok(*truth),
        // 5.3, 6.4.2
        Expr::Reference(reference) => {
            let k = place(unit, s, reference)?;
            Ok(logic(s.element(&reference.name, k))?)
        }
        // 6.4
        Expr::Not(operand) => Ok(!truth(unit, s, operand)?),
        // 6.3
        Expr::Binary(operator, left, right) if is_relation(*operator) => {
            let a = number(unit, s, left)?;
            let b = number(unit, s, right)?;
            Ok(related(*operator, a, b).unwrap_or(false))
        }
        // 6.4: both operands are evaluated, also where one would do.
        Expr::Binary(operator, left, right) => {
            let a = truth(unit, s, left)?;
            let b = truth(unit, s, right)?;
            Ok(connected(*operator, a, b))
        }
        // In no legal program.
        _ => Err(Halt::from(Fault::Undefined)),
    }
}

/// `value`: the value of an expression of this kind.
pub(crate) fn value(unit: &Unit<'_>, s: &Store, kind: Kind, expr: &Expr) -> Result<Value, Halt> {
    match kind {
        Kind::Integer => Ok(Value::Number(number(unit, s, expr)?)),
        Kind::Logical => Ok(Value::Truth(truth(unit, s, expr)?)),
    }
}

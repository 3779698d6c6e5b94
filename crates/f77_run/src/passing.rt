//! The values of dummy arguments, from those of their slots.

ghost use Rattle.std.specs.Prelude.{◌≡◌, ◌+◌, ◌≤◌, true, length, map, Some, IfOk};
ghost use Rattle.std.specs.List.{list_all, zip};
ghost use Rattle.f77_tree.specs.declared.tree.Kind.TheVariants as kind;
ghost use Rattle.f77_meaning.specs.Interpreter.{AreFitting, has_shape, values_in};
ghost use Rattle.f77_meaning.specs.code.Spans.{AllHold, AreWithin, span};
ghost use Rattle.f77_meaning.specs.Spans.{size_of};
ghost use Rattle.f77_meaning.specs.code.Typed.{HasValues, has_kind};
ghost use Rattle.f77_actions.specs.declared.value.Value.TheVariants as held;

use f77_actions::Value;
use f77_check::Shape;
use f77_meaning::{Arg, Values};
use f77_tree::Kind;
use std::alloc::{AllocError, Global};

fn number(cell: Option<Value>) -> i32
    requires { has_kind kind.Integer cell ≡ true }
    ensures { Some (held.Number result) ≡ cell }
{
    match cell {
        Some(Value::Number(number)) => number,
        Some(Value::Truth(_)) | None => unreachable!(),
    }
}

fn truth(cell: Option<Value>) -> bool
    requires { has_kind kind.Logical cell ≡ true }
    ensures { Some (held.Truth result) ≡ cell }
{
    match cell {
        Some(Value::Truth(truth)) => truth,
        Some(Value::Number(_)) | None => unreachable!(),
    }
}

fn numbers(alloc: Global, cells: &[Option<Value>]) -> Result<Vec<i32>, AllocError>
    requires { list_all (has_kind kind.Integer) cells.now ≡ true }
    ensures values { IfOk result (λ numbers. map (λ z. Some (held.Number z)) numbers.items ≡ cells.now) }
{
    let mut numbers = Vec::with_capacity(alloc, cells.len())?;
    for cell in cells {
        numbers.push(number(*cell))?;
    }
    Ok(numbers)
}

fn truths(alloc: Global, cells: &[Option<Value>]) -> Result<Vec<bool>, AllocError>
    requires { list_all (has_kind kind.Logical) cells.now ≡ true }
    ensures values { IfOk result (λ truths. map (λ b. Some (held.Truth b)) truths.items ≡ cells.now) }
{
    let mut truths = Vec::with_capacity(alloc, cells.len())?;
    for cell in cells {
        truths.push(truth(*cell))?;
    }
    Ok(truths)
}

/// The value of a dummy argument of this shape, whose first slot is `first`.
pub(crate) fn argument(
    alloc: Global,
    shape: &Shape,
    first: usize,
    cells: &[Option<Value>],
) -> Result<Arg, AllocError>
    requires within { first + size_of shape.now ≤ length cells.now }
    requires holds { HasValues shape.now.kind (size_of shape.now) (span first (size_of shape.now) cells.now) }
    ensures shape { IfOk result (λ argument. has_shape shape.now argument ≡ true) }
    ensures values { IfOk result
        (λ argument. map (λ v. Some v) (values_in argument) ≡ span first (size_of shape.now) cells.now) }
{
    match (shape.kind, shape.elements) {
        (Kind::Integer, None) => Ok(Arg::Int(number(cells[first]))),
        (Kind::Logical, None) => Ok(Arg::Truth(truth(cells[first]))),
        (Kind::Integer, Some(count)) => {
            let numbers = numbers(alloc, &cells[first..first + count as usize])?;
            Ok(Arg::Ints(Values::new(numbers)))
        }
        (Kind::Logical, Some(count)) => {
            let truths = truths(alloc, &cells[first..first + count as usize])?;
            Ok(Arg::Truths(Values::new(truths)))
        }
    }
}

/// The values of all dummy arguments, in order.
pub(crate) fn arguments(
    alloc: Global,
    shapes: &[Shape],
    dummies: &[usize],
    cells: &[Option<Value>],
) -> Result<Values<Arg>, AllocError>
    requires long { length dummies.now ≡ length shapes.now }
    requires within { AreWithin (length cells.now) (zip shapes.now dummies.now) }
    requires hold { AllHold cells.now (zip shapes.now dummies.now) }
    ensures fitting { IfOk result (λ arguments. AreFitting shapes.now arguments) }
    ensures values { IfOk result (λ arguments. map (λ argument. map (λ v. Some v) (values_in argument)) arguments
        ≡ map (λ pair. span pair.1 (size_of pair.0) cells.now) (zip shapes.now dummies.now)) }
{
    let mut arguments = Vec::new(alloc);
    for (shape, first) in shapes.iter().zip(dummies) {
        arguments.push(argument(alloc, shape, *first, cells)?)?;
    }
    Ok(Values::new(arguments))
}

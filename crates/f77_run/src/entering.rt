//! Putting arguments into the registers of their dummy arguments, and comparing them with these.

ghost use Rattle.std.specs.Prelude.{◌≡◌, ◌+◌, ◌<◌, ◌≤◌, List, ℤ, length, slice_get, true, Some};
ghost use Rattle.std.specs.Bool.{Decides};
ghost use Rattle.std.specs.List.{zip};
ghost use Rattle.f77_code.specs.Moves.{Cells};
ghost use Rattle.f77_code.specs.Registers.{are_held};
ghost use Rattle.f77_meaning.specs.code.Spans.{HaveRoom};
ghost use Rattle.f77_meaning.specs.Interpreter.{values_in};
ghost use Rattle.f77_meaning.specs.Spans.{all_filled, filled};
ghost use Rattle.f77_run.specs.{AreLoaded};
ghost use Rattle.f77_run.specs.code.{AreHeld, IsHeld, shown_cells};

use crate::registers::{is_value, number};
use f77_actions::Value;
use f77_meaning::Arg;
use f77_tree::Kind;

/// The number of values of an argument.
fn count(argument: &Arg) -> usize
    ensures { result ≡ length (values_in argument.now) }
{
    match argument {
        Arg::Int(_) | Arg::Truth(_) => 1,
        Arg::Ints(numbers) => numbers.as_slice().len(),
        Arg::Truths(truths) => truths.as_slice().len(),
    }
}

/// The value of an argument with this number, from 0.
#[inline(always)]
fn value(argument: &Arg, place: usize) -> Value
    requires { place < length (values_in argument.now) }
    ensures { slice_get (values_in argument.now) place ≡ Some result }
{
    match argument {
        Arg::Int(number) => Value::Number(*number),
        Arg::Truth(truth) => Value::Truth(*truth),
        Arg::Ints(numbers) => Value::Number(numbers.as_slice()[place]),
        Arg::Truths(truths) => Value::Truth(truths.as_slice()[place]),
    }
}

/// Puts an argument into the registers of the slots from `first` on.
fn put_argument(registers: &mut [i64], kinds: &[Kind], first: usize, argument: &Arg)
    requires room { length kinds.now ≤ length registers.old }
    requires slots { first + length (values_in argument.now) ≤ length kinds.now }
    ensures put { (cells : Cells) (constants : List ℤ) → AreLoaded kinds.now cells constants registers.old
        → AreLoaded kinds.now (filled cells first (values_in argument.now)) constants registers.new }
    ensures long { length registers.new ≡ length registers.old }
{
    for place in 0..count(argument) {
        let slot = first + place;
        registers[slot] = number(kinds[slot], Some(value(argument, place)));
    }
}

/// Puts each argument into the registers of the slots of its dummy argument.
pub(crate) fn put_arguments(
    registers: &mut [i64],
    kinds: &[Kind],
    dummies: &[usize],
    arguments: &[Arg],
)
    requires room { length kinds.now ≤ length registers.old }
    requires slots { HaveRoom (length kinds.now) (zip dummies.now arguments.now) }
    ensures put { (cells : Cells) (constants : List ℤ) → AreLoaded kinds.now cells constants registers.old
        → AreLoaded kinds.now (all_filled cells (zip dummies.now arguments.now)) constants registers.new }
    ensures long { length registers.new ≡ length registers.old }
{
    for (first, argument) in dummies.iter().zip(arguments) {
        put_argument(registers, kinds, *first, argument);
    }
}

/// Whether the registers of the slots from `first` on have this argument.
fn have_argument(registers: &[i64], kinds: &[Kind], first: usize, argument: &Arg) -> bool
    requires held { are_held registers.now ≡ true }
    requires room { length kinds.now ≤ length registers.now }
    requires slots { first + length (values_in argument.now) ≤ length kinds.now }
    ensures { Decides result (IsHeld (shown_cells kinds.now registers.now) first argument.now) }
{
    for place in 0..count(argument) {
        let slot = first + place;
        if !is_value(kinds[slot], registers[slot], value(argument, place)) {
            return false;
        }
    }
    true
}

/// Whether the registers of the slots of each dummy argument have its argument.
pub(crate) fn have_arguments(
    registers: &[i64],
    kinds: &[Kind],
    dummies: &[usize],
    arguments: &[Arg],
) -> bool
    requires held { are_held registers.now ≡ true }
    requires room { length kinds.now ≤ length registers.now }
    requires slots { HaveRoom (length kinds.now) (zip dummies.now arguments.now) }
    ensures { Decides result (AreHeld (shown_cells kinds.now registers.now) (zip dummies.now arguments.now)) }
{
    for (first, argument) in dummies.iter().zip(arguments) {
        if !have_argument(registers, kinds, *first, argument) {
            return false;
        }
    }
    true
}

//! The execution of DOs (ANSI X3.9-1978, 11.10).

ghost use Rattle.std.specs.Prelude.{◌≡◌, ◌≢◌, ◌<◌, ◌+ℤ◌, pos, true, length, List, ℤ, Result};
ghost use Rattle.f77_actions.specs.declared.finish.Fault.{Fault};
ghost use Rattle.f77_code.specs.declared.control.Turn.{Turn};
ghost use Rattle.f77_code.specs.declared.instruction.Operation as operation;
ghost use Rattle.f77_code.specs.Operation as meaning;
ghost use Rattle.f77_actions.specs.Number as exact;
ghost use Rattle.f77_actions.specs.Encoded.{Encodes, IsValueOrFault, HasValue};
ghost use Rattle.f77_actions.specs.Value.{given};
ghost use Rattle.f77_code.specs.{point, ran, are_held, term_value, term_within};

use crate::assignment::write;
use crate::control::Turn;
use crate::ending::failed;
use crate::evaluate::operand;
use crate::instruction::Parameters;
use crate::registers::read;
use f77_actions::encoded::{UNDEFINED, ZERO_STEP, sum};
use f77_actions::number::trip_count;

/// Sets the counter of a DO, and goes to its body if it has a pass to make.
#[inline(always)]
#[tactic(auto, using(crate::proofs::Points::pass_none, crate::proofs::Points::pass_some))]
fn pass(counter: u32, body: u32, next: u32, passes: u64, step: i32, turns: &mut [Turn]) -> usize
    requires { counter < length turns.old }
    ensures { (registers : List ℤ)
        → point result registers turns.new ≡ meaning.passed counter body next passes step registers turns.old }
{
    turns[counter as usize] = Turn { passes, step };
    if passes == 0 {
        return next as usize;
    }
    body as usize
}

/// A number that stands for a value, in 32 bits.
#[inline(always)]
fn value(x: i64) -> i32
    requires valid { IsValueOrFault x }
    requires value { HasValue x }
    ensures { result ≡ x }
{
    x as i32
}

/// The trip count of a DO with these parameters.
#[inline(always)]
fn passes_within(first: i64, last: i64, step: i64) -> u64
    requires first { IsValueOrFault first }
    requires last { IsValueOrFault last }
    requires step { IsValueOrFault step }
    requires begins { HasValue first }
    requires ends { HasValue last }
    requires goes { HasValue step }
    requires some { step ≢ pos 0 }
    ensures { result ≡ exact.trip_count first last step }
{
    let from = value(first);
    let to = value(last);
    let by = value(step);
    trip_count(from, to, by)
}

/// Begins a DO with these parameters, or ends the run by the first of them that stands for a fault.
#[inline(always)]
#[tactic(auto, using(crate::proofs::Points::zero_code_valid, crate::proofs::Points::least_from))]
pub(crate) fn begun(
    variable: u32,
    counter: u32,
    body: u32,
    first: i64,
    last: i64,
    step: i64,
    next: u32,
    registers: &mut [i64],
    turns: &mut [Turn],
) -> usize
    requires held { are_held registers.old ≡ true }
    requires variable { variable < length registers.old }
    requires counter { counter < length turns.old }
    requires first { IsValueOrFault first }
    requires last { IsValueOrFault last }
    requires step { IsValueOrFault step }
    ensures runs { (a b c : Result ℤ Fault) → Encodes first a → Encodes last b → Encodes step c
        → point result registers.new turns.new
        ≡ meaning.begun_with variable counter body next a b c registers.old turns.old }
    ensures held { are_held registers.new ≡ true }
{
    if UNDEFINED <= first {
        return failed(first);
    }
    if UNDEFINED <= last {
        return failed(last);
    }
    if UNDEFINED <= step {
        return failed(step);
    }
    if step == 0 {
        return failed(ZERO_STEP);
    }
    write(registers, variable as usize, first);
    let passes = passes_within(first, last, step);
    let by = value(step);
    pass(counter, body, next, passes, by, turns)
}

#[inline(never)]
pub(crate) fn begin(
    variable: u32,
    counter: u32,
    body: u32,
    parameters: &Parameters,
    next: u32,
    registers: &mut [i64],
    turns: &mut [Turn],
) -> usize
    requires held { are_held registers.old ≡ true }
    requires variable { variable < length registers.old }
    requires counter { counter < length turns.old }
    requires first { term_within (length registers.old) parameters.now.first ≡ true }
    requires last { term_within (length registers.old) parameters.now.last ≡ true }
    requires step { term_within (length registers.old) parameters.now.step ≡ true }
    ensures runs { let before = registers.old in point result registers.new turns.new
        ≡ meaning.begun_with variable counter body next (term_value before parameters.now.first)
        (term_value before parameters.now.last) (term_value before parameters.now.step) before turns.old }
    ensures held { are_held registers.new ≡ true }
{
    let first = operand(&parameters.first, registers);
    let last = operand(&parameters.last, registers);
    let step = operand(&parameters.step, registers);
    begun(
        variable, counter, body, first, last, step, next, registers, turns,
    )
}

/// One pass less. No active DO has 0 passes left, so nothing wraps.
#[inline(always)]
#[tactic(auto, using(crate::proofs::Points::less_wrapped))]
fn one_less(passes: u64) -> u64
    ensures { result ≡ meaning.one_less passes }
{
    passes.wrapping_sub(1)
}

/// The next value of a DO variable.
#[inline(always)]
#[tactic(auto, using(crate::proofs::Points::narrow_valid))]
fn advanced(value: i64, step: i32) -> i64
    requires { IsValueOrFault value }
    ensures { (r : Result ℤ Fault)
        → Encodes value r → Encodes result (given r (λ z. exact.in_range (z +ℤ step))) }
{
    sum(value, i64::from(step))
}

#[inline(always)]
#[tactic(auto, using(crate::proofs::Points::least_from))]
pub(crate) fn increment(
    variable: u32,
    counter: u32,
    body: u32,
    next: u32,
    registers: &mut [i64],
    turns: &mut [Turn],
) -> usize
    requires held { are_held registers.old ≡ true }
    requires variable { variable < length registers.old }
    requires counter { counter < length turns.old }
    ensures runs { point result registers.new turns.new
        ≡ ran (operation.Next variable counter body) next registers.old turns.old }
    ensures held { are_held registers.new ≡ true }
{
    let turn = turns[counter as usize];
    let value = read(registers, variable);
    let x = advanced(value, turn.step);
    if UNDEFINED <= x {
        return failed(x);
    }
    write(registers, variable as usize, x);
    let passes = one_less(turn.passes);
    pass(counter, body, next, passes, turn.step, turns)
}

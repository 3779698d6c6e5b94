//! The execution of an operation.

ghost use Rattle.std.specs.Prelude.{◌≡◌, ◌==◌, true, length, if◌then◌else◌, pos};
ghost use Rattle.f77_actions.specs.Number.{is_same};
ghost use Rattle.f77_code.specs.{operation_within, point, ran, used_in_code, are_held, term_value, term_within};

use crate::assignment::{put, set_element, set_matrix};
use crate::branching::{branch, select, sign};
use crate::control::Turn;
use crate::ending::{RETURNED, STOPPED, TRAPPED, failed};
use crate::evaluate::{
    compared_at, condition, difference_at, element_of, operand, product_at, sum_at,
};
use crate::instruction::Operation;
use crate::looping::{begin, begun, increment};
use crate::operators::compared;
use crate::registers::read;
use crate::term::Term;
use f77_actions::encoded::UNDEFINED;

/// Executes an operation from which control goes on to `next`, and gives the next place. It is inlined in the inner
/// loop, which the compiler does up to a size, so some long operations have functions of their own.
#[cycle(operations)]
#[inline(always)]
pub(crate) fn perform(
    operation: &Operation,
    next: u32,
    registers: &mut [i64],
    turns: &mut [Turn],
) -> usize
    requires held { are_held registers.old ≡ true }
    requires within { operation_within (length registers.old) (length turns.old) operation.now ≡ true }
    ensures runs { point result registers.new turns.new ≡ ran operation.now next registers.old turns.old }
    ensures held { are_held registers.new ≡ true }
{
    match operation {
        Operation::Set(to, term) => put(*to as usize, operand(term, registers), next, registers),
        Operation::SetElement { first, bound, pair } => set_element(
            *first, *bound, pair, next, registers,
        ),
        Operation::SetMatrix {
            first,
            rows,
            columns,
            pair,
            term,
        } => set_matrix(*first, *rows, *columns, pair, term, next, registers),
        Operation::IfTrue(then, term) => branch(operand(term, registers), *then, next),
        Operation::IfRelated(relation, then, pair) => {
            let x = operand(&pair.left, registers);
            let y = operand(&pair.right, registers);
            branch(compared(*relation, x, y), *then, next)
        }
        Operation::IfCompared {
            relation,
            left,
            right,
            then,
        } => {
            let x = compared_at(registers, *relation, *left, *right);
            branch(x, *then, next)
        }
        Operation::Do {
            variable,
            counter,
            body,
            parameters,
        } => begin(
            *variable, *counter, *body, parameters, next, registers, turns,
        ),
        Operation::Count {
            variable,
            counter,
            body,
            first,
            last,
            step,
        } => {
            let first = read(registers, *first);
            let last = read(registers, *last);
            let step = read(registers, *step);
            begun(
                *variable, *counter, *body, first, last, step, next, registers, turns,
            )
        }
        Operation::Next {
            variable,
            counter,
            body,
        } => increment(*variable, *counter, *body, next, registers, turns),
        Operation::Sign {
            negative,
            zero,
            positive,
            term,
        } => sign(*negative, *zero, *positive, term, registers),
        Operation::Select(term, places) => select(term, places, next, registers),
        Operation::When(term, inner) => when(term, inner, next, registers, turns),
        Operation::Continue => next as usize,
        Operation::Goto(then) => *then as usize,
        Operation::Return => RETURNED,
        Operation::Stop => STOPPED,
        Operation::Trap => TRAPPED,
        Operation::Move { to, from } => put(*to as usize, read(registers, *from), next, registers),
        Operation::Add { to, left, right } => {
            let x = sum_at(registers, *left, *right);
            put(*to as usize, x, next, registers)
        }
        Operation::Subtract { to, left, right } => {
            let x = difference_at(registers, *left, *right);
            put(*to as usize, x, next, registers)
        }
        Operation::Multiply { to, left, right } => {
            let x = product_at(registers, *left, *right);
            put(*to as usize, x, next, registers)
        }
        Operation::Load {
            to,
            first,
            bound,
            subscript,
        } => {
            let x = element_of(registers, *first, *bound, *subscript);
            put(*to as usize, x, next, registers)
        }
    }
}

/// Executes a logical IF.
#[cycle(operations)]
#[inline(always)]
#[tactic(auto, using(crate::proofs::Points::least_from))]
fn when(
    term: &Term,
    inner: &Operation,
    next: u32,
    registers: &mut [i64],
    turns: &mut [Turn],
) -> usize
    requires held { are_held registers.old ≡ true }
    requires term { term_within (length registers.old) term.now ≡ true }
    requires inner { operation_within (length registers.old) (length turns.old) inner.now ≡ true }
    ensures runs { let before = registers.old in let counters = turns.old in point result registers.new turns.new
        ≡ used_in_code (term_value before term.now) before counters
        (λ z. if is_same z (pos 0) then point next before counters else ran inner.now next before counters) }
    ensures held { are_held registers.new ≡ true }
{
    let x = condition(term, registers);
    if UNDEFINED <= x {
        return failed(x);
    }
    if x == 0 {
        return next as usize;
    }
    perform_inner(inner, next, registers, turns)
}

/// Executes the operation in a logical IF. This is a function of its own, so that the other operations are inlined in
/// the inner loop.
#[cycle(operations)]
#[inline(never)]
fn perform_inner(
    operation: &Operation,
    next: u32,
    registers: &mut [i64],
    turns: &mut [Turn],
) -> usize
    requires held { are_held registers.old ≡ true }
    requires within { operation_within (length registers.old) (length turns.old) operation.now ≡ true }
    ensures runs { point result registers.new turns.new ≡ ran operation.now next registers.old turns.old }
    ensures held { are_held registers.new ≡ true }
{
    perform(operation, next, registers, turns)
}

//! The values of terms over registers (ANSI X3.9-1978, section 6). Each number stands for a value or a fault.

ghost use Rattle.std.specs.Prelude.{◌≡◌, ◌≤◌, ◌<◌, ◌+◌, ◌*◌, true, length, Ok};
ghost use Rattle.f77_actions.specs.declared.expression.Arithmetic.TheVariants as arithmetic;
ghost use Rattle.f77_code.specs.Evaluation as meaning;
ghost use Rattle.f77_actions.specs.Number.{fits, in_range, negated, without_sign};
ghost use Rattle.f77_actions.specs.Encoded.{Encodes, negation};
ghost use Rattle.f77_actions.specs.Value.{given, both, pushed};
ghost use Rattle.f77_code.specs.{are_held, register, vector_place, matrix_place, element_at, connected_number};
ghost use Rattle.f77_code.specs.{related_number, term_value, term_within};

use crate::operators::{calculated, compared, connected};
use crate::registers::{element, matrix_element, read};
use crate::term::{Pair, Term};
use f77_actions::encoded::{self, OVERFLOW, UNDEFINED};
use f77_actions::{Arithmetic, Connective, Relation};

#[inline(always)]
pub(crate) fn element_of(registers: &[i64], first: u32, bound: u32, subscript: u32) -> i64
    requires held { are_held registers.now ≡ true }
    requires array { first + bound ≤ length registers.now }
    requires subscript { subscript < length registers.now }
    ensures { Encodes result
        (element_at registers.now first (vector_place bound (register registers.now subscript))) }
{
    element(registers, first, bound, read(registers, subscript))
}

#[inline(always)]
pub(crate) fn sum_at(registers: &[i64], left: u32, right: u32) -> i64
    requires held { are_held registers.now ≡ true }
    requires left { left < length registers.now }
    requires right { right < length registers.now }
    ensures { Encodes result
        (both (meaning.calculated arithmetic.Add) (register registers.now left) (register registers.now right)) }
{
    encoded::sum(read(registers, left), read(registers, right))
}

#[inline(always)]
pub(crate) fn difference_at(registers: &[i64], left: u32, right: u32) -> i64
    requires held { are_held registers.now ≡ true }
    requires left { left < length registers.now }
    requires right { right < length registers.now }
    ensures { Encodes result
        (both (meaning.calculated arithmetic.Subtract) (register registers.now left) (register registers.now right)) }
{
    encoded::difference(read(registers, left), read(registers, right))
}

#[inline(always)]
pub(crate) fn product_at(registers: &[i64], left: u32, right: u32) -> i64
    requires held { are_held registers.now ≡ true }
    requires left { left < length registers.now }
    requires right { right < length registers.now }
    ensures { Encodes result
        (both (meaning.calculated arithmetic.Multiply) (register registers.now left) (register registers.now right)) }
{
    encoded::product(read(registers, left), read(registers, right))
}

#[inline(always)]
pub(crate) fn compared_at(registers: &[i64], relation: Relation, left: u32, right: u32) -> i64
    requires held { are_held registers.now ≡ true }
    requires left { left < length registers.now }
    requires right { right < length registers.now }
    ensures { Encodes result
        (both (related_number relation) (register registers.now left) (register registers.now right)) }
{
    compared(relation, read(registers, left), read(registers, right))
}

/// The value of a term. A node with terms below it has a function of its own.
#[cycle(values)]
#[inline(never)]
#[tactic(auto, using(crate::proofs::Reading::overflow_encodes))]
pub(crate) fn evaluated(term: &Term, registers: &[i64]) -> i64
    requires held { are_held registers.now ≡ true }
    requires within { term_within (length registers.now) term.now ≡ true }
    ensures { Encodes result (term_value registers.now term.now) }
{
    match term {
        Term::Register(r) => read(registers, *r),
        Term::Element {
            first,
            bound,
            subscript,
        } => element_of(registers, *first, *bound, *subscript),
        Term::MatrixAt {
            first,
            rows,
            columns,
            row,
            column,
        } => {
            let row = read(registers, *row);
            let column = read(registers, *column);
            matrix_element(registers, *first, *rows, *columns, row, column)
        }
        Term::Sum(left, right) => sum_at(registers, *left, *right),
        Term::Difference(left, right) => difference_at(registers, *left, *right),
        Term::Product(left, right) => product_at(registers, *left, *right),
        Term::Compared(relation, left, right) => compared_at(registers, *relation, *left, *right),
        Term::TooLarge => OVERFLOW,
        Term::Vector {
            first,
            bound,
            subscript,
        } => vector_of(registers, *first, *bound, subscript),
        Term::Matrix {
            first,
            rows,
            columns,
            pair,
        } => matrix_of(registers, *first, *rows, *columns, pair),
        Term::Add(pair) => sum_of(pair, registers),
        Term::Subtract(pair) => difference_of(pair, registers),
        Term::Multiply(pair) => product_of(pair, registers),
        Term::Calculated(operation, pair) => calculated_of(*operation, pair, registers),
        Term::Negated(operand) => negated_of(operand, registers),
        Term::Absolute(operand) => absolute_of(operand, registers),
        Term::ZeroPush(operand) => pushed_of(operand, registers),
        Term::Related(relation, pair) => related_of(*relation, pair, registers),
        Term::Connected(connective, pair) => connected_of(*connective, pair, registers),
        Term::Not(operand) => not_of(operand, registers),
    }
}

/// The value of a term. It needs no call for a register, or for an element whose subscript is in a register.
#[cycle(values)]
#[inline(always)]
pub(crate) fn operand(term: &Term, registers: &[i64]) -> i64
    requires held { are_held registers.now ≡ true }
    requires within { term_within (length registers.now) term.now ≡ true }
    ensures { Encodes result (term_value registers.now term.now) }
{
    match term {
        Term::Register(r) => read(registers, *r),
        Term::Element {
            first,
            bound,
            subscript,
        } => element_of(registers, *first, *bound, *subscript),
        _ => evaluated(term, registers),
    }
}

/// The value of a condition. It needs no call for a comparison of two registers.
#[inline(always)]
pub(crate) fn condition(term: &Term, registers: &[i64]) -> i64
    requires held { are_held registers.now ≡ true }
    requires within { term_within (length registers.now) term.now ≡ true }
    ensures { Encodes result (term_value registers.now term.now) }
{
    match term {
        Term::Compared(relation, left, right) => compared_at(registers, *relation, *left, *right),
        _ => evaluated(term, registers),
    }
}

#[cycle(values)]
#[inline(never)]
fn vector_of(registers: &[i64], first: u32, bound: u32, subscript: &Term) -> i64
    requires held { are_held registers.now ≡ true }
    requires array { first + bound ≤ length registers.now }
    requires within { term_within (length registers.now) subscript.now ≡ true }
    ensures { Encodes result
        (element_at registers.now first (vector_place bound (term_value registers.now subscript.now))) }
{
    element(registers, first, bound, operand(subscript, registers))
}

#[cycle(values)]
#[inline(never)]
fn matrix_of(registers: &[i64], first: u32, rows: u32, columns: u32, pair: &Pair) -> i64
    requires held { are_held registers.now ≡ true }
    requires array { first + rows * columns ≤ length registers.now }
    requires row { term_within (length registers.now) pair.now.left ≡ true }
    requires column { term_within (length registers.now) pair.now.right ≡ true }
    ensures { Encodes result
        (element_at registers.now first (matrix_place rows columns (term_value registers.now pair.now.left)
        (term_value registers.now pair.now.right))) }
{
    let row = operand(&pair.left, registers);
    let column = operand(&pair.right, registers);
    matrix_element(registers, first, rows, columns, row, column)
}

#[cycle(values)]
#[inline(never)]
fn sum_of(pair: &Pair, registers: &[i64]) -> i64
    requires held { are_held registers.now ≡ true }
    requires left { term_within (length registers.now) pair.now.left ≡ true }
    requires right { term_within (length registers.now) pair.now.right ≡ true }
    ensures { Encodes result (both (meaning.calculated arithmetic.Add)
        (term_value registers.now pair.now.left) (term_value registers.now pair.now.right)) }
{
    let left = operand(&pair.left, registers);
    let right = operand(&pair.right, registers);
    encoded::sum(left, right)
}

#[cycle(values)]
#[inline(never)]
fn difference_of(pair: &Pair, registers: &[i64]) -> i64
    requires held { are_held registers.now ≡ true }
    requires left { term_within (length registers.now) pair.now.left ≡ true }
    requires right { term_within (length registers.now) pair.now.right ≡ true }
    ensures { Encodes result (both (meaning.calculated arithmetic.Subtract)
        (term_value registers.now pair.now.left) (term_value registers.now pair.now.right)) }
{
    let left = operand(&pair.left, registers);
    let right = operand(&pair.right, registers);
    encoded::difference(left, right)
}

#[cycle(values)]
#[inline(never)]
fn product_of(pair: &Pair, registers: &[i64]) -> i64
    requires held { are_held registers.now ≡ true }
    requires left { term_within (length registers.now) pair.now.left ≡ true }
    requires right { term_within (length registers.now) pair.now.right ≡ true }
    ensures { Encodes result (both (meaning.calculated arithmetic.Multiply)
        (term_value registers.now pair.now.left) (term_value registers.now pair.now.right)) }
{
    let left = operand(&pair.left, registers);
    let right = operand(&pair.right, registers);
    encoded::product(left, right)
}

#[cycle(values)]
#[inline(never)]
fn calculated_of(operation: Arithmetic, pair: &Pair, registers: &[i64]) -> i64
    requires held { are_held registers.now ≡ true }
    requires left { term_within (length registers.now) pair.now.left ≡ true }
    requires right { term_within (length registers.now) pair.now.right ≡ true }
    ensures { Encodes result (both (meaning.calculated operation) (term_value registers.now pair.now.left)
        (term_value registers.now pair.now.right)) }
{
    let left = operand(&pair.left, registers);
    let right = operand(&pair.right, registers);
    calculated(operation, left, right)
}

#[cycle(values)]
#[inline(never)]
fn related_of(relation: Relation, pair: &Pair, registers: &[i64]) -> i64
    requires held { are_held registers.now ≡ true }
    requires left { term_within (length registers.now) pair.now.left ≡ true }
    requires right { term_within (length registers.now) pair.now.right ≡ true }
    ensures { Encodes result (both (related_number relation) (term_value registers.now pair.now.left)
        (term_value registers.now pair.now.right)) }
{
    let left = operand(&pair.left, registers);
    let right = operand(&pair.right, registers);
    compared(relation, left, right)
}

#[cycle(values)]
#[inline(never)]
fn connected_of(connective: Connective, pair: &Pair, registers: &[i64]) -> i64
    requires held { are_held registers.now ≡ true }
    requires left { term_within (length registers.now) pair.now.left ≡ true }
    requires right { term_within (length registers.now) pair.now.right ≡ true }
    ensures { Encodes result (both (connected_number connective) (term_value registers.now pair.now.left)
        (term_value registers.now pair.now.right)) }
{
    let left = operand(&pair.left, registers);
    let right = operand(&pair.right, registers);
    connected(connective, left, right)
}

#[cycle(values)]
#[inline(never)]
fn negated_of(term: &Term, registers: &[i64]) -> i64
    requires held { are_held registers.now ≡ true }
    requires within { term_within (length registers.now) term.now ≡ true }
    ensures { Encodes result (given (term_value registers.now term.now) (λ z. in_range (negated z))) }
{
    encoded::negated(operand(term, registers))
}

#[cycle(values)]
#[inline(never)]
fn absolute_of(term: &Term, registers: &[i64]) -> i64
    requires held { are_held registers.now ≡ true }
    requires within { term_within (length registers.now) term.now ≡ true }
    ensures { Encodes result (given (term_value registers.now term.now) (λ z. in_range (without_sign z))) }
{
    encoded::absolute(operand(term, registers))
}

#[cycle(values)]
#[inline(never)]
fn pushed_of(term: &Term, registers: &[i64]) -> i64
    requires held { are_held registers.now ≡ true }
    requires within { term_within (length registers.now) term.now ≡ true }
    ensures { Encodes result (given (term_value registers.now term.now) pushed) }
{
    encoded::pushed(operand(term, registers))
}

#[cycle(values)]
#[inline(never)]
fn not_of(term: &Term, registers: &[i64]) -> i64
    requires held { are_held registers.now ≡ true }
    requires within { term_within (length registers.now) term.now ≡ true }
    ensures { Encodes result (given (term_value registers.now term.now) (λ z. Ok (negation z))) }
{
    encoded::negation(operand(term, registers))
}

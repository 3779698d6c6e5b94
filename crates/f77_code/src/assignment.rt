//! The execution of assignments (ANSI X3.9-1978, 10.1 and 10.2). Each function gives the next place.

ghost use Rattle.std.specs.Prelude.{◌≡◌, ◌≤◌, ◌<◌, ◌+◌, ◌*◌, true, length, slice_set, List};
ghost use Rattle.std.specs.Prelude.{ℤ, Result};
ghost use Rattle.f77_actions.specs.declared.finish.Fault.{Fault};
ghost use Rattle.f77_code.specs.declared.control.Turn.{Turn};
ghost use Rattle.f77_code.specs.Operation as meaning;
ghost use Rattle.f77_actions.specs.Encoded.{Encodes, IsValueOrFault};
ghost use Rattle.f77_code.specs.{are_held, vector_place, matrix_place, term_value, term_within};

use crate::ending::failed;
use crate::evaluate::operand;
use crate::registers::{matrix_offset, misplaced, offset};
use crate::term::{Pair, Term};
use f77_actions::encoded::UNDEFINED;

#[inline(always)]
pub(crate) fn write(registers: &mut [i64], to: usize, x: i64)
    requires { to < length registers.old }
    ensures { registers.new ≡ slice_set registers.old to x }
{
    registers[to] = x;
}

/// Writes a number into a register and goes on; or ends the run, where the number stands for a fault.
#[inline(always)]
#[tactic(auto, using(crate::proofs::Points::least_from))]
pub(crate) fn put(to: usize, x: i64, next: u32, registers: &mut [i64]) -> usize
    requires to { to < length registers.old }
    requires x { IsValueOrFault x }
    requires held { are_held registers.old ≡ true }
    ensures runs { (r : Result ℤ Fault) (turns : List Turn) → Encodes x r
        → meaning.point result registers.new turns ≡ meaning.put_in_register to r next registers.old turns }
    ensures held { are_held registers.new ≡ true }
{
    if UNDEFINED <= x {
        return failed(x);
    }
    write(registers, to, x);
    next as usize
}

#[inline(never)]
pub(crate) fn set_element(
    first: u32,
    bound: u32,
    pair: &Pair,
    next: u32,
    registers: &mut [i64],
) -> usize
    requires held { are_held registers.old ≡ true }
    requires array { first + bound ≤ length registers.old }
    requires left { term_within (length registers.old) pair.now.left ≡ true }
    requires right { term_within (length registers.old) pair.now.right ≡ true }
    ensures runs { (turns : List Turn) → meaning.point result registers.new turns
        ≡ meaning.put_at first (vector_place bound (term_value registers.old pair.now.left))
        (term_value registers.old pair.now.right) next
        registers.old turns }
    ensures held { are_held registers.new ≡ true }
{
    let subscript = operand(&pair.left, registers);
    let offset = offset(subscript);
    if u64::from(bound) <= offset {
        return failed(misplaced(subscript, subscript));
    }
    let x = operand(&pair.right, registers);
    put(first as usize + offset as usize, x, next, registers)
}

#[inline(never)]
pub(crate) fn set_matrix(
    first: u32,
    rows: u32,
    columns: u32,
    pair: &Pair,
    term: &Term,
    next: u32,
    registers: &mut [i64],
) -> usize
    requires held { are_held registers.old ≡ true }
    requires array { first + rows * columns ≤ length registers.old }
    requires left { term_within (length registers.old) pair.now.left ≡ true }
    requires right { term_within (length registers.old) pair.now.right ≡ true }
    requires within { term_within (length registers.old) term.now ≡ true }
    ensures runs { (turns : List Turn) → meaning.point result registers.new turns
        ≡ meaning.put_at first
        (matrix_place rows columns (term_value registers.old pair.now.left) (term_value registers.old pair.now.right))
        (term_value registers.old term.now) next registers.old turns }
    ensures held { are_held registers.new ≡ true }
{
    let row = operand(&pair.left, registers);
    let column = operand(&pair.right, registers);
    let down = offset(row);
    if u64::from(rows) <= down {
        return failed(misplaced(row, column));
    }
    let across = offset(column);
    if u64::from(columns) <= across {
        return failed(misplaced(row, column));
    }
    let place = matrix_offset(rows, columns, down, across);
    let x = operand(term, registers);
    put(first as usize + place, x, next, registers)
}

//! Reading registers, and the elements of arrays in them.

ghost use Rattle.std.specs.Prelude.{◌≡◌, ◌≤◌, ◌<◌, ◌+◌, ◌*◌, ◌≤ℤ◌, true, length, pos};
ghost use Rattle.std.specs.Prelude.{ℤ, Result};
ghost use Rattle.f77_actions.specs.declared.finish.Fault.{Fault};
ghost use Rattle.f77_code.specs.code.Registers as meaning;
ghost use Rattle.f77_actions.specs.Encoded.{Encodes, IsValueOrFault};
ghost use Rattle.f77_code.specs.{are_held, register, vector_place, matrix_place, element_at};

use f77_actions::encoded::{BAD_SUBSCRIPT, UNDEFINED};

#[inline(always)]
#[tactic(auto, using(crate::proofs::Reading::read_encodes))]
pub(crate) fn read(registers: &[i64], r: u32) -> i64
    requires held { are_held registers.now ≡ true }
    requires within { r < length registers.now }
    ensures { Encodes result (register registers.now r) }
{
    registers[r as usize]
}

#[inline(always)]
#[tactic(auto, using(crate::proofs::Reading::read_encodes))]
fn read_at(registers: &[i64], first: u32, place: usize) -> i64
    requires held { are_held registers.now ≡ true }
    requires within { first + place < length registers.now }
    ensures { Encodes result (register registers.now (first + place)) }
{
    registers[first as usize + place]
}

/// How far a subscript is from the first element. It is beyond all bounds where the subscript is below 1 or stands for
/// a fault.
#[inline(always)]
#[tactic(auto, using(crate::proofs::Reading::offset_is))]
pub(crate) fn offset(subscript: i64) -> u64
    requires { IsValueOrFault subscript }
    ensures { meaning.IsOffset subscript result }
{
    (subscript - 1).cast_unsigned()
}

/// The value of an element of an array of one dimension.
#[inline(always)]
pub(crate) fn element(registers: &[i64], first: u32, bound: u32, subscript: i64) -> i64
    requires held { are_held registers.now ≡ true }
    requires within { first + bound ≤ length registers.now }
    requires subscript { IsValueOrFault subscript }
    ensures { (r : Result ℤ Fault)
        → Encodes subscript r → Encodes result (element_at registers.now first (vector_place bound r)) }
{
    let offset = offset(subscript);
    if offset < u64::from(bound) {
        return read_at(registers, first, offset as usize);
    }
    if subscript < UNDEFINED {
        return BAD_SUBSCRIPT;
    }
    subscript
}

/// The place of an element in an array of two dimensions, from 0. Columns follow one another.
#[inline(always)]
#[tactic(auto, using(crate::proofs::Reading::in_matrix))]
pub(crate) fn matrix_offset(rows: u32, columns: u32, row: u64, column: u64) -> usize
    requires row { row < rows }
    requires column { column < columns }
    ensures place { result ≡ row + rows * column }
    ensures within { result < rows * columns }
{
    row as usize + rows as usize * column as usize
}

/// The fault of two subscripts that name no element: that of the row, else that of the column, else BadSubscript.
#[cold]
#[inline(never)]
#[tactic(auto, using(crate::proofs::Reading::bad_row, crate::proofs::Reading::bad_column, crate::proofs::Reading::bad_neither, crate::proofs::Points::least_from, crate::proofs::Points::bad_code_valid))]
pub(crate) fn misplaced(row: i64, column: i64) -> i64
    requires row { IsValueOrFault row }
    requires column { IsValueOrFault column }
    ensures valid { IsValueOrFault result }
    ensures fault { pos 1099511627776 ≤ℤ result }
    ensures is { (r q : Result ℤ Fault)
        → Encodes row r → Encodes column q → Encodes result (meaning.misplaced_in_matrix r q) }
{
    if UNDEFINED <= row {
        return row;
    }
    if UNDEFINED <= column {
        return column;
    }
    BAD_SUBSCRIPT
}

/// The value of an element of an array of two dimensions.
#[inline(always)]
pub(crate) fn matrix_element(
    registers: &[i64],
    first: u32,
    rows: u32,
    columns: u32,
    row: i64,
    column: i64,
) -> i64
    requires held { are_held registers.now ≡ true }
    requires within { first + rows * columns ≤ length registers.now }
    requires row { IsValueOrFault row }
    requires column { IsValueOrFault column }
    ensures { (r q : Result ℤ Fault) → Encodes row r → Encodes column q
        → Encodes result (element_at registers.now first (matrix_place rows columns r q)) }
{
    let down = offset(row);
    if u64::from(rows) <= down {
        return misplaced(row, column);
    }
    let across = offset(column);
    if u64::from(columns) <= across {
        return misplaced(row, column);
    }
    read_at(registers, first, matrix_offset(rows, columns, down, across))
}

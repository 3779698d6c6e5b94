//! The text of what is told of mutants that are not named: rows, which are tests that may kill them, as the key `suite`
//! of a job has them, and where their proofs were given up.

ghost use Rattle.std.specs.Prelude.{◌≡◌, ◌++◌, OnOk, flat_map, string_bytes};
ghost use Rattle.equivalents_app.specs.Prelude.{signed_decimal};
ghost use Rattle.equivalents_app.specs.{json_value, left_lines, row_lines, truth_text};

use f77_meaning::Arg;
use f77_program::print_enclosed;
use mothra_equivalents::Unproved;
use mothra_ops::push_name;
use std::alloc::AllocError;

fn push_number(text: &mut String, number: &i32) -> Result<(), AllocError>
    ensures { OnOk result (string_bytes text.new ≡ string_bytes text.old ++ signed_decimal number.now) }
{
    write!(text, "{number}")
}

fn push_truth(text: &mut String, truth: &bool) -> Result<(), AllocError>
    ensures { OnOk result (string_bytes text.new ≡ string_bytes text.old ++ truth_text truth.now) }
{
    text.push_str(if *truth { "true" } else { "false" })
}

/// Adds the value of a dummy argument.
fn push_argument(text: &mut String, argument: &Arg) -> Result<(), AllocError>
    ensures { OnOk result (string_bytes text.new ≡ string_bytes text.old ++ json_value argument.now) }
{
    match argument {
        Arg::Int(number) => push_number(text, number),
        Arg::Truth(truth) => push_truth(text, truth),
        Arg::Ints(numbers) => print_enclosed(text, "[", numbers.as_slice(), "]", push_number),
        Arg::Truths(truths) => print_enclosed(text, "[", truths.as_slice(), "]", push_truth),
    }
}

/// Adds a line for each row of a mutant.
fn push_rows_of(text: &mut String, every: u32, one: &Unproved) -> Result<(), AllocError>
    ensures { OnOk result (string_bytes text.new ≡ string_bytes text.old ++ row_lines every one.now) }
{
    for row in &one.rows {
        text.push_str("ROW ")?;
        push_name(text, every, one.ticket.op, one.ticket.number)?;
        text.push_str(" ")?;
        print_enclosed(text, "[", row.as_slice(), "]", push_argument)?;
        text.push_str("\n")?;
    }
    Ok(())
}

/// Adds a line for each row of the mutants.
pub(crate) fn push_rows(
    text: &mut String,
    every: u32,
    others: &[Unproved],
) -> Result<(), AllocError>
    ensures { OnOk result (string_bytes text.new ≡ string_bytes text.old ++ flat_map (row_lines every) others.now) }
{
    for one in others {
        push_rows_of(text, every, one)?;
    }
    Ok(())
}

/// Adds the line of a mutant whose proof was given up: where, and of what values were compared there, if any were.
fn push_left_of(text: &mut String, every: u32, one: &Unproved) -> Result<(), AllocError>
    ensures { OnOk result (string_bytes text.new ≡ string_bytes text.old ++ left_lines every one.now) }
{
    let Some(left) = one.left else {
        return Ok(());
    };
    let (own, other) = (left.own, left.other);
    text.push_str("LEFT ")?;
    push_name(text, every, one.ticket.op, one.ticket.number)?;
    match left.name {
        Some(name) => write!(text, " AT {own} {other} VALUES {name}\n"),
        None => write!(text, " AT {own} {other}\n"),
    }
}

/// Adds the lines of mutants whose proofs were given up.
pub(crate) fn push_left(
    text: &mut String,
    every: u32,
    others: &[Unproved],
) -> Result<(), AllocError>
    ensures { OnOk result (string_bytes text.new ≡ string_bytes text.old ++ flat_map (left_lines every) others.now) }
{
    for one in others {
        push_left_of(text, every, one)?;
    }
    Ok(())
}

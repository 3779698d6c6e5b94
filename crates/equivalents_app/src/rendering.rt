//! The text that names mutants of a plan.

ghost use Rattle.std.specs.Prelude.{◌≡◌, ◌++◌, IfOk, OnOk, flat_map, string_bytes};
ghost use Rattle.equivalents_app.specs.{entry_text, equivalent_line, json_line, lines_text};
ghost use Rattle.equivalents_app.specs.Rendering as definition;

use crate::others::{push_left, push_rows};
use f77_program::print_enclosed;
use mothra_app::listing::total_of;
use mothra_codes::Ticket;
use mothra_equivalents::{Equivalent, Found};
use mothra_ops::Plan;
use std::alloc::{AllocError, Global};

/// The greatest number that the key `equivalent` of a job takes.
const MOST: u64 = 1_048_575;

/// Adds what is promised of a mutant.
fn push_word(text: &mut String, spare: u64) -> Result<(), AllocError>
    ensures { OnOk result (string_bytes text.new ≡ string_bytes text.old ++ definition.word_text spare) }
{
    match spare {
        0 => text.push_str("EQUIVALENT "),
        spare => write!(text, "SPARE {spare} "),
    }
}

/// Adds the line of a mutant that is proved equivalent.
fn push_equivalent(text: &mut String, plan: &Plan, equivalent: Equivalent) -> Result<(), AllocError>
    ensures { OnOk result (string_bytes text.new ≡ string_bytes text.old ++ equivalent_line plan.now equivalent) }
{
    push_word(text, equivalent.spare)?;
    plan.push_text(text, equivalent.ticket.op, equivalent.ticket.number)?;
    text.push_str("\n")
}

/// Adds a line for each mutant that is proved equivalent.
fn push_equivalents(text: &mut String, plan: &Plan, list: &[Equivalent]) -> Result<(), AllocError>
    ensures { OnOk result
        (string_bytes text.new ≡ string_bytes text.old ++ flat_map (equivalent_line plan.now) list.now) }
{
    for equivalent in list {
        push_equivalent(text, plan, *equivalent)?;
    }
    Ok(())
}

/// Ends the last line: with how many mutants were left at the bound on work, if any.
fn push_unfinished(text: &mut String, unfinished: u64) -> Result<(), AllocError>
    ensures { OnOk result (string_bytes text.new ≡ string_bytes text.old ++ definition.unfinished_text unfinished) }
{
    match unfinished {
        0 => text.push_str("\n"),
        left => write!(text, ", {left} NOT FINISHED\n"),
    }
}

/// The lines of the named mutants of the plan, and of others; and the last one: how many are proved, of how many, and
/// how many were left at the bound on work, if any.
fn lines_of(alloc: Global, plan: &Plan, found: &Found) -> Result<String, AllocError>
    ensures { IfOk result (λ text. string_bytes text ≡ lines_text plan.now found.now) }
{
    let mut text = String::new(alloc);
    push_equivalents(&mut text, plan, &found.list)?;
    push_rows(&mut text, plan.every(), &found.others)?;
    push_left(&mut text, plan.every(), &found.others)?;
    let (count, total) = (found.list.len(), total_of(plan));
    write!(text, "PROVED {count} OF {total}")?;
    push_unfinished(&mut text, found.unfinished)?;
    Ok(text)
}

/// The name of a mutant by its number in the whole list, if a job may declare this number.
fn declared(every: u32, equivalent: Equivalent) -> Option<Ticket>
    ensures { result ≡ definition.if_declarable every equivalent }
{
    let Ticket { op, number } = equivalent.ticket;
    let original = u64::from(number.saturating_sub(1)) * u64::from(every) + 1;
    if original > MOST {
        return None;
    }
    let number = original as u32;
    Some(Ticket { op, number })
}

/// The mutants that a job may declare.
fn declarable(alloc: Global, every: u32, list: &[Equivalent]) -> Result<Vec<Ticket>, AllocError>
    ensures { IfOk result (λ tickets. tickets.items ≡ definition.declarable every list.now) }
{
    list.iter()
        .filter_map(|equivalent| declared(every, *equivalent))
        .collect(alloc)
}

/// Adds an entry of the JSON list.
fn push_entry(text: &mut String, ticket: &Ticket) -> Result<(), AllocError>
    ensures { OnOk result (string_bytes text.new ≡ string_bytes text.old ++ entry_text ticket.now) }
{
    let (code, number) = (ticket.op.code(), ticket.number);
    write!(text, "\"{code} {number}\"")
}

/// The line that has the JSON list of the mutants.
fn json_of(alloc: Global, every: u32, list: &[Equivalent]) -> Result<String, AllocError>
    ensures { IfOk result (λ text. string_bytes text ≡ json_line every list.now) }
{
    let mut text = String::new(alloc);
    let entries = declarable(alloc, every, list)?;
    print_enclosed(&mut text, "[", &entries, "]", push_entry)?;
    text.push_str("\n")?;
    Ok(text)
}

/// The text that names mutants of the plan: lines, with those of others behind them, or a JSON list.
pub(crate) fn text_of(
    alloc: Global,
    plan: &Plan,
    found: &Found,
    json: bool,
) -> Result<String, AllocError>
    ensures { IfOk result (λ text. string_bytes text ≡ definition.written_text plan.now found.now json) }
{
    if json {
        json_of(alloc, plan.every(), &found.list)
    } else {
        lines_of(alloc, plan, found)
    }
}

//! The text of a report.

ghost use Rattle.std.specs.Prelude.{◌≡◌, ◌++◌, map, flat_map, IfOk, IfErr, OnOk, string_bytes};
ghost use Rattle.f77_program.specs.Program.{line_of};
ghost use Rattle.mothra_ops.specs.Copies.{copied, statements_in};
ghost use Rattle.mothra_ops.specs.Mutants.{program_of};
ghost use Rattle.mothra_bench.specs.Report as definition;
ghost use Rattle.mothra_verdicts.specs.declared.fault.BenchFault.TheVariants.{Memory};
ghost use Rattle.mothra_bench.specs.{bits_of, counts_line, entry_lines, mutant_line, operator_lines, report_text};
ghost use Rattle.mothra_bench.specs.{score_line, status_of, survivor_line, wrong_line};

use crate::counts::Counts;
use crate::matrix::{Entry, Matrix};
use f77_legal::heading::unit;
use f77_program::Line;
use f77_tree::Shared;
use mothra_ops::{Copies, Op, Plan, push_name, write_name};
use mothra_verdicts::{Bench, BenchFault};
use std::alloc::{AllocError, Global};

/// The report of a matrix: the heading, the counts of each operator and of all, the score, each mutant
/// with its kills, the survivors, and the mutants that are wrongly declared equivalent.
pub fn render(alloc: Global, bench: &Bench, matrix: &Matrix) -> Result<String, BenchFault>
    ensures text { IfOk result (λ text. string_bytes text ≡ report_text bench.now matrix.now) }
    ensures memory { IfErr result (λ fault. fault ≡ Memory) }
{
    let mut text = String::new(alloc);
    push_heading(&mut text, bench)?;
    push_operators(&mut text, bench.plan(), matrix)?;
    let counts = Counts::of(matrix.entries());
    push_counts(&mut text, "TOTAL", &counts)?;
    push_score(&mut text, counts.score())?;
    push_entries(&mut text, bench.plan(), matrix.entries())?;
    text.push_str("END\n")?;
    Ok(text)
}

fn push_heading(text: &mut String, bench: &Bench) -> Result<(), AllocError>
    ensures { OnOk result (string_bytes text.new ≡ string_bytes text.old ++ definition.heading bench.now) }
{
    text.push_str("REPORT 2\n")?;
    push_unit(text, bench.plan().program().program().lines())?;
    let tests = bench.tests().len();
    let steps = bench.steps();
    let every = bench.plan().every();
    Ok(write!(text, "TESTS {tests}\nSTEPS {steps}\nEVERY {every}\n")?)
}

fn push_unit(text: &mut String, lines: &[Shared<Line>]) -> Result<(), AllocError>
    ensures { OnOk result
        (string_bytes text.new ≡ string_bytes text.old ++ definition.unit_line (map line_of lines.now)) }
{
    text.push_str("UNIT ")?;
    if let Some(name) = unit(lines) {
        text.push_str(name.as_str())?;
    }
    text.push('\n')
}

fn push_operators(text: &mut String, plan: &Plan, matrix: &Matrix) -> Result<(), AllocError>
    ensures { OnOk result (string_bytes text.new ≡ string_bytes text.old ++ operator_lines plan.now matrix.now) }
{
    let counts = Counts::of_operators(*text.allocator(), matrix.entries())?;
    for op in Op::ALL {
        if plan.asked(op) {
            push_counts(text, op.code(), &counts[op.index()])?;
        }
    }
    Ok(())
}

fn push_counts(text: &mut String, name: &str, counts: &Counts) -> Result<(), AllocError>
    ensures { OnOk result (string_bytes text.new ≡ string_bytes text.old ++ counts_line name.now counts.now) }
{
    let (total, killed, equivalent) = (counts.total(), counts.killed(), counts.equivalent());
    Ok(write!(text, "{name} {total} {killed} {equivalent}\n")?)
}

fn push_score(text: &mut String, score: Option<u32>) -> Result<(), AllocError>
    ensures { OnOk result (string_bytes text.new ≡ string_bytes text.old ++ score_line score) }
{
    let Some(score) = score else {
        return text.push_str("SCORE NONE\n");
    };
    let (percent, tenths, hundredths) = (score / 100, score % 100 / 10, score % 10);
    Ok(write!(text, "SCORE {percent}.{tenths}{hundredths}\n")?)
}

fn push_entries(text: &mut String, plan: &Plan, entries: &[Entry]) -> Result<(), AllocError>
    ensures { OnOk result (string_bytes text.new ≡ string_bytes text.old ++ entry_lines plan.now entries.now) }
{
    push_mutants(text, plan, entries)?;
    push_survivors(text, plan, entries)?;
    push_wrongs(text, plan, entries)
}

fn push_mutants(text: &mut String, plan: &Plan, entries: &[Entry]) -> Result<(), AllocError>
    ensures { OnOk result
        (string_bytes text.new ≡ string_bytes text.old ++ flat_map (mutant_line plan.now) entries.now) }
{
    for entry in entries {
        push_mutant(text, plan, entry)?;
    }
    Ok(())
}

fn push_mutant(text: &mut String, plan: &Plan, entry: &Entry) -> Result<(), AllocError>
    ensures { OnOk result (string_bytes text.new ≡ string_bytes text.old ++ mutant_line plan.now entry.now) }
{
    text.push_str("MUTANT ")?;
    write_name(text, plan.every(), entry.ticket.op, entry.ticket.number)?;
    text.push(' ')?;
    text.push_str(status(entry))?;
    text.push(' ')?;
    push_bits(text, entry.kills.as_slice())?;
    text.push('\n')
}

fn status(entry: &Entry) -> &'static str
    ensures { result.now ≡ status_of entry.now }
{
    match (entry.declared, entry.is_killed()) {
        (false, true) => "K",
        (false, false) => "S",
        (true, false) => "E",
        (true, true) => "W",
    }
}

fn push_bits(text: &mut String, kills: &[bool]) -> Result<(), AllocError>
    ensures { OnOk result (string_bytes text.new ≡ string_bytes text.old ++ bits_of kills.now) }
{
    if kills.is_empty() {
        return text.push('-');
    }
    for kill in kills {
        text.push(if *kill { '1' } else { '0' })?;
    }
    Ok(())
}

fn push_survivors(text: &mut String, plan: &Plan, entries: &[Entry]) -> Result<(), AllocError>
    ensures { OnOk result
        (string_bytes text.new ≡ string_bytes text.old ++ flat_map (survivor_line plan.now) entries.now) }
{
    let mut copies = Copies::of(*text.allocator(), plan.program().program().lines())?;
    for entry in entries {
        push_survivor(text, plan, &mut copies, entry)?;
    }
    Ok(())
}

fn push_survivor(
    text: &mut String,
    plan: &Plan,
    copies: &mut Copies,
    entry: &Entry,
) -> Result<(), AllocError>
    requires { copied copies.old ≡ statements_in (program_of plan.now) }
    ensures text { OnOk result (string_bytes text.new ≡ string_bytes text.old ++ survivor_line plan.now entry.now) }
    ensures copies { copied copies.new ≡ copied copies.old }
{
    if entry.declared || entry.is_killed() {
        return Ok(());
    }
    text.push_str("SURVIVOR ")?;
    let ticket = entry.ticket;
    plan.push_text_by(text, copies, ticket.op, ticket.number)?;
    text.push('\n')
}

fn push_wrongs(text: &mut String, plan: &Plan, entries: &[Entry]) -> Result<(), AllocError>
    ensures { OnOk result
        (string_bytes text.new ≡ string_bytes text.old ++ flat_map (wrong_line plan.now) entries.now) }
{
    for entry in entries {
        push_wrong(text, plan, entry)?;
    }
    Ok(())
}

fn push_wrong(text: &mut String, plan: &Plan, entry: &Entry) -> Result<(), AllocError>
    ensures { OnOk result (string_bytes text.new ≡ string_bytes text.old ++ wrong_line plan.now entry.now) }
{
    if !entry.declared || !entry.is_killed() {
        return Ok(());
    }
    text.push_str("WRONG ")?;
    push_name(text, plan.every(), entry.ticket.op, entry.ticket.number)?;
    text.push('\n')
}

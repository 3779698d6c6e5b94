//! The command `list`: the mutants of the program of a job.

ghost use Rattle.std.specs.Prelude.{◌≡◌, ◌++◌, ◌≤◌, IfErr, IfOk, OnOk, codes, string_bytes};
ghost use Rattle.mothra_app.specs.Listing as definition;
ghost use Rattle.mothra_ops.specs.Mutants.{mutant_text};
ghost use Rattle.mothra_app.specs.{of_mutants, GivesOutcome, IsListed, asked_total};

use crate::fault::Fault;
use crate::program::plan_of;
use mothra_cli::Operators;
use mothra_job::Job;
use mothra_ops::{Op, OpsFault, Plan};
use std::alloc::{AllocError, Global};

/// Adds the line with the code of an operator and the number of its mutants.
fn push_count(text: &mut String, op: Op, count: u32) -> Result<(), AllocError>
    ensures { OnOk result (string_bytes text.new ≡ string_bytes text.old ++ definition.count_line op count) }
{
    let code = op.code();
    write!(text, "{code} {count}\n")
}

/// Adds the line of the mutant of an operator with this number, from 1.
fn push_mutant(text: &mut String, plan: &Plan, op: Op, number: u32) -> Result<(), AllocError>
    ensures { OnOk result
        (string_bytes text.new ≡ string_bytes text.old ++ (mutant_text plan.now op number ++ codes "\n")) }
{
    plan.push_text(text, op, number)?;
    text.push_str("\n")
}

/// Adds the lines of an operator: how many mutants it has, then each mutant.
fn push_operator(text: &mut String, plan: &Plan, op: Op) -> Result<(), AllocError>
    ensures { OnOk result (string_bytes text.new ≡ string_bytes text.old ++ definition.plan_lines plan.now op) }
{
    let count = plan.count(op);
    push_count(text, op, count)?;
    for index in 0..count {
        push_mutant(text, plan, op, index + 1)?;
    }
    Ok(())
}

/// Adds the lines of each operator that was asked for, in the order of the operators.
fn push_operators(text: &mut String, plan: &Plan) -> Result<(), AllocError>
    ensures { OnOk result (string_bytes text.new ≡ string_bytes text.old ++ definition.asked_lines plan.now) }
{
    for op in Op::ALL {
        if plan.asked(op) {
            push_operator(text, plan, op)?;
        }
    }
    Ok(())
}

/// How many mutants a plan has.
pub fn total_of(plan: &Plan) -> u64
    ensures { result ≡ asked_total plan.now }
{
    let mut total = 0;
    for op in Op::ALL {
        if plan.asked(op) {
            total += u64::from(plan.count(op));
        }
    }
    total
}

/// The text of the list of a plan's mutants. No memory for it is O1, as it is for the plan.
fn text_of(alloc: Global, plan: &Plan) -> Result<String, OpsFault>
    ensures text { IfOk result (λ text. string_bytes text ≡ definition.plan_text plan.now) }
    ensures memory { IfErr result (λ fault. fault ≡ OpsFault.Memory) }
{
    let mut text = String::new(alloc);
    push_operators(&mut text, plan)?;
    let total = total_of(plan);
    write!(text, "TOTAL {total}\n")?;
    Ok(text)
}

/// The command `list`: the mutants of the program of a job, for these operators. Of each list every q-th item is kept,
/// from the first, where `every` is q.
pub(crate) fn list_mutants(
    alloc: Global,
    job: &Job,
    operators: &Operators,
    every: u32,
) -> Result<String, Fault>
    requires { 1 ≤ every }
    ensures { GivesOutcome string_bytes (IsListed job.now operators.now every) of_mutants result }
{
    let plan = plan_of(alloc, job, operators, every)?;
    Ok(text_of(alloc, &plan)?)
}

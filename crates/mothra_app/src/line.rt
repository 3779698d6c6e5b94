//! The line of a fault.

ghost use Rattle.std.specs.Prelude.{◌≡◌, IfOk, string_bytes};
ghost use Rattle.mothra_app.specs.Line as definition;

use crate::fault::Fault;
use f77_check::CheckFault;
use f77_meaning::RunFault;
use f77_source::FormFault;
use f77_syntax::SyntaxFault;
use mothra_bench::BenchFault;
use mothra_exchange::Ticket;
use mothra_job::JobFault;
use mothra_ops::OpsFault;
use std::alloc::{AllocError, Global};

/// The line of a fault without a detail.
fn plain_line(alloc: Global, code: &str) -> Result<String, AllocError>
    ensures { IfOk result (λ s. string_bytes s ≡ definition.plain_line code.now) }
{
    format!(in alloc; "FAULT {code}\n")
}

/// The line of a fault whose detail is the number of an argument or of an entry.
fn counted_line(alloc: Global, code: &str, number: usize) -> Result<String, AllocError>
    ensures { IfOk result (λ s. string_bytes s ≡ definition.numbered_line code.now number) }
{
    format!(in alloc; "FAULT {code} {number}\n")
}

/// The line of a fault whose detail is another number.
fn numbered_line(alloc: Global, code: &str, number: u32) -> Result<String, AllocError>
    ensures { IfOk result (λ s. string_bytes s ≡ definition.numbered_line code.now number) }
{
    counted_line(alloc, code, number as usize)
}

/// The line of a fault whose detail is a name.
fn named_line(alloc: Global, code: &str, name: &str) -> Result<String, AllocError>
    ensures { IfOk result (λ s. string_bytes s ≡ definition.named_line code.now name.now) }
{
    let shown = printable(alloc, name)?;
    format!(in alloc; "FAULT {code} {shown}\n")
}

/// The name, with a question mark in the place of each character outside 32 to 126.
fn printable(alloc: Global, name: &str) -> Result<String, AllocError>
    ensures { IfOk result (λ s. string_bytes s ≡ definition.printable name.now) }
{
    name.chars().map(shown).collect(alloc)
}

/// The character, or a question mark if it is outside 32 to 126.
fn shown(c: char) -> char
    ensures { result ≡ definition.shown_character c }
{
    if c >= ' ' && c <= '~' { c } else { '?' }
}

fn job_line(alloc: Global, fault: &JobFault) -> Result<String, AllocError>
    ensures { IfOk result (λ s. string_bytes s ≡ definition.job_line fault.now) }
{
    match fault {
        JobFault::Memory => plain_line(alloc, "J1"),
        JobFault::NotJson => plain_line(alloc, "J2"),
        JobFault::Key(key) => named_line(alloc, "J3", key.as_str()),
        JobFault::Suite(test) => numbered_line(alloc, "J4", *test),
        JobFault::Equivalent(entry) => counted_line(alloc, "J5", *entry),
        JobFault::TooManyTests => plain_line(alloc, "J6"),
        JobFault::TooLarge => plain_line(alloc, "J7"),
        JobFault::NoTest(test) => numbered_line(alloc, "J8", *test),
    }
}

fn form_line(alloc: Global, fault: FormFault) -> Result<String, AllocError>
    ensures { IfOk result (λ s. string_bytes s ≡ definition.form_line fault) }
{
    match fault {
        FormFault::Memory => plain_line(alloc, "F1"),
        FormFault::TooLarge => plain_line(alloc, "F2"),
        FormFault::NotAscii(line) => numbered_line(alloc, "F3", line),
        FormFault::Tab(line) => numbered_line(alloc, "F4", line),
        FormFault::BadLabel(line) => numbered_line(alloc, "F5", line),
        FormFault::LooseContinuation(line) => numbered_line(alloc, "F6", line),
        FormFault::TooManyContinuations(line) => numbered_line(alloc, "F7", line),
    }
}

fn syntax_line(alloc: Global, fault: SyntaxFault) -> Result<String, AllocError>
    ensures { IfOk result (λ s. string_bytes s ≡ definition.syntax_line fault) }
{
    match fault {
        SyntaxFault::Memory => plain_line(alloc, "S1"),
        SyntaxFault::Unknown(line) => numbered_line(alloc, "S2", line),
        SyntaxFault::BadName(line) => numbered_line(alloc, "S3", line),
        SyntaxFault::BadConstant(line) => numbered_line(alloc, "S4", line),
        SyntaxFault::TooDeep(line) => numbered_line(alloc, "S5", line),
        SyntaxFault::TooLong(line) => numbered_line(alloc, "S6", line),
        SyntaxFault::NoSubroutine => plain_line(alloc, "S7"),
        SyntaxFault::NoEnd => plain_line(alloc, "S8"),
        SyntaxFault::AfterEnd(line) => numbered_line(alloc, "S9", line),
    }
}

fn check_line(alloc: Global, fault: &CheckFault) -> Result<String, AllocError>
    ensures { IfOk result (λ s. string_bytes s ≡ definition.check_line fault.now) }
{
    match fault {
        CheckFault::Memory => plain_line(alloc, "C1"),
        CheckFault::RealName(name) => named_line(alloc, "C2", name.as_str()),
        CheckFault::Twice(name) => named_line(alloc, "C3", name.as_str()),
        CheckFault::TypeClash(line) => numbered_line(alloc, "C4", *line),
        CheckFault::Dimensions(line) => numbered_line(alloc, "C5", *line),
        CheckFault::DoubleLabel(label) => numbered_line(alloc, "C6", *label),
        CheckFault::NoLabel(line) => numbered_line(alloc, "C7", *line),
        CheckFault::BadTarget(line) => numbered_line(alloc, "C8", *line),
        CheckFault::IntoBlock(line) => numbered_line(alloc, "C9", *line),
        CheckFault::BadTerminal(line) => numbered_line(alloc, "C10", *line),
        CheckFault::Nesting(line) => numbered_line(alloc, "C11", *line),
        CheckFault::DoVariable(line) => numbered_line(alloc, "C12", *line),
        CheckFault::BadData(line) => numbered_line(alloc, "C13", *line),
        CheckFault::TooMany => plain_line(alloc, "C14"),
    }
}

fn run_line(alloc: Global, fault: RunFault) -> Result<String, AllocError>
    ensures { IfOk result (λ s. string_bytes s ≡ definition.run_line fault) }
{
    match fault {
        RunFault::Memory => plain_line(alloc, "N1"),
        RunFault::ArgumentCount => plain_line(alloc, "N2"),
        RunFault::ArgumentShape(argument) => counted_line(alloc, "N3", argument),
    }
}

fn ops_line(alloc: Global, fault: OpsFault) -> Result<String, AllocError>
    ensures { IfOk result (λ s. string_bytes s ≡ definition.ops_line fault) }
{
    match fault {
        OpsFault::Memory => plain_line(alloc, "O1"),
        OpsFault::NotASite => plain_line(alloc, "O2"),
        OpsFault::TooMany(op) => named_line(alloc, "O3", op.code()),
    }
}

/// The line of a fault whose detail is the name of a mutant.
fn mutant_line(alloc: Global, code: &str, ticket: Ticket) -> Result<String, AllocError>
    ensures { IfOk result (λ s. string_bytes s ≡ definition.mutant_fault_line code.now ticket) }
{
    let op = ticket.op.code();
    let number = ticket.number;
    format!(in alloc; "FAULT {code} {op} {number}\n")
}

fn bench_line(alloc: Global, fault: BenchFault) -> Result<String, AllocError>
    ensures { IfOk result (λ s. string_bytes s ≡ definition.bench_line fault) }
{
    match fault {
        BenchFault::Memory => plain_line(alloc, "B1"),
        BenchFault::Thread => plain_line(alloc, "B2"),
        BenchFault::TestShape(test) => counted_line(alloc, "B3", test),
        BenchFault::OriginalFails(test) => counted_line(alloc, "B4", test),
        BenchFault::EquivalentUnknown(entry) => counted_line(alloc, "B5", entry),
        BenchFault::EquivalentTwice(entry) => counted_line(alloc, "B6", entry),
        BenchFault::Double(ticket) => mutant_line(alloc, "B7", ticket),
        BenchFault::Stranger(ticket) => mutant_line(alloc, "B8", ticket),
        BenchFault::Missing(ticket) => mutant_line(alloc, "B9", ticket),
        BenchFault::Stalled => plain_line(alloc, "B10"),
    }
}

/// The line of the fault: FAULT, its code, and its detail where it has one, ended by LF.
#[tactic(auto, unfolding(crate::specs::Line::fault_line))]
pub(crate) fn line_of(alloc: Global, fault: &Fault) -> Result<String, AllocError>
    ensures { IfOk result (λ s. string_bytes s ≡ definition.fault_line fault.now) }
{
    match fault {
        Fault::Job(fault) => job_line(alloc, fault),
        Fault::Form(fault) => form_line(alloc, *fault),
        Fault::Syntax(fault) => syntax_line(alloc, *fault),
        Fault::Check(fault) => check_line(alloc, fault),
        Fault::Run(fault) => run_line(alloc, *fault),
        Fault::Ops(fault) => ops_line(alloc, *fault),
        Fault::Bench(fault) => bench_line(alloc, *fault),
    }
}

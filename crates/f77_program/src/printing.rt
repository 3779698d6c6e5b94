//! Programs printed in fixed form.

ghost use Rattle.std.specs.Prelude.{◌≡◌, ◌⊎◌, [], Some, IsSome, IfOk, IfErr, map, string_bytes};
ghost use Rattle.std.specs.List.{slice_get};
ghost use Rattle.f77_program.specs.Printing as printing;
ghost use Rattle.f77_program.specs.{line_of, printed, print_faults};
ghost use Rattle.f77_program.specs.code.{reported_fault};

use crate::canonical::print_stmt;
use crate::fault::SyntaxFault;
use crate::program::{Line, Program};
use f77_source::{Card, FormFault, write_form};
use f77_tree::Shared;
use std::alloc::Global;

/// The fault of the program for a fault of a card. Canonical texts are printable, so no other faults come here.
fn reported(fault: FormFault) -> SyntaxFault
    requires { IsSome (reported_fault fault) }
    ensures { reported_fault fault ≡ Some result }
{
    match fault {
        FormFault::BadLabel(line) => SyntaxFault::BadConstant(line),
        FormFault::TooManyContinuations(line) => SyntaxFault::TooLong(line),
        FormFault::Memory => SyntaxFault::Memory,
        _ => unreachable!(),
    }
}

fn card_of(alloc: Global, line: &Line) -> Result<Card, SyntaxFault>
    ensures card { IfOk result (λ card. card ≡ printing.card_of (line_of line.now)) }
    ensures refused { IfErr result (λ fault. fault ≡ SyntaxFault.Memory) }
{
    let text = print_stmt(alloc, &line.stmt)?;
    Ok(Card::new(line.label, text, line.line))
}

fn cards_of(alloc: Global, lines: &[Shared<Line>]) -> Result<Vec<Card>, SyntaxFault>
    ensures cards { IfOk result (λ cards. cards.items ≡ map printing.card_of (map line_of lines.now)) }
    ensures refused { IfErr result (λ fault. fault ≡ SyntaxFault.Memory) }
{
    let mut cards = Vec::new(alloc);
    for line in lines {
        cards.push(card_of(alloc, line)?)?;
    }
    Ok(cards)
}

/// The program in fixed form: each line with its label and the canonical text of its statement, ended by LF (ANSI
/// X3.9-1978, 3.2).
///
/// The first line with a fault is reported: BadConstant where its label is not 1 to 99999, or else TooLong where its
/// statement needs more than 20 lines. Only labels and lengths are tested. A tree that is deeper or has more nodes than
/// a card may have is printed too; the reader refuses that text.
pub fn print(alloc: Global, program: &Program) -> Result<String, SyntaxFault>
    ensures text { IfOk result (λ text. string_bytes text ≡ printed (map line_of program.now)) }
    ensures accepted { IfOk result (λ _. print_faults (map line_of program.now) ≡ []) }
    ensures refused { IfErr result
        (λ fault. (slice_get (print_faults (map line_of program.now)) 0 ≡ Some fault) ⊎ (fault ≡ SyntaxFault.Memory)) }
{
    let cards = cards_of(alloc, program.lines())?;
    match write_form(alloc, &cards) {
        Ok(text) => Ok(text),
        Err(fault) => Err(reported(fault)),
    }
}

//! Printing programs in fixed form, with the promise that the text reads back.

ghost use Rattle.std.specs.Prelude.{◌≡◌, ◌⊎◌, [], Some, IfOk, IfErr, map, string_bytes};
ghost use Rattle.std.specs.List.{All, slice_get};
ghost use Rattle.f77_program.specs.Printing.{printed, print_faults};
ghost use Rattle.f77_program.specs.Program.{line_of};
ghost use Rattle.f77_syntax.specs.{KeepsLimits, ReadsBack};

use f77_program::{Program, SyntaxFault};
use f77_source::law::written_cards_are_read;
use std::alloc::Global;

/// The program in fixed form: each line with its label and the canonical text of its statement, ended by LF (ANSI
/// X3.9-1978, 3.2).
///
/// The first line with a fault is reported: BadConstant where its label is not 1 to 99999, or else TooLong where its
/// statement needs more than 20 lines.
pub fn print(alloc: Global, program: &Program) -> Result<String, SyntaxFault>
    ensures text { IfOk result (λ text. string_bytes text ≡ printed (map line_of program.now)) }
    ensures accepted { IfOk result (λ _. print_faults (map line_of program.now) ≡ []) }
    ensures refused { IfErr result
        (λ fault. (slice_get (print_faults (map line_of program.now)) 0 ≡ Some fault) ⊎ (fault ≡ SyntaxFault.Memory)) }
    // The text reads back as the same program, apart from line numbers, if each statement keeps the limits.
    ensures back { IfOk result (λ text. All (λ line. KeepsLimits line.stmt) (map line_of program.now)
        → ReadsBack (string_bytes text) (map line_of program.now)) }
{
    written_cards_are_read();
    let _ = program.lines();
    match f77_program::print(alloc, program) {
        Ok(text) => Ok(text),
        Err(fault) => Err(fault),
    }
}

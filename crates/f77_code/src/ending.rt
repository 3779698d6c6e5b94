//! How runs end, as numbers of places beyond those of all instructions.

ghost use Rattle.std.specs.Prelude.{◌≡◌, ◌<◌, ◌≤ℤ◌, pos, ℕ, ℤ, Result, Err};
ghost use Rattle.f77_actions.specs.declared.finish.Fault.{Fault};
ghost use Rattle.f77_actions.specs.declared.finish.Finish.{Finish};
ghost use Rattle.f77_actions.specs.declared.finish.Finish.TheVariants.{Failed, StepLimit};
ghost use Rattle.f77_code.specs.Operation as meaning;
ghost use Rattle.f77_actions.specs.Encoded.{Encodes, IsValueOrFault, fault_number};
ghost use Rattle.f77_code.specs.{vector_place, matrix_place};

use f77_actions::encoded::{BAD_SUBSCRIPT, UNDEFINED};
use f77_actions::{Fault, Finish};

/// From this place on, a place says how the run ended. The first seven are for faults.
pub const ENDS: usize = 4_294_967_296;
/// RETURN, or END (11.14, 15.8).
pub const RETURNED: usize = 4_294_967_312;
/// STOP (11.12).
pub const STOPPED: usize = 4_294_967_313;
/// TRAP was executed, or ZPUSH had a 0.
pub const TRAPPED: usize = 4_294_967_300;

/// The place of an end by the fault that a number stands for.
#[cold]
#[inline(never)]
pub(crate) fn failed(x: i64) -> usize
    requires valid { IsValueOrFault x }
    requires fault { pos 1099511627776 ≤ℤ x }
    ensures { (fault : Fault) → Encodes x (Err fault) → result ≡ meaning.ended_point (Failed fault) }
{
    ENDS + (x - UNDEFINED) as usize
}

/// The fault with this number, from 0.
fn fault_of(number: usize) -> Fault
    ensures { (fault : Fault) → number ≡ fault_number fault → result ≡ fault }
{
    match number {
        0 => Fault::Undefined,
        1 => Fault::Overflow,
        2 => Fault::BadSubscript,
        3 => Fault::ZeroStep,
        4 => Fault::Trapped,
        5 => Fault::DivideByZero,
        _ => Fault::ZeroPower,
    }
}

/// How a run ended, from the place where it stands: StepLimit where that is the place of an instruction.
pub fn finish_at(place: usize) -> Finish
    ensures ended { (finish : Finish) → place ≡ meaning.ended_point finish → result ≡ finish }
    ensures limit { place < 4294967296 → result ≡ StepLimit }
{
    if place == RETURNED {
        return Finish::Returned;
    }
    if place == STOPPED {
        return Finish::Stopped;
    }
    if place < ENDS || STOPPED < place {
        return Finish::StepLimit;
    }
    Finish::Failed(fault_of(place - ENDS))
}

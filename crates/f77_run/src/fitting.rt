//! Which arguments fit the dummy arguments. They are tested before memory is taken, so N2 and N3 do not depend on
//! memory.

ghost use Rattle.std.specs.Prelude.{◌≡◌, ◌≢◌, ◌+◌, ◌==◌, Some, Err, IfOk, IfSome, IfErr};
ghost use Rattle.std.specs.Bool.{Decides};
ghost use Rattle.f77_meaning.specs.Interpreter as run;
ghost use Rattle.f77_meaning.specs.Interpreter.{AreFitting, first_misfit, is_count, refusal};
ghost use Rattle.f77_meaning.specs.declared.outcome.RunFault.TheVariants as fault;

use f77_check::Shape;
use f77_meaning::{Arg, RunFault};
use f77_tree::Kind;

fn has_count(elements: Option<u32>, count: usize) -> bool
    ensures { result ≡ is_count elements count }
{
    elements.is_some_and(|elements| elements as usize == count)
}

fn has_shape(shape: &Shape, argument: &Arg) -> bool
    ensures { result ≡ run.has_shape shape.now argument.now }
{
    match argument {
        Arg::Int(_) => matches!(shape.kind, Kind::Integer) && shape.elements.is_none(),
        Arg::Truth(_) => matches!(shape.kind, Kind::Logical) && shape.elements.is_none(),
        Arg::Ints(numbers) => {
            matches!(shape.kind, Kind::Integer)
                && has_count(shape.elements, numbers.as_slice().len())
        }
        Arg::Truths(truths) => {
            matches!(shape.kind, Kind::Logical)
                && has_count(shape.elements, truths.as_slice().len())
        }
    }
}

/// The number, from 0, of the first argument that does not have its shape.
pub(crate) fn misfit(shapes: &[Shape], arguments: &[Arg]) -> Option<usize>
    ensures { result ≡ first_misfit shapes.now arguments.now }
{
    shapes
        .iter()
        .zip(arguments)
        .position(|(shape, argument)| !has_shape(shape, argument))
}

/// Whether there are as many arguments as shapes, and each has its shape. It takes no memory.
#[tactic(auto, using(crate::proofs::Misfits::all_fit, crate::proofs::Misfits::no_misfit, crate::proofs::Misfits::as_many_fit))]
pub(crate) fn are_fitting(shapes: &[Shape], arguments: &[Arg]) -> bool
    ensures { Decides result (AreFitting shapes.now arguments.now) }
{
    arguments.len() == shapes.len() && misfit(shapes, arguments).is_none()
}

/// Whether the arguments fit, or why not: N2 is tested before N3. It takes no memory.
#[tactic(auto, using(crate::proofs::Misfits::misfit_within, crate::proofs::Misfits::all_fit, crate::proofs::Misfits::not_refused))]
pub fn fit(shapes: &[Shape], arguments: &[Arg]) -> Result<(), RunFault>
    ensures fitting { IfOk result (λ _. AreFitting shapes.now arguments.now) }
    ensures refused { IfSome (refusal shapes.now arguments.now) (λ e. result ≡ Err e) }
    ensures fault { IfErr result (λ e. refusal shapes.now arguments.now ≡ Some e) }
    ensures misfits { IfErr result (λ _. AreFitting shapes.now arguments.now → ⊥) }
    ensures never_out_of_memory { IfErr result (λ e. e ≢ fault.Memory) }
{
    if arguments.len() != shapes.len() {
        return Err(RunFault::ArgumentCount);
    }
    match misfit(shapes, arguments) {
        Some(index) => Err(RunFault::ArgumentShape(index + 1)),
        None => Ok(()),
    }
}

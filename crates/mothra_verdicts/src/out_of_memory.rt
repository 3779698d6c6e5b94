//! The fault that a run is out of memory, where there can be no other.

ghost use Rattle.std.specs.Prelude.{◌≡◌};
ghost use Rattle.f77_meaning.specs.declared.outcome.RunFault.TheVariants.{Memory};

use f77_meaning::RunFault;
use std::alloc::AllocError;

/// The fault of a run whose arguments fit.
pub(crate) fn of_run(fault: RunFault) -> AllocError
    requires { fault ≡ Memory }
{
    match fault {
        RunFault::Memory => AllocError,
        RunFault::ArgumentCount | RunFault::ArgumentShape(_) => unreachable!(),
    }
}

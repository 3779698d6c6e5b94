//! The interpreter: one run of a checked program. The program is compiled at each call; a `Runner` does so once.

ghost use Rattle.std.specs.Prelude.{◌≡◌, ◌⊎◌, ◌≤◌, ◌<◌, ℕ, map, Some, Err, IfOk, IfErr, IfSome};
ghost use Rattle.f77_program.specs.Program.{line_of};
ghost use Rattle.f77_meaning.specs.Interpreter.{IsOutcomeOf, refusal};
ghost use Rattle.f77_meaning.specs.declared.outcome.Outcome.{Outcome};
ghost use Rattle.f77_meaning.specs.declared.outcome.Outcome.TheVariants as outcomes;
ghost use Rattle.f77_meaning.specs.declared.outcome.RunFault.TheVariants as fault;

use crate::ending::answer;
use crate::fitting::fit;
use crate::workspace::prepared;
use f77_check::Checked;
use f77_meaning::{Arg, Outcome, RunFault};
use std::alloc::Global;

/// Runs a program with these values of its dummy arguments, in order, and gives its outcome within the limit `steps`,
/// with the number of steps after which the outcome was known. A run that comes back to a state never ends, and is left
/// there.
///
/// N2 and N3 are reported before any step. Memory (N1) may be reported in place of any outcome.
pub fn counted_run(
    alloc: Global,
    checked: &Checked,
    arguments: &[Arg],
    steps: u32,
) -> Result<(Outcome, u32), RunFault>
    ensures outcome { IfOk result (λ ran. IsOutcomeOf (map line_of checked.now.program) arguments.now steps ran.0) }
    ensures made { IfOk result
        (λ ran. (ran.1 ≤ steps) × IsOutcomeOf (map line_of checked.now.program) arguments.now ran.1 ran.0) }
    ensures unended { IfOk result (λ ran. (n : ℕ) → n < ran.1
        → IsOutcomeOf (map line_of checked.now.program) arguments.now n outcomes.StepLimit) }
    ensures refused { IfSome (refusal checked.now.arguments arguments.now) (λ e. result ≡ Err e) }
    ensures fault { IfErr result (λ e. (e ≡ fault.Memory) ⊎ (refusal checked.now.arguments arguments.now ≡ Some e)) }
{
    fit(checked.arguments(), arguments)?;
    let (code, mut space) = prepared(alloc, checked)?;
    let end = space.end_of(checked, &code, arguments, 0, steps)?;
    let outcome = answer(alloc, checked, end.finish, &space.registers.items)?;
    Ok((outcome, end.made))
}

/// Runs a program with these values of its dummy arguments, in order, and gives its outcome within the limit `steps`.
///
/// N2 and N3 are reported before any step. Memory (N1) may be reported in place of any outcome.
pub fn run(
    alloc: Global,
    checked: &Checked,
    arguments: &[Arg],
    steps: u32,
) -> Result<Outcome, RunFault>
    ensures outcome { IfOk result
        (λ outcome. IsOutcomeOf (map line_of checked.now.program) arguments.now steps outcome) }
    ensures only { IfOk result
        (λ outcome. (other : Outcome) → IsOutcomeOf (map line_of checked.now.program) arguments.now steps other
        → other ≡ outcome) }
    ensures refused { IfSome (refusal checked.now.arguments arguments.now) (λ e. result ≡ Err e) }
    ensures fault { IfErr result (λ e. (e ≡ fault.Memory) ⊎ (refusal checked.now.arguments arguments.now ≡ Some e)) }
{
    let (outcome, _made) = counted_run(alloc, checked, arguments, steps)?;
    Ok(outcome)
}

//! Which tests kill a mutant. A run is only asked whether it has the program's outcome, so no list of values is made
//! for a mutant. Nor is it asked whether arguments fit: no operator changes the SUBROUTINE statement or a declaration.

ghost use Rattle.std.specs.Prelude.{◌≡◌, ◌<◌, List, length, map, slice_get, Some, None, All, IfOk};
ghost use Rattle.f77_program.specs.Program.{line_of};
ghost use Rattle.f77_run.specs.Changed.{changed_program};
ghost use Rattle.f77_meaning.specs.Interpreter.{refusal};
ghost use Rattle.f77_meaning.specs.declared.argument.Arg.{Arg};
ghost use Rattle.mothra_ops.specs.Mutants.{program_of};
ghost use Rattle.mothra_verdicts.specs.{IsAlone, IsKill};

use crate::bench::Bench;
use crate::out_of_memory;
use f77_check::Checked;
use f77_meaning::Values;
use f77_run::{ChangedRunner, Runner};
use std::alloc::{AllocError, Global};

/// Whether the test with this number, from 0, kills the mutant, which is run from where it diverges
/// from the program.
fn kill(bench: &Bench, mutant: &mut ChangedRunner<'_>, test: usize) -> Result<bool, AllocError>
    requires within { test < length bench.now.tests }
    requires program { mutant.old.checked ≡ bench.now.plan.checked }
    ensures kill { IfOk result (λ kill. (arguments : List Arg) → slice_get bench.now.tests test ≡ Some arguments
        → IsKill (program_of bench.now.plan) (changed_program mutant.old) arguments bench.now.steps kill) }
    ensures mutant { mutant.new ≡ mutant.old }
{
    let visits = &bench.visits()[test];
    let arguments = bench.tests()[test].as_slice();
    let outcome = &bench.outcomes()[test];
    let same = mutant.comes_to(visits, arguments, bench.steps(), outcome)?;
    Ok(!same)
}

/// For each test of the bench, in order, whether it kills the mutant: the changed program of `mutant`.
pub(crate) fn kills_of(
    alloc: Global,
    bench: &Bench,
    mutant: &mut ChangedRunner<'_>,
) -> Result<Values<bool>, AllocError>
    requires { mutant.old.checked ≡ bench.now.plan.checked }
    ensures kills { IfOk result (λ kills. IsAlone (program_of bench.now.plan) (changed_program mutant.old)
        bench.now.steps bench.now.tests kills) }
    ensures mutant { mutant.new ≡ mutant.old }
{
    let mut kills = Vec::with_capacity(alloc, bench.tests().len())?;
    for test in 0..bench.tests().len() {
        kills.push(kill(bench, mutant, test)?)?;
    }
    Ok(Values::new(kills))
}

/// Whether the test with this number, from 0, kills the mutant, which is run from the start.
fn kill_from_start(bench: &Bench, mutant: &mut Runner<'_>, test: usize) -> Result<bool, AllocError>
    requires within { test < length bench.now.tests }
    requires fit { All (λ arguments. refusal mutant.old.arguments arguments ≡ None) bench.now.tests }
    ensures kill { IfOk result (λ kill. (arguments : List Arg) → slice_get bench.now.tests test ≡ Some arguments
        → IsKill (program_of bench.now.plan) (map line_of mutant.old.program) arguments bench.now.steps kill) }
    ensures mutant { mutant.new ≡ mutant.old }
{
    let arguments = bench.tests()[test].as_slice();
    match mutant.comes_to(arguments, bench.steps(), &bench.outcomes()[test]) {
        Ok(same) => Ok(!same),
        Err(fault) => Err(out_of_memory::of_run(fault)),
    }
}

/// For each test of the bench, in order, whether it kills the mutant. All runs begin at the start.
fn kills_in_turn(
    alloc: Global,
    bench: &Bench,
    mutant: &mut Runner<'_>,
) -> Result<Values<bool>, AllocError>
    requires { All (λ arguments. refusal mutant.old.arguments arguments ≡ None) bench.now.tests }
    ensures { IfOk result (λ kills. IsAlone (program_of bench.now.plan) (map line_of mutant.old.program)
        bench.now.steps bench.now.tests kills) }
{
    let mut kills = Vec::with_capacity(alloc, bench.tests().len())?;
    for test in 0..bench.tests().len() {
        kills.push(kill_from_start(bench, mutant, test)?)?;
    }
    Ok(Values::new(kills))
}

/// For each test of the bench, in order, whether it kills this mutant, a whole program. All runs begin at the start.
pub(crate) fn kills_from_start(
    alloc: Global,
    bench: &Bench,
    mutant: &Checked,
) -> Result<Values<bool>, AllocError>
    requires { All (λ arguments. refusal mutant.now.arguments arguments ≡ None) bench.now.tests }
    ensures { IfOk result (λ kills. IsAlone (program_of bench.now.plan) (map line_of mutant.now.program)
        bench.now.steps bench.now.tests kills) }
{
    let mut runner = Runner::of(alloc, mutant)?;
    kills_in_turn(alloc, bench, &mut runner)
}

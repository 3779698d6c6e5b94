//! What runs need, in memory that is taken once. The registers at the start (the values of DATA, and the constants
//! behind the slots) are filled once. A run begins as a copy of them, into which its arguments are put.

ghost use Rattle.std.specs.Prelude.{◌≡◌, List, length, true, ℤ, IfOk, OnOk};
ghost use Rattle.f77_check.specs.Checked.{IsChecked};
ghost use Rattle.f77_actions.specs.declared.resolved.Resolved.{Resolved};
ghost use Rattle.f77_code.specs.Program.{IsCode};
ghost use Rattle.f77_code.specs.Registers.{are_held};
ghost use Rattle.f77_meaning.specs.Interpreter.{AreFitting};
ghost use Rattle.f77_run.specs.{IsImage, AreAtStart};
ghost use Rattle.f77_run.specs.code.{HasEnded, RunOf, HasCode};

use crate::entering::put_arguments;
use crate::registers::Registers;
use crate::running::advance;
use f77_actions::Finish;
use f77_check::Checked;
use f77_code::{Code, compiled, finish_at};
use f77_meaning::Arg;
use std::alloc::{AllocError, Global};

/// How a run ends, and the number of steps after which that was known.
#[derive(Clone, Copy)]
pub(crate) struct End {
    pub(crate) finish: Finish,
    pub(crate) made: u32,
}

/// Registers and counters: those at the start of each run, before the arguments are put in; those of the run; and those
/// of a state that is kept.
#[derive(Drop)]
pub(crate) struct Workspace {
    pub(crate) image: Registers,
    pub(crate) registers: Registers,
    pub(crate) kept: Registers,
}

/// The code of a program, and the workspace of its runs. The registers of a run take memory when the first run begins.
pub(crate) fn prepared(alloc: Global, checked: &Checked) -> Result<(Code, Workspace), AllocError>
    ensures checked { IsChecked checked.now }
    ensures code { IfOk result (λ made. IsCode checked.now.statements made.0) }
    ensures slots { IfOk result (λ made. made.0.constants.slots ≡ checked.now.slots) }
    ensures image { IfOk result (λ made. IsImage checked.now made.0.constants.values.items made.1.image) }
{
    let code = compiled(alloc, checked.slots() as u32, checked.statements())?;
    let space = Workspace {
        image: Registers::at_start(alloc, checked, &code)?,
        registers: Registers::new(alloc),
        kept: Registers::new(alloc),
    };
    Ok((code, space))
}

impl Workspace {
    /// Puts the registers at the start of a run with arguments that fit.
    pub(crate) fn restart(&mut self, checked: &Checked, arguments: &[Arg]) -> Result<(), AllocError>
        requires image { (constants : List ℤ) × IsImage checked.now constants self.old.image }
        requires fitting { AreFitting checked.now.arguments arguments.now }
        ensures image { self.new.image ≡ self.old.image }
        ensures starts { OnOk result ((constants : List ℤ) → IsImage checked.now constants self.old.image
            → AreAtStart checked.now arguments.now constants
            self.new.registers.items.items self.new.registers.counters.items) }
    {
        self.registers.copy_from(&self.image)?;
        let start = checked.start();
        put_arguments(
            &mut self.registers.items,
            &start.kinds,
            &start.dummies,
            arguments,
        );
        Ok(())
    }

    /// Runs code with these arguments within the limit `steps`, and gives how the run ends. The first state for cycle
    /// detection is kept after `patience` steps.
    pub(crate) fn end_of(
        &mut self,
        checked: &Checked,
        code: &Code,
        arguments: &[Arg],
        patience: u32,
        steps: u32,
    ) -> Result<End, AllocError>
        requires image { IsImage checked.now code.now.constants.values.items self.old.image }
        requires runs { (run : RunOf) × (statements : List Resolved) × HasCode run statements code.now
            × (run.checked ≡ checked.now) × (run.arguments ≡ arguments.now) }
        ensures image { self.new.image ≡ self.old.image }
        ensures ends { IfOk result (λ end. (run : RunOf) (statements : List Resolved)
            → HasCode run statements code.now → run.checked ≡ checked.now → run.arguments ≡ arguments.now
            → HasEnded run steps end.made end.finish self.new.registers.items.items) }
    {
        self.restart(checked, arguments)?;
        let entry = checked.start().entry;
        let stand = advance(
            code.instructions(),
            &mut self.registers,
            entry,
            &mut self.kept,
            patience,
            steps,
        )?;
        Ok(End {
            finish: finish_at(stand.place),
            made: stand.made,
        })
    }
}

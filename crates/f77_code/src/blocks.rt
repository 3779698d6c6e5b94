//! The inner loop: instructions are executed one after another.

ghost use Rattle.std.specs.Prelude.{◌≡◌, ◌≤◌, ◌<◌, true, length, ℕ};
ghost use Rattle.f77_code.specs.{code_after, code_within, operation_within, point, ran, are_held};

use crate::control::Turn;
use crate::instruction::Instruction;
use crate::operation::perform;

/// Where a run stands after some instructions.
#[derive(Clone, Copy)]
pub struct Stand {
    /// The place where control is, or from 2^32 on how the run ended.
    pub place: usize,
    /// The number of instructions that were executed. It is lower than asked for where the run ended before.
    pub made: u32,
}

/// Executes instructions from the place `start` on, at most `steps` of them.
#[inline(never)]
pub fn block(
    code: &[Instruction],
    registers: &mut [i64],
    turns: &mut [Turn],
    start: usize,
    steps: u32,
) -> Stand
    requires held { are_held registers.old ≡ true }
    requires within { code_within (length registers.old) (length turns.old) code.now ≡ true }
    ensures after { point result.place registers.new turns.new
        ≡ code_after code.now steps (point start registers.old turns.old) }
    ensures stands { point result.place registers.new turns.new
        ≡ code_after code.now result.made (point start registers.old turns.old) }
    ensures made { result.made ≤ steps }
    ensures there { (k : ℕ)
        → k < result.made → (code_after code.now k (point start registers.old turns.old)).place < length code.now }
    ensures ends { result.made < steps → length code.now ≤ result.place }
    ensures held { are_held registers.new ≡ true }
{
    let mut place = start;
    'instructions: for made in 0..steps {
        let Some(instruction) = code.get(place) else {
            return Stand { place, made };
        };
        place = step(instruction, registers, turns);
    }
    Stand { place, made: steps }
}

/// Executes one instruction, and gives the next place.
#[inline(always)]
pub(crate) fn step(instruction: &Instruction, registers: &mut [i64], turns: &mut [Turn]) -> usize
    requires held { are_held registers.old ≡ true }
    requires within { operation_within (length registers.old) (length turns.old) instruction.now.operation ≡ true }
    ensures runs { point result registers.new turns.new
        ≡ ran instruction.now.operation instruction.now.next registers.old turns.old }
    ensures held { are_held registers.new ≡ true }
{
    perform(&instruction.operation, instruction.next, registers, turns)
}

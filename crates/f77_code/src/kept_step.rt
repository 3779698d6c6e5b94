//! The start of a changed run: it begins where it may diverge from the run of the program.

ghost use Rattle.std.specs.Prelude.{◌≡◌, ◌≤◌, ◌+◌, ◌++◌, ℕ, drop, length, take, true, IfNone};
ghost use Rattle.std.specs.Prelude.{IfSome};
ghost use Rattle.f77_code.specs.{code_after, code_within, with_more, IsKept, DivergingRuns, point, are_held};

use crate::blocks::block;
use crate::control::Turn;
use crate::instruction::Instruction;

/// The first time at which control was at an instruction: the registers of the slots and the counters before its step
/// and behind it, and the place to which it led.
#[derive(Drop)]
pub struct KeptStep {
    /// The number of steps that were made before.
    pub made: u32,
    pub slots: Vec<i64>,
    pub turns: Vec<Turn>,
    pub place: usize,
    pub slots_after: Vec<i64>,
    pub turns_after: Vec<Turn>,
}

impl KeptStep {
    /// Gives the registers of the slots, and the counters, the values that they had before the step.
    fn load(&self, registers: &mut [i64], turns: &mut [Turn])
        requires slots { length self.now.slots.items ≤ length registers.old }
        requires turns { length self.now.turns.items ≡ length turns.old }
        ensures registers { registers.new ≡ self.now.slots.items ++ drop (length self.now.slots.items) registers.old }
        ensures turns { turns.new ≡ self.now.turns.items }
    {
        registers[..self.slots.len()].copy_from_slice(&self.slots);
        turns.copy_from_slice(&self.turns);
    }

    /// Whether a step has led to the kept place, slots and counters.
    fn is_met(&self, place: usize, registers: &[i64], turns: &[Turn]) -> bool
        requires { length self.now.slots_after.items ≤ length registers.now }
        ensures place { result ≡ true → place ≡ self.now.place }
        ensures slots { result ≡ true
            → take (length self.now.slots_after.items) registers.now ≡ self.now.slots_after.items }
        ensures turns { result ≡ true → turns.now ≡ self.now.turns_after.items }
    {
        if place != self.place {
            return false;
        }
        let slots: &[i64] = &registers[..self.slots_after.len()];
        let kept: &[i64] = &self.slots_after;
        if slots != kept {
            return false;
        }
        let own: &[Turn] = &self.turns_after;
        turns == own
    }
}

/// Makes the first step that changed code may make otherwise than the code of the program, from the first time at which
/// control was at the changed instruction. `more` says whether control was there again. Gives the place to which the
/// step leads. None if the changed code is known to come to what the program comes to: the step leads to the same
/// state, and control was there no other time. Of the registers before, only those behind the slots make a difference.
pub fn first_step(
    code: &[Instruction],
    place: usize,
    kept: &KeptStep,
    more: bool,
    registers: &mut [i64],
    turns: &mut [Turn],
) -> Option<usize>
    requires behind { are_held (drop (length kept.now.slots.items) registers.old) ≡ true }
    requires slots_held { are_held kept.now.slots.items ≡ true }
    requires within { code_within (length registers.old) (length turns.old) code.now ≡ true }
    requires slots { length kept.now.slots.items ≤ length registers.old }
    requires after { length kept.now.slots_after.items ≡ length kept.now.slots.items }
    requires turns { length kept.now.turns.items ≡ length turns.old }
    ensures same { IfNone result ((diverging : DivergingRuns) (steps : ℕ)
        → code.now ≡ diverging.runs.other → place ≡ diverging.runs.i
        → IsKept diverging kept.now more steps registers.old
        → code_after code.now steps (with_more diverging.runs.start diverging.runs.extra)
        ≡ with_more (code_after diverging.runs.code steps diverging.runs.start)
        diverging.runs.extra) }
    ensures other { IfSome result (λ next. (diverging : DivergingRuns) (steps : ℕ)
        → code.now ≡ diverging.runs.other → place ≡ diverging.runs.i
        → IsKept diverging kept.now more steps registers.old
        → (m : ℕ) → code_after code.now m (point next registers.new turns.new)
        ≡ code_after code.now (kept.now.made + 1 + m) (with_more diverging.runs.start diverging.runs.extra)) }
    ensures held { are_held registers.new ≡ true }
{
    kept.load(registers, turns);
    let next = block(code, registers, turns, place, 1).place;
    if !more && kept.is_met(next, registers, turns) {
        return None;
    }
    Some(next)
}

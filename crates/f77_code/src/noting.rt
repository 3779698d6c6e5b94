//! Noting the first time at which control was at each instruction, while code runs.
//!
//! Only the first time is kept. Keeping four times took an eighth less time where long loops go wrong late, but four
//! times the memory.

ghost use Rattle.std.specs.Prelude.{◌≡◌, ◌≤◌, ◌+◌, drop, length, true, IfOk, OnOk};
ghost use Rattle.f77_code.specs.{one, code_after, code_within, AreNone, ArePassed, HaveSizes, numbers_kept};
ghost use Rattle.f77_code.specs.{AllWriteBelow, point, are_held};
ghost use Rattle.f77_code.specs.code.{NotesList};

use crate::blocks::{Stand, block};
use crate::control::Turn;
use crate::instruction::Instruction;
use crate::kept_step::KeptStep;
use std::alloc::{AllocError, Global};

/// The times at which control was at an instruction.
#[derive(Drop)]
pub struct Passed {
    pub first: Option<KeptStep>,
    /// Control was there once more, or the first time was not kept.
    pub more: bool,
}

/// Makes one step from `place`, where `made` steps were made before. Where the list has an entry for the instruction,
/// the time is kept if none is and if there is room for its numbers.
fn stepped(
    alloc: Global,
    code: &[Instruction],
    registers: &mut [i64],
    turns: &mut [Turn],
    slots: usize,
    place: usize,
    made: u32,
    list: &mut Vec<Passed>,
    room: &mut usize,
) -> Result<usize, AllocError>
    requires held { are_held registers.old ≡ true }
    requires within { code_within (length registers.old) (length turns.old) code.now ≡ true }
    requires slots { slots ≤ length registers.old }
    ensures step { IfOk result (λ next. point next registers.new turns.new
        ≡ one code.now (point place registers.old turns.old)) }
    ensures noted { IfOk result (λ next. NotesList slots made (point place registers.old turns.old)
        (point next registers.new turns.new) list.old.items list.new.items) }
    ensures room { OnOk result (room.new + numbers_kept list.new.items ≡ room.old + numbers_kept list.old.items) }
    ensures held { OnOk result (are_held registers.new ≡ true) }
{
    if list.len() <= place {
        return Ok(block(code, registers, turns, place, 1).place);
    }
    let passed = &mut list[place];
    // Once before the step, and once behind it.
    let size = slots.saturating_add(turns.len());
    if passed.more || passed.first.is_some() || *room / 2 < size {
        passed.more = true;
        return Ok(block(code, registers, turns, place, 1).place);
    }
    let slots_before = registers[..slots].to_vec(alloc)?;
    let turns_before = turns.to_vec(alloc)?;
    let next = block(code, registers, turns, place, 1).place;
    let slots_after = registers[..slots].to_vec(alloc)?;
    let turns_after = turns.to_vec(alloc)?;
    passed.first = Some(KeptStep {
        made,
        slots: slots_before,
        turns: turns_before,
        place: next,
        slots_after,
        turns_after,
    });
    *room -= 2 * size;
    Ok(next)
}

/// Makes at most `steps` steps from the place `start` on. For each of the first instructions, as many as `list` is
/// long, it notes the first time at which control is there, while there is room for the numbers. `room` counts numbers,
/// and falls by those that are kept.
pub fn follow(
    alloc: Global,
    code: &[Instruction],
    registers: &mut [i64],
    turns: &mut [Turn],
    slots: usize,
    start: usize,
    list: &mut Vec<Passed>,
    steps: u32,
    room: &mut usize,
) -> Result<Stand, AllocError>
    requires held { are_held registers.old ≡ true }
    requires within { code_within (length registers.old) (length turns.old) code.now ≡ true }
    requires slots { slots ≤ length registers.old }
    requires writes { AllWriteBelow slots code.now }
    requires none { AreNone list.old.items }
    requires list { length list.old.items ≤ length code.now }
    ensures after { IfOk result (λ stand. point stand.place registers.new turns.new
        ≡ code_after code.now steps (point start registers.old turns.old)) }
    ensures stands { IfOk result (λ stand. point stand.place registers.new turns.new
        ≡ code_after code.now stand.made (point start registers.old turns.old)) }
    ensures made { IfOk result (λ stand. stand.made ≤ steps) }
    ensures passed { OnOk result (ArePassed code.now (point start registers.old turns.old)
        (drop slots registers.old) steps list.new.items) }
    ensures kept { OnOk result (HaveSizes slots (length turns.old) list.new.items) }
    ensures room { OnOk result (room.new + numbers_kept list.new.items ≡ room.old) }
    ensures count { OnOk result (length list.new.items ≡ length list.old.items) }
    ensures held { OnOk result (are_held registers.new ≡ true) }
{
    let mut place = start;
    'steps: for made in 0..steps {
        if code.len() <= place {
            return Ok(Stand { place, made });
        }
        place = stepped(
            alloc, code, registers, turns, slots, place, made, list, room,
        )?;
    }
    Ok(Stand { place, made: steps })
}

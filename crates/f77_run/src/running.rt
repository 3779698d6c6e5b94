//! Steps up to a limit, with cycle detection (Brent's): a run that comes back to a state that was kept never ends.

ghost use Rattle.std.specs.Prelude.{◌≡◌, ◌⊎◌, ◌≤◌, ◌<◌, ℕ, length, true, IfNone, IfOk, IfSome};
ghost use Rattle.std.specs.Prelude.{OnOk};
ghost use Rattle.f77_code.specs.Block.{code_after};
ghost use Rattle.f77_code.specs.Registers.{are_held};
ghost use Rattle.f77_run.specs.code.{CameBack, Leads, stands_at, within_registers};

use crate::registers::Registers;
use f77_code::{Instruction, Stand, block, block_to};
use std::alloc::AllocError;

/// The number of steps before a state is first kept. A run that ends within them pays nothing.
const FIRST: u32 = 64;

/// A kept state is looked for during this many steps at least. A run that comes back within them is found as soon as if
/// each step were looked at.
const LEAST: u32 = 256;

/// In a long run the kept state is looked for during one step in this many, since looking takes half as long as a step.
const PART: u32 = 32;

/// Makes at most `steps` steps from the place `start` on, or until control next comes to the place `watched`.
fn steps_from(
    code: &[Instruction],
    registers: &mut Registers,
    start: usize,
    steps: u32,
    watched: Option<usize>,
) -> Stand
    requires held { are_held registers.old.items.items ≡ true }
    requires within { within_registers code.now registers.old ≡ true }
    ensures leads { Leads code.now (stands_at start registers.old) result.made (stands_at result.place registers.new) }
    ensures made { result.made ≤ steps }
    ensures some { IfSome watched (λ _. start < length code.now → 0 < steps → 0 < result.made) }
    ensures ends { IfNone watched (result.made < steps → length code.now ≤ result.place) }
    ensures held { are_held registers.new.items.items ≡ true }
    ensures within { within_registers code.now registers.new ≡ true }
{
    let items = &mut registers.items;
    let turns = &mut registers.counters;
    match watched {
        Some(watched) => block_to(code, items, turns, start, steps, watched),
        None => block(code, items, turns, start, steps),
    }
}

/// Makes at most `steps` steps from the place `start` on, until the code is again in the state in which it was at
/// first, which is `kept`. Then it never ends.
fn look_for(
    code: &[Instruction],
    registers: &mut Registers,
    start: usize,
    kept: &Registers,
    steps: u32,
) -> Stand
    requires held { are_held registers.old.items.items ≡ true }
    requires within { within_registers code.now registers.old ≡ true }
    requires kept { stands_at start registers.old ≡ stands_at start kept.now }
    ensures leads { Leads code.now (stands_at start registers.old) result.made (stands_at result.place registers.new) }
    ensures made { result.made ≤ steps }
    ensures ends { result.made < steps
        → (length code.now ≤ result.place) ⊎ CameBack code.now (stands_at start registers.old) result.made }
    ensures held { are_held registers.new.items.items ≡ true }
    ensures within { within_registers code.now registers.new ≡ true }
{
    let mut at = Stand {
        place: start,
        made: 0,
    };
    let mut apart = 0;
    'looks: while at.place < code.len() && at.made < steps {
        let more = steps_from(code, registers, at.place, steps - at.made, Some(start));
        at.place = more.place;
        at.made += more.made;
        if at.place == start && registers.are(kept, &mut apart) {
            return at;
        }
    }
    at
}

/// Makes at most `steps` steps from the place `start` on. The first state is kept, and looked for during some of the
/// steps.
fn steps_with_looks(
    code: &[Instruction],
    registers: &mut Registers,
    start: usize,
    kept: &mut Registers,
    steps: u32,
) -> Result<Stand, AllocError>
    requires held { are_held registers.old.items.items ≡ true }
    requires within { within_registers code.now registers.old ≡ true }
    ensures leads { IfOk result (λ stand.
        Leads code.now (stands_at start registers.old) stand.made (stands_at stand.place registers.new)) }
    ensures made { IfOk result (λ stand. stand.made ≤ steps) }
    ensures ends { IfOk result (λ stand. stand.made < steps
        → (length code.now ≤ stand.place) ⊎ CameBack code.now (stands_at start registers.old) stand.made) }
    ensures held { OnOk result (are_held registers.new.items.items ≡ true) }
    ensures within { OnOk result (within_registers code.now registers.new ≡ true) }
{
    kept.copy_from(registers)?;
    let looks = (steps / PART).max(LEAST).min(steps);
    let found = look_for(code, registers, start, kept, looks);
    if found.made < looks {
        return Ok(found);
    }
    let rest = steps_from(code, registers, found.place, steps - looks, None);
    Ok(Stand {
        place: rest.place,
        made: looks + rest.made,
    })
}

/// Makes at most `steps` steps from the place `start` on. A state is kept after `first` steps or a few more, and from
/// then on each time that the number of steps has doubled. It is looked for during some of the steps behind it: a run
/// that comes back to it never ends, and is left there.
///
/// The counters of DOs that are not active are compared, too. A run that differs in these alone is found a little
/// later, and no outcome changes.
pub(crate) fn advance(
    code: &[Instruction],
    registers: &mut Registers,
    start: usize,
    kept: &mut Registers,
    first: u32,
    steps: u32,
) -> Result<Stand, AllocError>
    requires held { are_held registers.old.items.items ≡ true }
    requires within { within_registers code.now registers.old ≡ true }
    ensures stands { IfOk result (λ stand. stands_at stand.place registers.new
        ≡ code_after code.now stand.made (stands_at start registers.old)) }
    ensures made { IfOk result (λ stand. stand.made ≤ steps) }
    ensures there { IfOk result (λ stand. (k : ℕ)
        → k < stand.made → (code_after code.now k (stands_at start registers.old)).place < length code.now) }
    ensures ends { IfOk result (λ stand. stand.made < steps
        → (length code.now ≤ stand.place) ⊎ CameBack code.now (stands_at start registers.old) stand.made) }
    ensures held { OnOk result (are_held registers.new.items.items ≡ true) }
{
    let first = first.max(FIRST).min(steps);
    let mut at = steps_from(code, registers, start, first, None);
    'rounds: while at.place < code.len() && at.made < steps {
        // As many again as were made.
        let most = at.made.min(steps - at.made);
        let more = steps_with_looks(code, registers, at.place, kept, most)?;
        at.place = more.place;
        at.made += more.made;
        if more.made < most {
            return Ok(at);
        }
    }
    Ok(at)
}

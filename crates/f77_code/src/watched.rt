//! Instructions executed one after another, up to a place.

ghost use Rattle.std.specs.Prelude.{◌≡◌, ◌⊎◌, ◌≤◌, ◌<◌, true, length, ℕ};
ghost use Rattle.f77_code.specs.{code_after, code_within, point, are_held};

use crate::blocks::{Stand, step};
use crate::control::Turn;
use crate::instruction::Instruction;

/// Executes instructions from the place `start` on, at most `steps` of them, until control next comes to the place
/// `watched`.
#[inline(never)]
pub fn block_to(
    code: &[Instruction],
    registers: &mut [i64],
    turns: &mut [Turn],
    start: usize,
    steps: u32,
    watched: usize,
) -> Stand
    requires held { are_held registers.old ≡ true }
    requires within { code_within (length registers.old) (length turns.old) code.now ≡ true }
    ensures stands { point result.place registers.new turns.new
        ≡ code_after code.now result.made (point start registers.old turns.old) }
    ensures made { result.made ≤ steps }
    ensures some { start < length code.now → 0 < steps → 0 < result.made }
    ensures ends { result.made < steps → (length code.now ≤ result.place) ⊎ (result.place ≡ watched) }
    ensures there { (k : ℕ)
        → k < result.made → (code_after code.now k (point start registers.old turns.old)).place < length code.now }
    ensures held { are_held registers.new ≡ true }
{
    let mut place = start;
    'instructions: for made in 0..steps {
        let Some(instruction) = code.get(place) else {
            return Stand { place, made };
        };
        place = step(instruction, registers, turns);
        if place == watched {
            return Stand {
                place,
                made: made + 1,
            };
        }
    }
    Stand { place, made: steps }
}

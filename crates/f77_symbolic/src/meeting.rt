//! Whether both sides of a pair hold the same.

ghost use Rattle.std.specs.Prelude.{◌≡◌, ℕ, All, None, false, option_map, IfOk};
ghost use Rattle.f77_symbolic.specs.Prelude.{Change, Holds, Valuation};
ghost use Rattle.f77_symbolic.specs.{AreInside, IsInside, cells_of, content_of, slot_of, turn_of, turns_of};
ghost use Rattle.f77_symbolic.specs.code.{Extends, Always, StaysOn, HoldSameIn, IsAsked, RestsOn};

use crate::evaluator::Evaluator;
use crate::halt::{Halt, unless_unknown};
use crate::memory::{Location, Symbolic, Write};
use crate::sides::ActiveTurn;
use crate::walking::Pair;
use f77_facts::assigning::Slots;
use f77_terms::item_at;
use f77_tree::Shared;

/// The location may be one of these slots, if some are given.
fn may_be_of(location: &Location, only: Option<&[Slots]>) -> bool
    ensures { result ≡ false → (v : Valuation) → IsInside v location.now
        → ¬ (IsAsked (option_map (λ list. list.now) only.entry) (slot_of v location.now)) }
{
    let Some(list) = only else {
        return true;
    };
    for slots in list {
        let before = location.first < slots.first && slots.first - location.first >= location.count;
        let behind = slots.first <= location.first && location.first - slots.first >= slots.count;
        if !before && !behind {
            return true;
        }
    }
    false
}

#[tactic(auto, using(crate::proofs::Extending::extending))]
impl Evaluator {
    /// Both values are the same.
    fn show_same_value(&self, a: &Symbolic, b: &Symbolic) -> Result<(), Halt>
        ensures { IfOk result
            (λ _. (v : Valuation) → Holds v self.now.path → content_of v b.now ≡ content_of v a.now) }
    {
        match (a, b) {
            (Symbolic::Number(x), Symbolic::Number(y)) => unless_unknown(self.are_equal(x, y)?),
            (Symbolic::Truth(x), Symbolic::Truth(y)) => unless_unknown(self.are_equal(x, y)?),
            _ => Err(Halt::Unknown),
        }
    }

    /// Both sides hold the same in the slots of these writes that are of the list.
    fn show_same_in(
        &mut self,
        left: &[Shared<Write>],
        right: &[Shared<Write>],
        writes: &[Shared<Write>],
        only: Option<&[Slots]>,
    ) -> Result<(), Halt>
        ensures same { IfOk result (λ _. Always self.old self.new (λ start v. self.old.own ≡ false
            → AreInside v left.now → AreInside v right.now → AreInside v writes.now
            → StaysOn v self.old self.new
            × All (λ write. HoldSameIn (option_map (λ list. list.now) only.entry)
            (cells_of start.cells v left.now) (cells_of start.cells v right.now)
            (slot_of v write.location)) writes.now)) }
        ensures extends { Extends self.old.atoms self.new.atoms }
    {
        for write in writes {
            let location = &write.location;
            if !may_be_of(location, only) {
                continue;
            }
            let own = self.read(left, location)?;
            let other = self.read(right, location)?;
            self.samples.compare(location.first);
            self.show_same_value(&own, &other)?;
        }
        Ok(())
    }

    /// Both sides hold the same in the slots of the list.
    pub(crate) fn show_same(
        &mut self,
        left: &[Shared<Write>],
        right: &[Shared<Write>],
        only: Option<&[Slots]>,
    ) -> Result<(), Halt>
        ensures same { IfOk result (λ _. Always self.old self.new (λ start v. AreInside v left.now
            → AreInside v right.now → (slot : ℕ)
            → HoldSameIn (option_map (λ list. list.now) only.entry)
            (cells_of start.cells v left.now) (cells_of start.cells v right.now) slot)) }
        ensures extends { Extends self.old.atoms self.new.atoms }
    {
        // What a slot that may hold no value holds is not assumed, but shown.
        self.own = false;
        self.show_same_in(left, right, left, only)?;
        self.show_same_in(left, right, right, only)
    }

    /// Both DOs have the same left.
    fn show_same_turn(&self, a: &ActiveTurn, b: &ActiveTurn) -> Result<(), Halt>
        ensures { IfOk result (λ _. (v : Valuation) → Holds v self.now.path
            → option_map (turn_of v) b.now ≡ option_map (turn_of v) a.now) }
    {
        match (a, b) {
            (Some(one), Some(other)) => {
                unless_unknown(self.are_equal(&one.passes, &other.passes)?)?;
                unless_unknown(self.are_equal(&one.step, &other.step)?)
            }
            (None, None) => Ok(()),
            _ => Err(Halt::Unknown),
        }
    }

    /// All DOs have the same left.
    fn show_same_turns(&self, a: &[ActiveTurn], b: &[ActiveTurn]) -> Result<(), Halt>
        ensures { IfOk result
            (λ _. (v : Valuation) → Holds v self.now.path → turns_of v b.now ≡ turns_of v a.now) }
    {
        if a.len() != b.len() {
            return Err(Halt::Unknown);
        }
        for d in 0..a.len() {
            self.show_same_turn(item_at(a, d), item_at(b, d))?;
        }
        Ok(())
    }

    /// They met: the program made a step, the changed one no more steps, both are at one place, all slots hold the
    /// same, and all DOs have the same left.
    pub(crate) fn show_met(&mut self, pair: &Pair) -> Result<(), Halt>
        ensures rests { IfOk result (λ _. (change : Change) → RestsOn self.new.atoms change None pair.now) }
        ensures extends { Extends self.old.atoms self.new.atoms }
    {
        if pair.fresh || pair.credit < 0 {
            return Err(Halt::Unknown);
        }
        unless_unknown(pair.left.place == pair.right.place)?;
        self.come_on(&pair.path)?;
        self.show_same_turns(&pair.left.turns, &pair.right.turns)?;
        self.show_same(&pair.left.writes, &pair.right.writes, None)
    }
}

//! Sides: states by terms, and where control goes from them.

ghost use Rattle.std.specs.Prelude.{◌≡◌, option_map, slice_set, IfOk};
ghost use Rattle.f77_code.specs.Moves as moves;
ghost use Rattle.f77_symbolic.specs.Prelude.{Cells, state, site, Valuation};
ghost use Rattle.f77_symbolic.specs.{AreInside, IsInside, cells_of, slot_of, content_of, turn_of, turns_of};
ghost use Rattle.f77_symbolic.specs.code.{GoesTo};

use crate::memory::{Location, Symbolic, Write, forget};
use f77_actions::{Jump, Resolved};
use f77_code::Place;
use f77_terms::Term;
use f77_tree::Shared;
use std::alloc::{AllocError, Global};

/// What an active DO has left.
#[derive(Drop)]
pub struct SymbolicTurn {
    pub passes: Term,
    pub step: Term,
}

/// What a DO has left, if it is active.
pub type ActiveTurn = Option<Shared<SymbolicTurn>>;

/// A state: where control is, what was written to slots, and the active DOs. Sides share what no step has changed.
#[derive(Clone, Drop)]
pub struct Side {
    pub place: Place,
    pub writes: Shared<Vec<Shared<Write>>>,
    /// For each statement, what it has left if it is an active DO.
    pub turns: Shared<Vec<ActiveTurn>>,
}

/// What a step does.
#[derive(Clone, Copy, Debug, PartialEq, Eq)]
pub enum Step {
    Moves,
    Returns,
    Stops,
    /// No test has this, since the program itself faults.
    Faults,
}

/// What the DO of this number has left, if it is active.
pub(crate) fn turn_at(turns: &[ActiveTurn], d: usize) -> Option<&SymbolicTurn>
    ensures { (v : Valuation)
        → moves.turn_at (turns_of v turns.now) d ≡ option_map (λ turn. turn_of v turn.now) result }
{
    match turns.get(d) {
        Some(Some(turn)) => Some(turn),
        _ => None,
    }
}

/// Control goes on from a statement that did not jump.
pub(crate) fn go_on(side: &mut Side, resolved: &Resolved) -> Step
    ensures { (v : Valuation) → GoesTo v side.old side.new result
        (λ cells turns. moves.go_on resolved.now cells turns) }
{
    let mut ends = resolved.ends.iter().copied();
    let innermost = ends.find(|d| turn_at(&side.turns, *d).is_some());
    side.place = innermost.map_or(Place::Execute(resolved.next), Place::Increment);
    Step::Moves
}

/// Control jumps.
pub(crate) fn jump(alloc: Global, side: &mut Side, to: &Jump) -> Result<Step, AllocError>
    ensures { IfOk result (λ step. (v : Valuation)
        → GoesTo v side.old side.new step (λ cells turns. moves.jump_to to.now cells turns)) }
{
    for d in &to.leaves {
        side.set_turn(alloc, *d, None)?;
    }
    side.place = Place::Execute(to.target);
    Ok(Step::Moves)
}

/// The number of the statement of a place.
pub(crate) fn statement_of(place: Place) -> usize
    ensures { result ≡ site place }
{
    match place {
        Place::Execute(i) | Place::Increment(i) => i,
    }
}

/// Control comes to a statement.
pub(crate) fn come_to(side: &mut Side, i: usize) -> Step
    ensures { (v : Valuation) → GoesTo v side.old side.new result
        (λ cells turns. moves.Goes (state (Place.Execute i) cells turns)) }
{
    side.place = Place::Execute(i);
    Step::Moves
}

impl Side {
    /// Puts a value into the slot of a location.
    pub(crate) fn write(
        &mut self,
        alloc: Global,
        location: Location,
        value: Symbolic,
    ) -> Result<(), AllocError>
        ensures cells { IfOk result (λ _. (start : Cells) (v : Valuation) → AreInside v self.old.writes.items
            → IsInside v location → cells_of start v self.new.writes.items
            ≡ slice_set (cells_of start v self.old.writes.items) (slot_of v location) (content_of v value)) }
        ensures inside { IfOk result
            (λ _. (v : Valuation) → AreInside v self.old.writes.items → IsInside v location
            → AreInside v self.new.writes.items) }
        ensures turns { self.new.turns ≡ self.old.turns }
    {
        let mut writes = self.writes.to_vec(alloc)?;
        forget(&mut writes, &location);
        writes.push(Shared::new(alloc, Write { location, value })?)?;
        self.writes = Shared::new(alloc, writes)?;
        Ok(())
    }

    /// Sets what the DO of this number has left.
    pub(crate) fn set_turn(
        &mut self,
        alloc: Global,
        d: usize,
        turn: ActiveTurn,
    ) -> Result<(), AllocError>
        ensures turns { IfOk result (λ _. (v : Valuation) → turns_of v self.new.turns.items
            ≡ slice_set (turns_of v self.old.turns.items) d (option_map (turn_of v) turn)) }
        ensures writes { self.new.writes ≡ self.old.writes }
    {
        let mut turns = self.turns.to_vec(alloc)?;
        if d < turns.len() {
            turns[d] = turn;
        }
        self.turns = Shared::new(alloc, turns)?;
        Ok(())
    }
}

//! Cuts: the places from which the program is walked. They are its start, and each place to which control comes on more
//! than one way: so no loop is without one, and few paths lead from one to the next.

ghost use Rattle.std.specs.Prelude.{◌≡◌, ◌<◌, true, length, option_map, IfOk};
ghost use Rattle.f77_code.specs.declared.control.Place.TheVariants as Place;
ghost use Rattle.f77_symbolic.specs.Prelude.{list_any, turn_at, AreLeft, State, SuitsTurn, TurnList};
ghost use Rattle.f77_symbolic.specs.{AreTurnNumbers, IsVisit, is_same_place, turn_of};
ghost use Rattle.f77_symbolic.specs.code.{Always, Extends, StaysOn};

use crate::evaluator::Evaluator;
use crate::halt::{Halt, unless_unknown};
use crate::sides::{ActiveTurn, Side, SymbolicTurn};
use crate::visiting::Visit;
use f77_actions::{Action, Resolved};
use f77_code::Place;
use f77_facts::LoopFact;
use f77_terms::{Key, item_at};
use f77_tree::Shared;
use std::alloc::{AllocError, Global};

/// No program has so many slots or statements.
const MOST_SLOTS: usize = 1000000000000;

/// The place is one of the cuts.
pub(crate) fn is_cut(places: &[Place], place: Place) -> bool
    ensures { result ≡ list_any (λ other. is_same_place other place) places.now }
{
    places.iter().any(|other| *other == place)
}

/// Adds each statement to which control may come from one with this action. A DO comes to its first statement, and to
/// what is behind its last, where it begins and where it is incremented.
fn add_comings(
    comings: &mut Vec<usize>,
    statements: &[Shared<Resolved>],
    i: usize,
    action: &Action,
) -> Result<(), AllocError>
    requires { i < length statements.now }
{
    match action {
        Action::Goto(jump) => return Ok(comings.push(jump.target)?),
        Action::ComputedGoto { jumps, .. } => {
            comings.extend(jumps.iter().map(|jump| jump.target))?;
        }
        Action::ArithmeticIf {
            negative,
            zero,
            positive,
            ..
        } => return comings.extend([negative.target, zero.target, positive.target]),
        Action::LogicalIf { action, .. } => add_comings(comings, statements, i, action)?,
        Action::Branch { otherwise, .. } => comings.push(*otherwise)?,
        Action::Loop { terminal, .. } => {
            let behind = statements.get(*terminal).map_or(i, |end| end.next);
            return comings.extend([i + 1, i + 1, behind, behind]);
        }
        Action::AssignNumber(..) | Action::AssignTruth(..) | Action::Continue => {}
        Action::Return | Action::Stop | Action::Trap | Action::Declaration => return Ok(()),
    }
    if statements[i].ends.len() == 0 {
        comings.push(statements[i].next)?;
    }
    Ok(())
}

/// The place where runs start, and behind it, where they are asked for, each to which control comes on more ways: that
/// one again where control comes back to it.
pub fn cuts_of(
    alloc: Global,
    statements: &[Shared<Resolved>],
    entry: usize,
    joins: bool,
) -> Result<Vec<Place>, AllocError>
    ensures { IfOk result (λ places.
        list_any (λ other. is_same_place other (Place.Execute entry)) places.items ≡ true) }
{
    let mut comings = vec![in alloc; entry]?;
    for i in 0..statements.len() {
        add_comings(&mut comings, statements, i, &statements[i].action)?;
    }
    let is_join = |i: &usize| comings.iter().filter(|to| *to == i).count() > 1;
    let mut places = vec![in alloc; Place::Execute(entry)]?;
    if joins {
        places.extend((0..statements.len()).filter(is_join).map(Place::Execute))?;
    }
    Ok(places)
}

#[tactic(auto, using(crate::proofs::Extending::extending))]
impl Evaluator {
    /// What the DO d has left.
    fn turn_known(&mut self, d: usize, count: usize, fact: LoopFact) -> Result<ActiveTurn, Halt>
        ensures stands { IfOk result (λ turn. Always self.old self.new (λ start v. (turns : TurnList)
            → AreTurnNumbers (length self.old.atoms.facts.items) count turns start
            → SuitsTurn fact (turn_at turns d) → d < count
            → StaysOn v self.old self.new × (option_map (turn_of v) turn ≡ turn_at turns d))) }
        ensures extends { Extends self.old.atoms self.new.atoms }
    {
        let LoopFact::Active { passes, step } = fact else {
            return Ok(None);
        };
        unless_unknown(self.atoms.facts.len().max(count).max(d) < MOST_SLOTS)?;
        // Behind the slots there is whether each holds a value.
        let first = 2 * self.atoms.facts.len();
        let passes = self.unknown_number(Key::Slot(first + d), passes)?;
        let step = self.unknown_number(Key::Slot(first + count + d), step)?;
        Ok(Some(Shared::new(self.alloc, SymbolicTurn { passes, step })?))
    }

    /// The first visit of a walk from an entry.
    pub(crate) fn first_visit(
        &mut self,
        count: usize,
        place: Place,
        loops: &[LoopFact],
    ) -> Result<Visit, Halt>
        requires { length loops.now ≡ count }
        ensures first { IfOk result (λ visit. Always self.old self.new (λ start v. (s : State) → start.cells ≡ s.cells
            → AreTurnNumbers (length self.old.atoms.facts.items) count s.turns start → place ≡ s.place
            → AreLeft loops.now s.turns → IsVisit start v s visit)) }
        ensures extends { Extends self.old.atoms self.new.atoms }
    {
        let mut turns = Vec::with_capacity(self.alloc, count)?;
        for d in 0..count {
            let turn = self.turn_known(d, count, *item_at(loops, d))?;
            turns.push(turn)?;
        }
        let side = Side {
            place,
            writes: Shared::new(self.alloc, Vec::new(self.alloc))?,
            turns: Shared::new(self.alloc, turns)?,
        };
        let path = self.taken_path();
        Ok(Visit { path, side })
    }
}

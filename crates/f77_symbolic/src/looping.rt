//! DOs that begin, and that are incremented.

ghost use Rattle.std.specs.Prelude.{Some, slice_set, IfOk};
ghost use Rattle.f77_symbolic.specs.Prelude.{Resolved, state, sum_value};
ghost use Rattle.f77_actions.specs.declared.value.Value.TheVariants as held;
ghost use Rattle.f77_code.specs.Moves as moves;
ghost use Rattle.f77_code.specs.declared.control.Place.TheVariants as Place;
ghost use Rattle.f77_symbolic.specs.code.{Extends, AlwaysSteps};
ghost use Rattle.f77_symbolic.specs.{passes_left};

use crate::evaluator::Evaluator;
use crate::halt::{Halt, unless_unknown};
use crate::memory::{Symbolic, fixed};
use crate::sides::{Side, Step, SymbolicTurn, come_to, go_on, turn_at};
use crate::stepping::statement_at;
use f77_actions::{Action, Resolved};
use f77_terms::{Term, copy};
use f77_tree::Shared;

#[tactic(auto, using(crate::proofs::Extending::extending))]
impl Evaluator {
    /// The DO variable gets a number, and the DO d, which ends at this terminal statement, has this left: it goes on
    /// to its first statement, unless it has no pass left.
    fn advance(
        &self,
        side: &mut Side,
        statements: &[Shared<Resolved>],
        d: usize,
        terminal: usize,
        variable: usize,
        number: Term,
        left: SymbolicTurn,
    ) -> Result<Step, Halt>
        ensures { IfOk result (λ found. AlwaysSteps self.now self.now side.old side.new found
            (λ v cells turns. Some (moves.passing_at statements.now terminal d (passes_left (sum_value v left.passes))
            (sum_value v left.step) (slice_set cells variable (Some (held.Number (sum_value v number)))) turns))) }
    {
        let end = statement_at(statements, terminal)?;
        side.write(
            self.alloc,
            fixed(self.alloc, variable),
            Symbolic::Number(number),
        )?;
        if self.is_negative(&self.plus(1, &left.passes, -1)?)? {
            side.set_turn(self.alloc, d, None)?;
            return Ok(go_on(side, end));
        }
        side.set_turn(self.alloc, d, Some(Shared::new(self.alloc, left)?))?;
        Ok(come_to(side, d.checked_add(1).ok_or(Halt::Unknown)?))
    }

    /// The DO d begins.
    pub(crate) fn begin(
        &mut self,
        side: &mut Side,
        statements: &[Shared<Resolved>],
        d: usize,
        action: &Action,
    ) -> Result<Step, Halt>
        ensures steps { IfOk result (λ found. (r : Resolved) → AlwaysSteps self.old self.new side.old side.new found
            (λ v cells turns. Some (moves.acted statements.now d r action.now cells turns))) }
        ensures extends { Extends self.old.atoms self.new.atoms }
    {
        let Action::Loop {
            variable,
            first,
            last,
            step,
            terminal,
        } = action
        else {
            return Err(Halt::Unknown);
        };
        let first = self.number_of(&side.writes, first)?;
        let last = self.number_of(&side.writes, last)?;
        let step = self.number_of(&side.writes, step)?;
        if self.is_nothing(&step)? {
            unless_unknown(self.own)?;
            return Ok(Step::Faults);
        }
        let distance = self.combination(1, &last, -1, &first)?;
        let dividend = self.combination(1, &distance, 1, &step)?;
        let (passes, _) = self.divided(&dividend, &step)?;
        self.advance(
            side,
            statements,
            d,
            *terminal,
            *variable,
            first,
            SymbolicTurn { passes, step },
        )
    }

    /// The DO d is incremented.
    pub(crate) fn increment(
        &mut self,
        side: &mut Side,
        statements: &[Shared<Resolved>],
        d: usize,
    ) -> Result<Step, Halt>
        ensures steps { IfOk result (λ found. AlwaysSteps self.old self.new side.old side.new found
            (λ v cells turns. moves.moved statements.now (state (Place.Increment d) cells turns))) }
        ensures extends { Extends self.old.atoms self.new.atoms }
    {
        let Action::Loop {
            variable,
            terminal,
            ..
        } = &statement_at(statements, d)?.action
        else {
            return Err(Halt::Unknown);
        };
        let turn = turn_at(&side.turns, d).ok_or(Halt::Unknown)?;
        let value = self.read(&side.writes, &fixed(self.alloc, *variable))?;
        let before = self.whole(value)?;
        let next = self.combination(1, &before, 1, &turn.step)?;
        let number = self.ranged(next)?;
        let passes = self.plus(1, &turn.passes, -1)?;
        let step = copy(&turn.step)?;
        self.advance(
            side,
            statements,
            d,
            *terminal,
            *variable,
            number,
            SymbolicTurn { passes, step },
        )
    }
}

//! One step of a program from a side, and what a statement does to it.

ghost use Rattle.std.specs.Prelude.{◌≡◌, true, slice_get, Some, IfOk};
ghost use Rattle.f77_symbolic.specs.Prelude.{Resolved, acted, moved, state, Holds, Valuation, sum_value};
ghost use Rattle.f77_code.specs.Choice as choice;
ghost use Rattle.f77_symbolic.specs.code.{Extends, Acts, AlwaysSteps, StepsFrom};

use crate::evaluator::Evaluator;
use crate::halt::{Halt, unless_unknown};
use crate::memory::Symbolic;
use crate::sides::{Side, Step, come_to, go_on, jump};
use f77_actions::{Action, Condition, Element, Jump, Number, Resolved};
use f77_code::Place;
use f77_equivalence::ways::is_executed;
use f77_terms::{Path, Term, constant_of, constant_term, is_refuted, item_at};
use f77_tree::Shared;

/// The path expects of 0 that it is not 0, or of a number above 0 that it is at most 0: it holds nowhere, since the
/// program itself faults.
fn is_ruled_out(path: &Path) -> bool
    ensures { result ≡ true → (v : Valuation) → ¬ (Holds v path.now) }
{
    for term in &path.unequal {
        if constant_of(term) == Some(0) {
            return true;
        }
    }
    is_refuted(&path.below)
}

/// The statement of this number, if there is one.
pub(crate) fn statement_at(statements: &[Shared<Resolved>], i: usize) -> Result<&Resolved, Halt>
    ensures { IfOk result (λ resolved. slice_get statements.now i ≡ Some resolved.now) }
{
    if i >= statements.len() {
        return Err(Halt::Unknown);
    }
    Ok(&**item_at(statements, i))
}

#[tactic(auto, using(crate::proofs::Extending::extending))]
impl Evaluator {
    /// A number is assigned. The slot is found before the value.
    fn assign_number(
        &mut self,
        side: &mut Side,
        resolved: &Resolved,
        e: &Element,
        x: &Number,
    ) -> Result<Step, Halt>
        ensures acts { IfOk result (λ step. Acts self.old self.new side.old side.new step resolved.now
            (Action.AssignNumber e.now x.now)) }
        ensures extends { Extends self.old.atoms self.new.atoms }
    {
        let location = self.location_of(&side.writes, e)?;
        let term = self.number_of(&side.writes, x)?;
        side.write(self.alloc, location, Symbolic::Number(term))?;
        Ok(go_on(side, resolved))
    }

    /// A truth value is assigned: a constant, since the path is split before.
    fn assign_truth(
        &mut self,
        side: &mut Side,
        resolved: &Resolved,
        e: &Element,
        c: &Condition,
    ) -> Result<Step, Halt>
        ensures acts { IfOk result (λ step. Acts self.old self.new side.old side.new step resolved.now
            (Action.AssignTruth e.now c.now)) }
        ensures extends { Extends self.old.atoms self.new.atoms }
    {
        let location = self.location_of(&side.writes, e)?;
        let b = self.truth_of(&side.writes, c)?;
        let term = constant_term(self.alloc, i64::from(b));
        side.write(self.alloc, location, Symbolic::Truth(term))?;
        Ok(go_on(side, resolved))
    }

    /// The jump that an arithmetic IF chooses by a number.
    fn by_sign<'a>(
        &self,
        number: &Term,
        negative: &'a Jump,
        zero: &'a Jump,
        positive: &'a Jump,
    ) -> Result<&'a Jump, Halt>
        ensures { IfOk result (λ to. (v : Valuation) → Holds v self.now.path
            → choice.by_sign (sum_value v number.now) negative.now zero.now positive.now ≡ to.now) }
    {
        if self.is_nothing(number)? {
            return Ok(zero);
        }
        if self.is_negative(number)? {
            return Ok(negative);
        }
        Ok(positive)
    }

    /// A GO TO, a computed one, or an arithmetic IF.
    fn jump_on(
        &mut self,
        side: &mut Side,
        resolved: &Resolved,
        action: &Action,
    ) -> Result<Step, Halt>
        ensures acts { IfOk result (λ step. Acts self.old self.new side.old side.new step resolved.now action.now) }
        ensures extends { Extends self.old.atoms self.new.atoms }
    {
        match action {
            Action::Goto(to) => Ok(jump(self.alloc, side, to)?),
            Action::ComputedGoto { value, jumps } => {
                let number = self.number_of(&side.writes, value)?;
                match self.item_of(&number, jumps.len())? {
                    Some(place) if place < jumps.len() => {
                        Ok(jump(self.alloc, side, item_at(jumps, place))?)
                    }
                    Some(_) => Err(Halt::Unknown),
                    None => Ok(go_on(side, resolved)),
                }
            }
            Action::ArithmeticIf {
                value,
                negative,
                zero,
                positive,
            } => {
                let number = self.number_of(&side.writes, value)?;
                let to = self.by_sign(&number, negative, zero, positive)?;
                Ok(jump(self.alloc, side, to)?)
            }
            _ => Err(Halt::Unknown),
        }
    }

    /// What the statement i does.
    pub(crate) fn act(
        &mut self,
        side: &mut Side,
        statements: &[Shared<Resolved>],
        i: usize,
        resolved: &Resolved,
        action: &Action,
    ) -> Result<Step, Halt>
        ensures steps { IfOk result (λ step. AlwaysSteps self.old self.new side.old side.new step
            (λ v cells turns. Some (acted statements.now i resolved.now action.now cells turns))) }
        ensures extends { Extends self.old.atoms self.new.atoms }
    {
        match action {
            Action::AssignNumber(e, x) => self.assign_number(side, resolved, e, x),
            Action::AssignTruth(e, c) => self.assign_truth(side, resolved, e, c),
            Action::LogicalIf { condition, action } => {
                if self.truth_of(&side.writes, condition)? {
                    return self.act(side, statements, i, resolved, action);
                }
                Ok(go_on(side, resolved))
            }
            Action::Branch {
                condition,
                otherwise,
            } => {
                if self.truth_of(&side.writes, condition)? {
                    return Ok(go_on(side, resolved));
                }
                Ok(come_to(side, *otherwise))
            }
            Action::Goto(_) | Action::ComputedGoto { .. } | Action::ArithmeticIf { .. } => {
                self.jump_on(side, resolved, action)
            }
            Action::Continue => Ok(go_on(side, resolved)),
            Action::Loop { .. } => self.begin(side, statements, i, action),
            Action::Return => Ok(Step::Returns),
            Action::Stop => Ok(Step::Stops),
            Action::Trap => {
                unless_unknown(self.own)?;
                Ok(Step::Faults)
            }
            Action::Declaration => Err(Halt::Unknown),
        }
    }

    /// One step of a program.
    fn step(&mut self, side: &mut Side, statements: &[Shared<Resolved>]) -> Result<Step, Halt>
        ensures steps { IfOk result (λ step. AlwaysSteps self.old self.new side.old side.new step
            (λ v cells turns. moved statements.now (state side.old.place cells turns))) }
        ensures extends { Extends self.old.atoms self.new.atoms }
    {
        match side.place {
            Place::Execute(i) => {
                let resolved = statement_at(statements, i)?;
                unless_unknown(is_executed(&resolved.action))?;
                self.act(side, statements, i, resolved, &resolved.action)
            }
            Place::Increment(d) => self.increment(side, statements, d),
        }
    }

    /// One step of a program from a side, where a path holds, and the side behind it. Where it is the program itself
    /// its faults are left out; else it is shown that there is none.
    pub(crate) fn step_from(
        &mut self,
        path: &Path,
        own: bool,
        side: &Side,
        statements: &[Shared<Resolved>],
    ) -> Result<(Step, Side), Halt>
        ensures steps { IfOk result (λ found. StepsFrom path.now own self.new side.now found.1 found.0
            (λ v cells turns. moved statements.now (state side.now.place cells turns))) }
        ensures extends { Extends self.old.atoms self.new.atoms }
    {
        self.come_on(path)?;
        self.own = own;
        let mut after = side.clone()?;
        let step = self.step(&mut after, statements)?;
        if own && is_ruled_out(&self.path) {
            return Ok((Step::Faults, after));
        }
        Ok((step, after))
    }
}

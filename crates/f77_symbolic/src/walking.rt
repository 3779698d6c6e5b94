//! The walk of a program and a changed one: pair by pair, each of which gives way to those that its step leads to.

ghost use Rattle.std.specs.Prelude.{◌≡◌, ◌⊎◌, true, false, is_some, IfNone, IfOk, IfSome};
ghost use Rattle.f77_symbolic.specs.Prelude.{Holds, Valuation};
ghost use Rattle.f77_symbolic.specs.code.{on_path, Extends, AreSettled, ComesToEnd, GivesWay, RestsOn};

use crate::change::Change;
use crate::evaluator::{Evaluator, add_other_sign};
use crate::halt::{Halt, told, unless_unknown};
use crate::sides::{Side, Step, statement_of};
use crate::work::Work;
use f77_actions::{Action, Resolved};
use f77_code::Place;
use f77_terms::{Path, Term, add_below, add_equal, copied_path, new_path, settle};
use f77_tree::Shared;
use std::alloc::AllocError;
use std::cmp::Ordering;
use std::mem;

/// The changed program may be so many steps behind at most.
const MOST_SPARE: i64 = 100;

/// A state of the program, and one of the changed program, which is to follow it.
#[derive(Drop)]
pub struct Pair {
    pub path: Path,
    pub left: Side,
    pub right: Side,
    /// The steps that the program made, less those of the changed program.
    pub credit: i64,
    /// The program made no step yet.
    pub fresh: bool,
}

/// The path where the term has this sign, and the one where it has not.
fn split_path(path: &Path, term: &Term, sign: Ordering) -> Result<(Path, Path), AllocError>
    ensures { IfOk result (λ ways. (v : Valuation) → Holds v path.now → Holds v ways.0 ⊎ Holds v ways.1) }
{
    let mut first = copied_path(path)?;
    let mut second = copied_path(path)?;
    match sign {
        Ordering::Less => add_below(&mut first, 1, term, 1)?,
        Ordering::Equal => add_equal(&mut first, term)?,
        Ordering::Greater => add_below(&mut first, -1, term, 1)?,
    }
    add_other_sign(&mut second, term, sign)?;
    settle(&mut first);
    settle(&mut second);
    Ok((first, second))
}

/// Where a place stands in the text: that of a DO that is incremented behind its last statement, and RETURN and STOP
/// behind all.
fn order_of(statements: &[Shared<Resolved>], place: Place) -> usize {
    let Some(resolved) = statements.get(statement_of(place)) else {
        return 0;
    };
    match (place, &resolved.action) {
        (Place::Execute(_), Action::Return | Action::Stop) => usize::MAX,
        (Place::Execute(i), _) => i.saturating_mul(2),
        (Place::Increment(_), Action::Loop { terminal, .. }) => terminal
            .saturating_mul(2)
            .saturating_add(1),
        _ => 0,
    }
}

#[tactic(auto, using(crate::proofs::Extending::extending))]
impl Evaluator {
    /// The path, in the place of which there is an empty one.
    pub(crate) fn taken_path(&mut self) -> Path
        ensures path { result ≡ self.old.path }
        ensures extends { Extends self.old.atoms self.new.atoms }
    {
        mem::replace(&mut self.path, new_path(self.alloc))
    }

    /// The changed program makes a step, where this path holds: how it ends by it, or the pair behind it.
    fn other_step(
        &mut self,
        change: &Change,
        path: &Path,
        pair: &Pair,
    ) -> Result<(Step, Option<Pair>), Halt>
        ensures rests { IfOk result (λ found. is_some found.1 ≡ true
            → RestsOn self.new.atoms change.now found.1 (on_path path.now pair.now)) }
        ensures ends { IfOk result (λ found. is_some found.1 ≡ false
            → ComesToEnd change.now self.new found.0 (on_path path.now pair.now)) }
        ensures extends { Extends self.old.atoms self.new.atoms }
    {
        let (step, right) = self.step_from(path, false, &pair.right, &change.statements)?;
        if step != Step::Moves {
            return Ok((step, None));
        }
        unless_unknown(pair.credit > -MOST_SPARE)?;
        let next = Pair {
            path: self.taken_path(),
            left: pair.left.clone()?,
            right,
            credit: pair.credit - 1,
            fresh: pair.fresh,
        };
        Ok((step, Some(next)))
    }

    /// The program makes a step. Where that is its end the changed one makes one more, where what is assumed of the
    /// program's holds: it ends alike, and the dummy arguments hold the same, or goes on.
    fn own_turn(&mut self, change: &Change, pair: &Pair) -> Result<Option<Pair>, Halt>
        ensures rests { IfOk result (λ next. RestsOn self.new.atoms change.now next pair.now) }
        ensures extends { Extends self.old.atoms self.new.atoms }
    {
        let (step, left) = self.step_from(&pair.path, true, &pair.left, &change.own)?;
        match step {
            Step::Moves => Ok(Some(Pair {
                path: self.taken_path(),
                left,
                right: pair.right.clone()?,
                credit: pair.credit.checked_add(1).ok_or(Halt::Unknown)?,
                fresh: false,
            })),
            Step::Faults => Ok(None),
            Step::Returns | Step::Stops => {
                let path = self.taken_path();
                let (other, next) = self.other_step(change, &path, pair)?;
                if next.is_some() {
                    return Ok(next);
                }
                unless_unknown(other == step)?;
                self.show_same(&pair.left.writes, &pair.right.writes, Some(&change.dummies))?;
                Ok(None)
            }
        }
    }

    /// The changed program makes a step. Where that is its end, the program goes on.
    fn other_turn(&mut self, change: &Change, pair: &Pair) -> Result<Option<Pair>, Halt>
        ensures rests { IfOk result (λ next. RestsOn self.new.atoms change.now next pair.now) }
        ensures extends { Extends self.old.atoms self.new.atoms }
    {
        let (_end, next) = self.other_step(change, &pair.path, pair)?;
        if next.is_some() {
            return Ok(next);
        }
        self.own_turn(change, pair)
    }

    /// The pair that the next step leads to, if there is more to show. Where both are at one place, both make a step.
    fn next_pair(&mut self, change: &Change, pair: &Pair) -> Result<Option<Pair>, Halt>
        ensures rests { IfOk result (λ next. RestsOn self.new.atoms change.now next pair.now) }
        ensures extends { Extends self.old.atoms self.new.atoms }
    {
        if told(self.show_met(pair))?.is_some() {
            return Ok(None);
        }
        let own = order_of(&change.own, pair.left.place);
        if own > order_of(&change.own, pair.right.place) {
            return self.other_turn(change, pair);
        }
        match self.own_turn(change, pair)? {
            Some(next) if pair.left.place == pair.right.place && next.credit > pair.credit => {
                self.other_turn(change, &next)
            }
            next => Ok(next),
        }
    }

    /// The two paths into which one is split. None where nothing is told of it: then it is refuted.
    pub(crate) fn ways_of(&mut self, halt: Halt, path: &Path) -> Result<Option<(Path, Path)>, Halt>
        ensures split { IfOk result (λ found. IfSome found
            (λ ways. (v : Valuation) → Holds v path.now → Holds v ways.0 ⊎ Holds v ways.1)) }
        ensures refuted { IfOk result (λ found. IfNone found ((v : Valuation) → ¬ (Holds v path.now))) }
        ensures extends { Extends self.old.atoms self.new.atoms }
    {
        match halt {
            Halt::Split(term, sign) => Ok(Some(split_path(path, &term, sign)?)),
            Halt::Unknown => {
                self.come_on(path)?;
                unless_unknown(self.is_dead()?)?;
                Ok(None)
            }
            Halt::Memory => Err(Halt::Memory),
        }
    }

    /// A pair gives way to those that its next step leads to, or to the two into which it is split. Where nothing is
    /// told it is settled if its path does not hold.
    fn give_way(
        &mut self,
        change: &Change,
        mut pair: Pair,
        todo: &mut Vec<Pair>,
    ) -> Result<(), Halt>
        ensures gives { IfOk result (λ _. GivesWay self.new.atoms change.now todo.old.items todo.new.items pair) }
        ensures extends { Extends self.old.atoms self.new.atoms }
    {
        match self.next_pair(change, &pair) {
            Ok(Some(next)) => {
                todo.push(next)?;
                Ok(())
            }
            Ok(None) => Ok(()),
            Err(halt) => {
                let Some((path, other)) = self.ways_of(halt, &pair.path)? else {
                    return Ok(());
                };
                let left = pair.left.clone()?;
                let right = pair.right.clone()?;
                todo.push(Pair {
                    path,
                    left,
                    right,
                    ..pair
                })?;
                pair.path = other;
                todo.push(pair)?;
                Ok(())
            }
        }
    }

    /// The pairs are settled, by the work that may be taken. Gives by how many steps at most the changed program was
    /// behind.
    pub(crate) fn follow(
        &mut self,
        change: &Change,
        mut todo: Vec<Pair>,
        work: &mut Work,
    ) -> Result<u64, Halt>
        ensures settled { IfOk result (λ behind. AreSettled self.new.atoms change.now behind todo.items) }
        ensures extends { Extends self.old.atoms self.new.atoms }
    {
        let mut behind = 0;
        while work.is_left() {
            let Some(pair) = todo.pop() else {
                return Ok(behind);
            };
            behind = behind.max(pair.credit.min(0).unsigned_abs());
            let cost = self.samples.cost(&pair.path, &pair.left);
            work.left = work.left.saturating_sub(cost);
            let (own, other) = (
                statement_of(pair.left.place),
                statement_of(pair.right.place),
            );
            self.samples.come_to(own, other);
            self.give_way(change, pair, &mut todo)?;
        }
        Err(Halt::Unknown)
    }
}

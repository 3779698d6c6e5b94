//! What is known of a state to which the program comes: bounds of what slots hold, and of what DOs have left.

ghost use Rattle.std.specs.Prelude.{◌<◌, not, pos, vec_len, option_map, slice_set, Some, IfOk};
ghost use Rattle.f77_actions.specs.declared.value.Value.TheVariants.{Truth};
ghost use Rattle.f77_symbolic.specs.Prelude.{is_same, Cells, AreIn, SuitsFact, number_of, AreLeft, SuitsTurn};
ghost use Rattle.f77_symbolic.specs.Prelude.{FitsTable, Holds, IsIn, Valuation, sum_value};
ghost use Rattle.f77_symbolic.specs.{AreNumbers, Interprets, AreInside, IsInside, Start, cells_of, content_of, slot_of};
ghost use Rattle.f77_symbolic.specs.{passes_left, state_of, turn_of, turns_of, IsOfEntry};
ghost use Rattle.f77_symbolic.specs.code.{Extends};

use crate::evaluator::Evaluator;
use crate::halt::{Halt, unless_unknown};
use crate::memory::{Location, Symbolic, Write};
use crate::sides::{ActiveTurn, Side};
use f77_facts::assigning::{Slots, assign};
use f77_facts::{Entry, Fact, LoopFact, filled, set};
use f77_terms::ranges::common;
use f77_terms::{Key, Range, Term, atom_range, constant_term, item_at, settle, term_range};
use f77_tree::{Kind, Shared};
use std::alloc::AllocError;

#[tactic(auto, using(crate::proofs::Extending::extending))]
impl Evaluator {
    /// The range of a term, which INTEGER holds.
    fn range_of(&self, term: &Term) -> Result<Range, Halt>
        ensures { IfOk result (λ range. (v : Valuation) → Holds v self.now.path
            → IsIn range (sum_value v term.now)) }
    {
        let low = i64::from(i32::MIN);
        let high = i64::from(i32::MAX);
        unless_unknown(self.is_at_most(&constant_term(self.alloc, low), term)?)?;
        unless_unknown(self.is_at_most(term, &constant_term(self.alloc, high))?)?;
        let whole = Range { low, high };
        match term_range(&self.path.known, term) {
            Some(range) => Ok(common(range, whole)),
            None => Ok(whole),
        }
    }

    /// The numbers of the truth values that a term stands for.
    fn truths_of(&self, term: &Term) -> Range
        ensures { (v : Valuation) → Holds v self.now.path
            → IsIn result (number_of (Some (Truth (not (is_same (sum_value v term.now) (pos 0)))))) }
    {
        match term_range(&self.path.known, term) {
            Some(range) if range.low > 0 || range.high < 0 => Range { low: 1, high: 1 },
            Some(Range { low: 0, high: 0 }) => Range { low: 0, high: 0 },
            _ => Range { low: 0, high: 1 },
        }
    }

    /// What is known of a value.
    fn fact_of(&self, value: &Symbolic) -> Result<Fact, Halt>
        ensures { IfOk result (λ fact. (v : Valuation) → Holds v self.now.path
            → SuitsFact fact (content_of v value.now)) }
    {
        match value {
            Symbolic::Number(term) => Ok(filled(Kind::Integer, self.range_of(term)?)),
            Symbolic::Truth(term) => Ok(filled(Kind::Logical, self.truths_of(term))),
        }
    }

    /// Takes a write into account.
    fn take_in(&self, facts: &mut [Fact], write: &Write) -> Result<(), Halt>
        ensures { IfOk result (λ _. (cells : Cells) (v : Valuation) → Holds v self.now.path
            → IsInside v write.now.location → AreIn facts.old cells
            → AreIn facts.new (slice_set cells (slot_of v write.now.location) (content_of v write.now.value))) }
    {
        let fact = self.fact_of(&write.value)?;
        let Location { first, count, .. } = write.location;
        assign(facts, Slots { first, count }, fact).ok_or(Halt::Unknown)
    }

    /// Takes into account what is known of an atom: the number of a slot, or, behind these, whether it holds a value.
    fn narrow_by(&self, facts: &mut [Fact], atom: usize)
        requires { atom < vec_len self.now.atoms.table.keys }
        ensures { (start : Start) (v : Valuation) → FitsTable start.numbers v self.now.atoms.table
            → Holds v self.now.path → AreIn facts.old start.cells → AreNumbers start
            → AreIn facts.new start.cells }
    {
        let Some(range) = atom_range(&self.path.known, atom) else {
            return;
        };
        let Key::Slot(number) = **item_at(&self.atoms.table.keys, atom) else {
            return;
        };
        let slots = facts.len();
        if number < slots {
            let fact = *item_at(facts, number);
            let range = common(fact.range, range);
            set(facts, number, Fact { range, ..fact });
            return;
        }
        if number - slots >= slots || range.low < 1 {
            return;
        }
        let may_lack = false;
        let fact = *item_at(facts, number - slots);
        set(facts, number - slots, Fact { may_lack, ..fact });
    }

    /// What is known of what slots held where the walk starts.
    fn facts_at_start(&self) -> Result<Vec<Fact>, AllocError>
        ensures { IfOk result (λ facts. (start : Start) (v : Valuation) → Interprets self.now.atoms start v
            → Holds v self.now.path → AreIn facts.items start.cells) }
    {
        let mut facts = self.atoms.facts.to_vec(self.alloc)?;
        for atom in 0..self.atoms.table.keys.len() {
            self.narrow_by(&mut facts, atom);
        }
        Ok(facts)
    }

    /// What is known of slots behind the writes.
    fn facts_behind(&self, writes: &[Shared<Write>]) -> Result<Vec<Fact>, Halt>
        ensures { IfOk result (λ facts. (start : Start) (v : Valuation) → Interprets self.now.atoms start v
            → Holds v self.now.path → AreInside v writes.now
            → AreIn facts.items (cells_of start.cells v writes.now)) }
    {
        let mut facts = self.facts_at_start()?;
        for write in writes {
            self.take_in(&mut facts, write)?;
        }
        Ok(facts)
    }

    /// How many passes a DO has left.
    fn passes_of(&self, passes: &Term) -> Result<Range, Halt>
        ensures { IfOk result (λ range. (v : Valuation) → Holds v self.now.path
            → IsIn range (pos (passes_left (sum_value v passes.now)))) }
    {
        let Some(range) = term_range(&self.path.known, passes) else {
            return Err(Halt::Unknown);
        };
        Ok(Range {
            low: range.low.max(0),
            high: range.high.max(0),
        })
    }

    /// What is known of what a DO has left.
    fn loop_fact(&self, turn: &ActiveTurn) -> Result<LoopFact, Halt>
        ensures { IfOk result (λ fact. (v : Valuation) → Holds v self.now.path
            → SuitsTurn fact (option_map (turn_of v) turn.now)) }
    {
        let Some(turn) = turn else {
            return Ok(LoopFact::Inactive);
        };
        let passes = self.passes_of(&turn.passes)?;
        let step = self.range_of(&turn.step)?;
        Ok(LoopFact::Active { passes, step })
    }

    /// What is known of what each DO has left.
    fn loops_of(&self, turns: &[ActiveTurn]) -> Result<Vec<LoopFact>, Halt>
        ensures { IfOk result (λ loops. (v : Valuation) → Holds v self.now.path
            → AreLeft loops.items (turns_of v turns.now)) }
    {
        let mut loops = Vec::with_capacity(self.alloc, turns.len())?;
        for turn in turns {
            loops.push(self.loop_fact(turn)?)?;
        }
        Ok(loops)
    }

    /// What is known of the state of a side, where the path holds and the ranges of atoms were narrowed: twice, since
    /// what is not 0 may narrow what others narrow then.
    pub(crate) fn settled_entry(&mut self, side: &Side) -> Result<Entry, Halt>
        ensures entry { IfOk result (λ entry. (start : Start) (v : Valuation) → Interprets self.old.atoms start v
            → Holds v self.old.path → AreInside v side.now.writes.items
            → IsOfEntry entry (state_of start.cells v side.now)) }
        ensures extends { Extends self.old.atoms self.new.atoms }
    {
        settle(&mut self.path);
        settle(&mut self.path);
        let facts = self.facts_behind(&side.writes)?;
        let loops = self.loops_of(&side.turns)?;
        Ok(Entry {
            place: side.place,
            facts,
            loops,
        })
    }
}

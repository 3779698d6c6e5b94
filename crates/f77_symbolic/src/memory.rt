//! What slots hold: what they held where the run started, and what was written since.

ghost use Rattle.std.specs.Prelude.{◌≡◌, ◌+◌, ◌<◌, ◌≤◌, ◌↔◌, ℕ, [], Option, Some, length, slice_set, true};
ghost use Rattle.std.specs.Prelude.{IfOk, IfSome, IsTrue};
ghost use Rattle.f77_symbolic.specs.Prelude.{Value, Cells, SuitsFact, kind_of_value, number_of, key_value, Holds};
ghost use Rattle.f77_symbolic.specs.Prelude.{Numbers, slot_behind, Valuation, sum_value};
ghost use Rattle.f77_symbolic.specs.{presence_of, AreInside, IsInside, cells_of, slot_of, content_of};
ghost use Rattle.f77_symbolic.specs.code.{Extends, Always, GoesOnIfHeld, IsKnownAt, ReadsSlot};

use crate::evaluator::Evaluator;
use crate::halt::{Halt, unless_unknown};
use f77_facts::{Fact, hull_of};
use f77_terms::{Key, Range, Term, add_range, atom_range, constant_term, copy, is_empty, item_at};
use f77_tree::{Kind, Shared};
use std::alloc::{AllocError, Global};
use std::cmp::Ordering;

/// One of so many slots from the first one on: it lies so far behind that.
#[derive(Drop)]
pub struct Location {
    pub first: usize,
    pub count: usize,
    pub index: Term,
}

/// What a slot holds.
#[derive(Clone, Drop)]
pub enum Symbolic {
    Number(Term),
    /// It is true where the term is not 0.
    Truth(Term),
}

/// A value that was put into a slot.
#[derive(Drop)]
pub struct Write {
    pub location: Location,
    pub value: Symbolic,
}

/// The location that is this slot.
pub(crate) fn fixed(alloc: Global, slot: usize) -> Location
    ensures inside { (v : Valuation) → IsInside v result }
    ensures slot { (v : Valuation) → slot_of v result ≡ slot }
{
    Location {
        first: slot,
        count: 1,
        index: constant_term(alloc, 0),
    }
}

/// Leaves out a write to the slot of a location that is of one slot alone, which is to be written to again.
pub(crate) fn forget(writes: &mut Vec<Shared<Write>>, location: &Location)
    ensures same { (start : Cells) (v : Valuation) (cell : Option Value) → AreInside v writes.old.items
        → IsInside v location.now → slice_set (cells_of start v writes.new.items) (slot_of v location.now) cell
        ≡ slice_set (cells_of start v writes.old.items) (slot_of v location.now) cell }
    ensures inside { (v : Valuation) → AreInside v writes.old.items → AreInside v writes.new.items }
{
    for place in 0..writes.len() {
        let other = &item_at(writes, place).location;
        if other.count == 1 && location.count == 1 && other.first == location.first {
            writes.remove(place);
            return;
        }
    }
}

/// A value of this kind, by its number.
fn value_of(kind: Kind, term: Term) -> Symbolic
    ensures { (v : Valuation) (held : Value) → kind_of_value held ≡ kind
        → sum_value v term ≡ number_of (Some held)
        → content_of v result ≡ Some held }
{
    match kind {
        Kind::Integer => Symbolic::Number(term),
        Kind::Logical => Symbolic::Truth(term),
    }
}

/// The key of one of so many numbers from the first on, which stands there as the slot of a location among others.
fn key_of(first: usize, location: &Location) -> Result<Key, AllocError>
    ensures { IfOk result (λ key. (numbers : Numbers) (v : Valuation) → IsInside v location.now
        → key_value numbers v key ≡ numbers (slot_behind first (sum_value v location.now.index))) }
{
    if location.count == 1 {
        return Ok(Key::Slot(first));
    }
    Ok(Key::Element(first, copy(&location.index)?))
}

/// All slots of the first location lie before those of the second.
fn is_before(a: &Location, b: &Location) -> bool
    ensures { result ≡ true → (v : Valuation) → IsInside v a.now → IsInside v b.now
        → slot_of v a.now < slot_of v b.now }
{
    a.first < b.first && b.first - a.first >= a.count
}

/// What is known of each of so many slots from this one on, if all are of one kind.
fn known_of_all(facts: &[Fact], first: usize, count: usize) -> Option<Fact>
    ensures { IfSome result (λ fact. (behind : ℕ) → behind < count → IsKnownAt facts.now (first + behind) fact) }
{
    let mut fact = *facts.get(first)?;
    for behind in 1..count {
        fact = hull_of(fact, *facts.get(first.checked_add(behind)?)?)?;
    }
    Some(fact)
}

#[tactic(auto, using(crate::proofs::Extending::extending))]
impl Evaluator {
    /// Whether two locations are one slot.
    fn is_same_slot(&self, a: &Location, b: &Location) -> Result<bool, Halt>
        ensures { IfOk result
            (λ same. (v : Valuation) → Holds v self.now.path → IsInside v a.now → IsInside v b.now
            → (IsTrue same ↔ (slot_of v a.now ≡ slot_of v b.now))) }
    {
        if is_before(a, b) || is_before(b, a) {
            return Ok(false);
        }
        let between = self.combination(1, &a.index, -1, &b.index)?;
        let offset = i64::try_from(a.first)? - i64::try_from(b.first)?;
        self.is_nothing(&self.plus(1, &between, offset)?)
    }

    /// A slot of which this is known holds a value: the path comes to know that where the program itself reads it, and
    /// knows it already where the changed one does. `key` means 1 if the slot holds a value.
    fn expect_present(&mut self, fact: Fact, key: Key) -> Result<(), Halt>
        ensures present { IfOk result (λ _. Always self.old self.new (λ start v. (cell : Option Value)
            → SuitsFact fact cell → key_value start.numbers v key ≡ presence_of cell
            → GoesOnIfHeld v self.old self.new cell)) }
        ensures extends { Extends self.old.atoms self.new.atoms }
    {
        if !fact.may_lack {
            return Ok(());
        }
        let atom = self.atom_of(key)?;
        if !self.own {
            let range = atom_range(&self.path.known, atom).ok_or(Halt::Unknown)?;
            return unless_unknown(range.low >= 1);
        }
        add_range(&mut self.path, atom, Range { low: 1, high: 1 })?;
        Ok(())
    }

    /// What the slot of a location holds where the run starts.
    fn at_start(&mut self, location: &Location) -> Result<Symbolic, Halt>
        requires { location.now.first ≤ length self.old.atoms.facts.items }
        ensures reads { IfOk result (λ value. ReadsSlot self.old self.new [] location.now value) }
        ensures extends { Extends self.old.atoms self.new.atoms }
    {
        let Some(fact) = known_of_all(&self.atoms.facts, location.first, location.count) else {
            return Err(Halt::Unknown);
        };
        if is_empty(fact.range) {
            // There is no value: the program itself faults, and its path holds nowhere.
            unless_unknown(self.own)?;
            self.expect_not(&constant_term(self.alloc, 0), Ordering::Equal)?;
            return Ok(value_of(fact.kind, constant_term(self.alloc, 0)));
        }
        let presence = key_of(self.atoms.facts.len() + location.first, location)?;
        self.expect_present(fact, presence)?;
        let number = self.unknown_number(key_of(location.first, location)?, fact.range)?;
        Ok(value_of(fact.kind, number))
    }

    /// What the last write to the slot of a location put there, and else what it held where the run started.
    pub(crate) fn read(
        &mut self,
        writes: &[Shared<Write>],
        location: &Location,
    ) -> Result<Symbolic, Halt>
        ensures reads { IfOk result (λ value. ReadsSlot self.old self.new writes.now location.now value) }
        ensures extends { Extends self.old.atoms self.new.atoms }
    {
        let slots = self.atoms.facts.len();
        unless_unknown(location.first.saturating_add(location.count) <= slots)?;
        for k in (0..writes.len()).rev() {
            let write = &**item_at(writes, k);
            if self.is_same_slot(&write.location, location)? {
                return Ok(write.value.clone()?);
            }
        }
        self.at_start(location)
    }
}

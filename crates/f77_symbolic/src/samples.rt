//! Samples: numbers that slots may hold at the start. One that is on a path shows at once that it is not refuted, so
//! most questions need no refutation. Nothing is claimed of samples: they only keep something from being told.

ghost use Rattle.std.specs.Prelude.{◌<◌};

use crate::rows::Gap;
use crate::sides::Side;
use f77_facts::Fact;
use f77_terms::{Function, Key, Path, Range, Table, Term};
use std::alloc::{AllocError, Global};
use std::cell::{Cell, Ref, RefCell, RefMut};
use std::cmp::Ordering;

/// So many samples are made at first.
const FIRST_SAMPLES: usize = 24;

/// What a turn costs at least.
const LEAST_COST: u64 = 4;

/// To copy what is known of the DOs of so many statements costs one unit.
const STATEMENTS: u64 = 12;

/// To copy so many numbers of samples costs one unit.
const NUMBERS: usize = 512;

/// To compare so many pairs of writes costs one unit.
const WRITES: u64 = 64;

/// The numbers of slots, and the value of each atom, if it has one.
#[derive(Drop)]
pub struct Sample {
    pub held: Vec<i64>,
    pub values: Vec<Option<i64>>,
    pub is_on_path: bool,
}

/// The samples, where the walk is, and what it took: it changes behind a shared reference, since nothing is claimed.
#[derive(Drop)]
pub struct Samples {
    list: RefCell<Vec<Sample>>,
    /// Where the walk of both programs is, if there is one.
    pub(crate) gap: Cell<Option<Gap>>,
    /// What questions took since the last turn.
    pub(crate) spent: Cell<u64>,
    /// Rows are asked for: more is tried to find a sample that shows where two programs differ.
    pub seeks: bool,
}

/// The number, if there is one, is in the range.
pub(crate) fn is_in(number: Option<i64>, range: Range) -> bool {
    number.is_some_and(|z| range.low <= z && z <= range.high)
}

impl Sample {
    /// The sample in memory of its own, on no path.
    pub(crate) fn copied(&self) -> Result<Sample, AllocError> {
        let alloc = *self.held.allocator();
        Ok(Sample {
            held: Vec::from_slice(alloc, &self.held)?,
            values: Vec::from_slice(alloc, &self.values)?,
            is_on_path: false,
        })
    }

    /// The value of a term.
    pub(crate) fn value(&self, term: &Term) -> Option<i64> {
        term.parts.iter().try_fold(term.constant, |sum, part| {
            sum.checked_add(part.factor.checked_mul((*self.values.get(part.atom)?)?)?)
        })
    }

    /// The slot that the atom with a key is of.
    pub(crate) fn slot_of(&self, key: &Key) -> Option<usize> {
        match key {
            Key::Slot(slot) => Some(*slot),
            Key::Element(first, index) => first.checked_add(self.value(index)?.try_into().ok()?),
            Key::Function(..) => None,
        }
    }

    /// The value of the atom with a key.
    fn key_value(&self, key: &Key) -> Option<i64> {
        let Key::Function(function, a, b) = key else {
            return self.held.get(self.slot_of(key)?).copied();
        };
        let (a, b) = (self.value(a)?, self.value(b)?);
        match function {
            Function::Quotient => a.checked_div(b),
            Function::Remainder => a.checked_rem(b),
            Function::Minimum => Some(a.min(b)),
            Function::Product => a.checked_mul(b),
        }
    }

    /// Adds the values of new atoms.
    pub(crate) fn extend(&mut self, table: &Table) -> Result<(), AllocError> {
        for place in self.values.len()..table.keys.len() {
            let value = self.key_value(&table.keys[place]);
            self.values.push(value)?;
        }
        Ok(())
    }

    /// It is on the path: values are in their ranges, as far as there are both, and terms have signs that it allows.
    pub(crate) fn is_on(&self, path: &Path) -> bool {
        let mut ranged = self.values.iter().zip(&path.known);
        let mut unequal = path.unequal.iter();
        let mut below = path.below.iter();
        ranged.all(|(value, known)| known.map_or(true, |range| is_in(*value, range)))
            && unequal.all(|term| self.value(term).is_some_and(|z| z != 0))
            && below.all(|term| self.value(term).is_some_and(|z| z <= 0))
    }
}

/// A number by chance: mostly a small one.
fn any_number(chance: u64) -> i64 {
    let kind = chance / 64 % 8;
    let drawn = (chance / 512) as i64;
    match kind {
        0 | 1 | 2 => drawn % 4,
        3 | 4 => drawn % 41 - 20,
        5 => drawn % 2,
        6 => drawn % 4001 - 2000,
        _ => drawn % 8 + 1,
    }
}

/// A number that a slot may hold; one that says that it holds a value; and behind these what a DO may have left.
fn number_at(facts: &[Fact], slot: usize, any: i64) -> i64 {
    let (low, high) = match facts.get(slot) {
        Some(fact) => (fact.range.low, fact.range.high),
        None if slot < facts.len().saturating_mul(2) => (1, 1),
        None => (1, 6),
    };
    if low <= any && any <= high {
        return any;
    }
    let size = high.saturating_sub(low).saturating_add(1);
    low.saturating_add(any.checked_rem_euclid(size).unwrap_or(0))
}

/// The first samples of a program with so many statements, where this is known of its slots.
pub fn first_samples(
    alloc: Global,
    facts: &[Fact],
    count: usize,
    seeks: bool,
) -> Result<Samples, AllocError> {
    let slots = facts.len().saturating_add(count).saturating_mul(2);
    let mut list = Vec::with_capacity(alloc, FIRST_SAMPLES)?;
    let mut chance: u64 = 1;
    for _ in 0..FIRST_SAMPLES {
        let mut held = Vec::with_capacity(alloc, slots)?;
        for slot in 0..slots {
            chance = chance.wrapping_mul(1103515245).wrapping_add(12345) % 2147483648;
            held.push(number_at(facts, slot, any_number(chance)))?;
        }
        list.push(Sample {
            held,
            values: Vec::new(alloc),
            is_on_path: false,
        })?;
    }
    Ok(Samples::of(list, seeks))
}

impl Samples {
    /// These samples, with nothing spent.
    fn of(list: Vec<Sample>, seeks: bool) -> Samples {
        Samples {
            list: RefCell::new(list),
            gap: Cell::new(None),
            spent: Cell::new(0),
            seeks,
        }
    }

    /// The samples in memory of their own, none of them on a path.
    pub(crate) fn copied(&self) -> Result<Samples, AllocError> {
        let list = self.list()?;
        let mut copies = Vec::with_capacity(*list.allocator(), list.len())?;
        for sample in list.iter() {
            copies.push(sample.copied()?)?;
        }
        Ok(Samples::of(copies, self.seeks))
    }

    /// What it costs to copy them: each has as many numbers as the first.
    pub(crate) fn cost_to_copy(&self) -> Result<u64, AllocError> {
        let list = self.list()?;
        let numbers = |it: &Sample| it.held.len().saturating_add(it.values.len());
        let each = list.first().map_or(0, numbers);
        Ok((list.len().saturating_mul(each) / NUMBERS) as u64)
    }

    /// All of them. No other use of them is under way.
    pub(crate) fn list(&self) -> Result<Ref<'_, Vec<Sample>>, AllocError> {
        self.list.try_borrow().map_err(|_| AllocError)
    }

    /// All of them, to be changed.
    pub(crate) fn list_to_change(&self) -> Result<RefMut<'_, Vec<Sample>>, AllocError> {
        self.list.try_borrow_mut().map_err(|_| AllocError)
    }

    /// Both programs come to these statements.
    pub fn come_to(&self, own: usize, other: usize) {
        let slot = None;
        self.gap.set(Some(Gap { own, other, slot }));
    }

    /// What both hold in this slot is compared, or in one of an array that begins with it.
    pub fn compare(&self, slot: usize) {
        let slot = Some(slot);
        self.gap.set(self.gap.get().map(|gap| Gap { slot, ..gap }));
    }

    /// A question took so much.
    pub(crate) fn spend(&self, work: u64) {
        self.spent.set(self.spent.get().saturating_add(work));
    }

    /// What the last questions took, and what a turn from this side costs: more where more is known or was written.
    pub fn cost(&self, path: &Path, side: &Side) -> u64
        ensures { 0 < result }
    {
        let parts = path.unequal.len().saturating_add(path.choices.len());
        let known = path.below.len().saturating_add(parts.saturating_mul(2));
        let writes = side.writes.len() as u64;
        let turn = (known as u64).saturating_add(LEAST_COST);
        turn.saturating_add(writes.saturating_mul(writes) / WRITES)
            .saturating_add(side.turns.len() as u64 / STATEMENTS)
            .saturating_add(self.spent.take())
    }

    /// Those stay in which a term has a number like this.
    pub(crate) fn keep<F: Fn(i64) -> bool>(&self, term: &Term, fits: F) -> Result<(), AllocError>
        requires { F.IsAlwaysCallable fits }
    {
        for sample in self.list_to_change()?.iter_mut() {
            sample.is_on_path &= sample.value(term).is_some_and(&fits);
        }
        Ok(())
    }

    /// The values of new atoms are added.
    pub(crate) fn learn(&self, table: &Table) -> Result<(), AllocError> {
        let mut list = self.list_to_change()?;
        list.iter_mut().try_for_each(|sample| sample.extend(table))
    }

    /// Those that are on this path are chosen.
    pub(crate) fn choose(&self, path: &Path) -> Result<(), AllocError> {
        for sample in self.list_to_change()?.iter_mut() {
            sample.is_on_path = sample.is_on(path);
        }
        Ok(())
    }

    /// Some are on the path.
    pub(crate) fn are_any(&self) -> Result<bool, AllocError> {
        Ok(self.list()?.iter().any(|sample| sample.is_on_path))
    }

    /// One that is on the path has this sign of a term.
    pub(crate) fn show(&self, term: &Term, sign: Ordering) -> Result<bool, AllocError> {
        let list = self.list()?;
        let mut on_path = list.iter().filter(|sample| sample.is_on_path);
        Ok(on_path.any(|sample| sample.value(term).is_some_and(|z| z.cmp(&0) == sign)))
    }
}

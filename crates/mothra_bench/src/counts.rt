//! Mutants are counted, and the score is computed.

ghost use Rattle.std.specs.Prelude.{◌≡◌, ◌+◌, ◌∷◌, ◌++◌, ◌<◌, ◌≤◌, ◌^◌, [], List, Some, IfOk, length, slice_get};
ghost use Rattle.mothra_codes.specs.Op.{index};
ghost use Rattle.mothra_codes.specs.declared.op.Op.{Op};
ghost use Rattle.mothra_bench.specs.Matrix as definition;
ghost use Rattle.mothra_bench.specs.Matrix.{counts, entries_of, score_of};
ghost use Rattle.mothra_bench.specs.declared.matrix.Entry.{Entry};

use crate::matrix::Entry;
use std::alloc::{AllocError, Global};
use std::marker::Model;

/// How many mutants there are; how many of them are killed; how many are declared equivalent and survived.
#[derive(Debug, Drop)]
pub struct Counts {
    total: u32,
    killed: u32,
    equivalent: u32,
}

impl Model for Counts {
    ghost Value = { definition.Counts };

    ghost view = { λ counts. record { total = counts.total; killed = counts.killed; equivalent = counts.equivalent } };

    ghost invariant = { λ counts. counts.killed + counts.equivalent ≤ counts.total };
}

impl Counts {
    /// The counts of these entries. The call takes no memory.
    pub fn of(entries: &[Entry]) -> Counts
        requires { length entries.now < 2 ^ 32 }
        ensures { result ≡ counts entries.now }
    {
        let mut counts = Counts::none();
        for entry in entries {
            counts.add(entry);
        }
        counts
    }

    /// The counts of the entries of each operator, in the order of the operators.
    pub fn of_operators(alloc: Global, entries: &[Entry]) -> Result<Vec<Counts>, AllocError>
        requires { length entries.now < 2 ^ 32 }
        ensures count { IfOk result (λ list. length list.items ≡ 22) }
        ensures counts { IfOk result
            (λ list. (op : Op) → slice_get list.items (index op) ≡ Some (counts (entries_of op entries.now))) }
    {
        let mut list = Vec::with_capacity(alloc, 22)?;
        for _ in 0..22usize {
            list.push(Counts::none())?;
        }
        for entry in entries {
            list[entry.ticket.op.index()].add(entry);
        }
        Ok(list)
    }

    /// The counts of no entries.
    fn none() -> Counts
        ensures { result ≡ counts [] }
    {
        Counts {
            total: 0,
            killed: 0,
            equivalent: 0,
        }
    }

    /// Counts one entry more.
    fn add(&mut self, entry: &Entry)
        requires { self.old.total + 1 < 2 ^ 32 }
        ensures total { self.new.total ≡ self.old.total + 1 }
        ensures counts { (entries : List Entry)
            → self.old ≡ counts entries → self.new ≡ counts (entries ++ entry.now ∷ []) }
    {
        self.total += 1;
        if entry.is_killed() {
            self.killed += 1;
        } else if entry.declared {
            self.equivalent += 1;
        }
    }

    /// How many entries there are.
    pub fn total(&self) -> u32
        ensures { result ≡ self.now.total }
    {
        self.total
    }

    /// How many entries are of killed mutants.
    pub fn killed(&self) -> u32
        ensures { result ≡ self.now.killed }
    {
        self.killed
    }

    /// How many entries are of mutants that are declared equivalent and survived.
    pub fn equivalent(&self) -> u32
        ensures { result ≡ self.now.equivalent }
    {
        self.equivalent
    }

    /// The mutation score in hundredths of a percent, 0 to 10000, rounded down. `None` where no mutant
    /// counts: there is none, or each is equivalent.
    pub fn score(&self) -> Option<u32>
        ensures { result ≡ score_of self.now }
    {
        let counted = self.total - self.equivalent;
        if counted == 0 {
            return None;
        }
        Some((10000 * u64::from(self.killed) / u64::from(counted)) as u32)
    }
}

//! What evaluates expressions of a program, where a path holds.

ghost use Rattle.std.specs.Prelude.{◌≡◌, ◌+ℤ◌, ◌*ℤ◌, ◌≤ℤ◌, pos, IfOk};
ghost use Rattle.f77_symbolic.specs.Prelude.{HasSign, Holds, IsDefined, IsIn, Valuation, sum_value};
ghost use Rattle.f77_symbolic.specs.Prelude.{function_value, key_value};
ghost use Rattle.f77_symbolic.specs.code.{Extends, Always, AlwaysTells, Expects, StaysOn};

use crate::halt::{Halt, unless_unknown};
use crate::samples::{Samples, is_in};
use f77_facts::Fact;
use f77_terms::{
    Function, Key, Path, Range, Table, Term, add_below, add_range, add_unequal, atom_term,
    combined, constant_term, copied_path, copy, interned, is_ranged_off, know_function,
};
use std::alloc::{AllocError, Global};
use std::cmp::Ordering;

/// With so many atoms no more are made.
const MOST_ATOMS: usize = 2000;

/// What is known of slots where a walk starts, and the atoms that were made so far, which stand for what slots hold
/// there and for functions of that.
#[derive(Drop)]
pub struct Atoms {
    pub facts: Vec<Fact>,
    pub table: Table,
}

/// What is known, and of which program.
#[derive(Drop)]
pub struct Evaluator {
    pub alloc: Global,
    pub atoms: Atoms,
    pub path: Path,
    /// It is the program itself, whose faults are assumed away: where this is so, a fault may be passed over.
    pub own: bool,
    /// Samples of the path, by which a question may have its answer at once.
    pub samples: Samples,
}

/// Adds that a term has not this sign.
pub(crate) fn add_other_sign(path: &mut Path, term: &Term, sign: Ordering) -> Result<(), AllocError>
    ensures { IfOk result (λ _. (v : Valuation) → Holds v path.old → ¬ (HasSign sign (sum_value v term.now))
        → Holds v path.new) }
{
    match sign {
        Ordering::Less => add_below(path, -1, term, 0),
        Ordering::Equal => add_unequal(path, term),
        Ordering::Greater => add_below(path, 1, term, 0),
    }
}

#[tactic(auto, using(crate::proofs::Extending::extending))]
impl Evaluator {
    /// The path is one like this, and so are the samples.
    pub(crate) fn come_on(&mut self, path: &Path) -> Result<(), Halt>
        ensures path { IfOk result (λ _. (v : Valuation) → Holds v path.now → Holds v self.new.path) }
        ensures own { self.new.own ≡ self.old.own }
        ensures extends { Extends self.old.atoms self.new.atoms }
    {
        self.path = copied_path(path)?;
        Ok(self.samples.choose(&self.path)?)
    }

    /// The atom with a key, unless there are too many.
    pub(crate) fn atom_of(&mut self, key: Key) -> Result<usize, Halt>
        ensures made { IfOk result (λ atom. AlwaysTells self.old self.new
            (λ start v. v atom ≡ key_value start.numbers v key)) }
        ensures extends { Extends self.old.atoms self.new.atoms }
    {
        unless_unknown(self.atoms.table.keys.len() < MOST_ATOMS)?;
        let atom = interned(&mut self.atoms.table, key)?.ok_or(Halt::Unknown)?;
        self.samples.learn(&self.atoms.table)?;
        Ok(atom)
    }

    /// The number with a key, which is in the range: a constant where that has one number alone.
    pub(crate) fn unknown_number(&mut self, key: Key, range: Range) -> Result<Term, Halt>
        ensures stands { IfOk result (λ term. Always self.old self.new (λ start v.
            IsIn range (key_value start.numbers v key)
            → StaysOn v self.old self.new × (sum_value v term ≡ key_value start.numbers v key))) }
        ensures extends { Extends self.old.atoms self.new.atoms }
    {
        if range.high == range.low {
            return Ok(constant_term(self.alloc, range.low));
        }
        let atom = self.atom_of(key)?;
        add_range(&mut self.path, atom, range)?;
        let term = atom_term(self.alloc, atom)?;
        self.samples.keep(&term, |z| is_in(Some(z), range))?;
        Ok(term)
    }

    /// The atom that is a function of two numbers, of which the path comes to know what follows.
    pub(crate) fn function_of(
        &mut self,
        function: Function,
        a: &Term,
        b: &Term,
    ) -> Result<usize, Halt>
        ensures made { IfOk result (λ atom. Always self.old self.new (λ start v. IsDefined function (sum_value v b.now)
            → StaysOn v self.old self.new
            × (v atom ≡ function_value function (sum_value v a.now) (sum_value v b.now)))) }
        ensures extends { Extends self.old.atoms self.new.atoms }
    {
        let key = Key::Function(function, copy(a)?, copy(b)?);
        let atom = self.atom_of(key)?;
        know_function(&mut self.path, function, a, b, atom)?;
        Ok(atom)
    }

    /// The first term, m times, and the second, n times.
    pub(crate) fn combination(&self, m: i64, a: &Term, n: i64, b: &Term) -> Result<Term, Halt>
        ensures { IfOk result (λ term. (v : Valuation)
            → sum_value v term ≡ m *ℤ sum_value v a.now +ℤ n *ℤ sum_value v b.now) }
    {
        combined(m, a, n, b)?.ok_or(Halt::Unknown)
    }

    /// A term, m times, and a constant.
    pub(crate) fn plus(&self, m: i64, term: &Term, constant: i64) -> Result<Term, Halt>
        ensures { IfOk result (λ sum. (v : Valuation)
            → sum_value v sum ≡ constant +ℤ m *ℤ sum_value v term.now) }
    {
        self.combination(m, term, 1, &constant_term(self.alloc, constant))
    }

    /// There is a fault where a term has this sign.
    pub(crate) fn expect_not(&mut self, term: &Term, sign: Ordering) -> Result<(), Halt>
        ensures expects { IfOk result (λ _. Expects self.old self.new
            (λ v. ¬ (HasSign sign (sum_value v term.now)))) }
        ensures extends { Extends self.old.atoms self.new.atoms }
    {
        if !self.own {
            return unless_unknown(self.never_has(term, sign)?);
        }
        if is_ranged_off(&self.path, term, sign) {
            return Ok(());
        }
        add_other_sign(&mut self.path, term, sign)?;
        Ok(self.samples.keep(term, |z| z.cmp(&0) != sign)?)
    }

    /// There is a fault unless a term is from the low to the high number.
    pub(crate) fn expect_within(&mut self, low: i64, term: &Term, high: u32) -> Result<(), Halt>
        ensures expects { IfOk result (λ _. Expects self.old self.new
            (λ v. (low ≤ℤ sum_value v term.now) × (sum_value v term.now ≤ℤ pos high))) }
        ensures extends { Extends self.old.atoms self.new.atoms }
    {
        let too_low = self.plus(-1, term, low)?;
        self.expect_not(&too_low, Ordering::Greater)?;
        let too_high = self.plus(1, term, -i64::from(high))?;
        self.expect_not(&too_high, Ordering::Greater)
    }
}

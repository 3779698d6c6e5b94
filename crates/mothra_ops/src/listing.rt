//! The list of an operator's mutants while it is made. It is thinned at once, so its memory grows with what is kept.

ghost use Rattle.std.specs.Prelude.{◌≡◌, ◌⊎◌, ◌++◌, ◌∷◌, [], ◌<◌, ◌≤◌, List, OnOk};
ghost use Rattle.std.specs.Prelude.{IfErr, length};
ghost use Rattle.mothra_ops.specs.declared.edit.Edit.{Edit};
ghost use Rattle.mothra_replacements.specs.declared.fault.OpsFault.TheVariants.{Memory, TooMany};
ghost use Rattle.mothra_ops.specs.{thinned, HoldsEdits, longest};

use crate::mutant::Mutant;
use mothra_codes::Op;
use mothra_replacements::OpsFault;
use std::alloc::Global;

/// How many edits a list may have: part of the list, so that tests can try three and not a million.
#[derive(Clone, Copy, Debug, Drop)]
pub struct Limits {
    /// The most edits that are kept.
    pub kept: usize,
    /// The most edits of the whole list.
    pub whole: u32,
}

impl Limits {
    /// The limits of an operator's list.
    pub fn of_lists() -> Limits
        ensures { result ≡ longest }
    {
        Limits {
            kept: 1_048_575,
            whole: u32::MAX,
        }
    }
}

/// The mutants of an operator's list, thinned, with the number of edits of the whole one.
#[derive(Drop)]
pub struct Listing {
    pub(crate) op: Op,
    /// Of the whole list the items 1, `every` + 1, 2 * `every` + 1 and on are kept.
    pub(crate) every: u32,
    pub(crate) limits: Limits,
    pub(crate) mutants: Vec<Mutant>,
    /// How many edits the whole list has.
    pub(crate) whole: u32,
}

impl Listing {
    /// A list without mutants.
    pub fn new(alloc: Global, op: Op, every: u32, limits: Limits) -> Listing
        ensures op { result.op ≡ op }
        ensures every { result.every ≡ every }
        ensures limits { result.limits ≡ limits }
        ensures none { result.mutants.items ≡ [] }
        ensures empty { HoldsEdits result [] }
    {
        Listing {
            op,
            every,
            limits,
            mutants: Vec::new(alloc),
            whole: 0,
        }
    }

    /// The mutants that are kept. It takes no memory.
    pub fn mutants(&self) -> &[Mutant]
        ensures { result.now ≡ self.now.mutants.items }
    {
        self.mutants.as_slice()
    }

    /// How many edits the whole list has. It takes no memory.
    pub fn whole(&self) -> u32
        ensures { result ≡ self.now.whole }
    {
        self.whole
    }

    /// Adds the mutant of the next edit of the whole list, if it is one that is kept.
    pub fn add(&mut self, mutant: Mutant) -> Result<(), OpsFault>
        requires { 1 ≤ self.now.every }
        ensures same_op { self.new.op ≡ self.old.op }
        ensures same_every { self.new.every ≡ self.old.every }
        ensures same_limits { self.new.limits ≡ self.old.limits }
        ensures mutants { OnOk result ((self.new.mutants.items ≡ self.old.mutants.items)
            ⊎ (self.new.mutants.items ≡ self.old.mutants.items ++ mutant ∷ [])) }
        ensures added { OnOk result
            ((whole : List Edit) → HoldsEdits self.old whole → HoldsEdits self.new (whole ++ mutant.edit ∷ [])) }
        ensures refused { IfErr result (λ fault. (fault ≡ Memory) ⊎ ((fault ≡ TooMany self.old.op)
            × ((whole : List Edit) → HoldsEdits self.old whole
            → (self.old.limits.kept < length (thinned self.old.every (whole ++ mutant.edit ∷ [])))
            ⊎ (self.old.limits.whole < length (whole ++ mutant.edit ∷ []))))) }
    {
        if self.whole >= self.limits.whole {
            return Err(OpsFault::TooMany(self.op));
        }
        if self.whole % self.every == 0 {
            if self.mutants.len() >= self.limits.kept {
                return Err(OpsFault::TooMany(self.op));
            }
            self.mutants.push(mutant)?;
        }
        self.whole += 1;
        Ok(())
    }
}

//! The mutants that are declared equivalent.

ghost use Rattle.std.specs.Prelude.{◌≡◌, ◌↔◌, ◌≤◌, ◌<◌, ◌^◌, Contains, IsTrue, IfOk, IfErr};
ghost use Rattle.std.specs.Prelude.{OnOk};
ghost use Rattle.mothra_ops.specs.Plan.{whole_of};
ghost use Rattle.mothra_verdicts.specs.{AreFine, AreNamed};
ghost use Rattle.mothra_verdicts.specs.code.{AddsTicket, IsNoted, IsNoEntry};

use crate::fault::BenchFault;
use indexmap::IndexSet;
use mothra_codes::Ticket;
use mothra_ops::Plan;
use std::alloc::{AllocError, Global};

/// What holds of a declared entry, given those before it.
#[derive(Clone, Copy, Drop)]
enum Noted {
    /// The entry names a mutant that none of those names, or is of an operator that the plan was not asked for.
    Fine,
    /// The entry names no mutant.
    Unknown,
    /// The entry names a mutant that one of those names.
    Twice,
}

/// Whether the whole list of the entry's operator has this number.
fn is_there(plan: &Plan, entry: Ticket) -> bool
    ensures { IsTrue result ↔ ((1 ≤ entry.number) × (entry.number ≤ whole_of plan.now entry.op)) }
{
    1 <= entry.number && entry.number <= plan.whole(entry.op)
}

/// Adds an entry to the set. The result says whether the set had it before.
fn name(named: &mut IndexSet<Ticket>, entry: Ticket) -> Result<bool, AllocError>
    ensures before { IfOk result (λ before. IsTrue before ↔ Contains named.old.keys entry) }
    ensures named { OnOk result (AddsTicket named.old.keys entry named.new.keys) }
{
    let is_new = named.insert(entry)?;
    Ok(!is_new)
}

/// Adds a declared entry to the set. The result says what holds of it, given those before it.
fn note(plan: &Plan, named: &mut IndexSet<Ticket>, entry: Ticket) -> Result<Noted, AllocError>
    ensures noted { IfOk result (λ noted. IsNoted plan.now named.old.keys entry noted) }
    ensures named { OnOk result (AddsTicket named.old.keys entry named.new.keys) }
    ensures fits { entry.number < 2 ^ 32 }
{
    let is_named = name(named, entry)?;
    if !plan.asked(entry.op) {
        return Ok(Noted::Fine);
    }
    if !is_there(plan, entry) {
        return Ok(Noted::Unknown);
    }
    if is_named {
        Ok(Noted::Twice)
    } else {
        Ok(Noted::Fine)
    }
}

/// The set of the declared entries. B5 or B6 at the first entry that is not fine, B5 before B6.
pub(crate) fn named_by(
    alloc: Global,
    plan: &Plan,
    entries: &[Ticket],
) -> Result<IndexSet<Ticket>, BenchFault>
    ensures fine { IfOk result (λ _. AreFine plan.now entries.now) }
    ensures named { IfOk result (λ named. AreNamed entries.now named.keys) }
    ensures refused { IfErr result (λ fault. IsNoEntry plan.now entries.now fault) }
{
    let mut named = IndexSet::new(alloc);
    for (index, entry) in entries.iter().enumerate() {
        match note(plan, &mut named, *entry)? {
            Noted::Fine => {}
            Noted::Unknown => return Err(BenchFault::EquivalentUnknown(index + 1)),
            Noted::Twice => return Err(BenchFault::EquivalentTwice(index + 1)),
        }
    }
    Ok(named)
}

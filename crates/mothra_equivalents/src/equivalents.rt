//! The mutants of a plan that are proved equivalent, found one by one, and what is told of the others.

ghost use Rattle.std.specs.Prelude.{IfOk};
ghost use Rattle.mothra_equivalents.specs.{AreEquivalents, AreUnprovedFor};

use crate::prover::Prover;
use crate::unproved::{Unproved, left_at, rows_of};
use f77_legal::Names;
use indexmap::IndexSet;
use mothra_codes::Ticket;
use mothra_ops::Plan;
use std::alloc::{AllocError, Global};

/// A mutant that is proved equivalent: no test can kill it on which the program returns or stops as many steps before
/// the limit as are to be spared.
#[derive(Clone, Copy, PartialEq, Eq, Debug, Drop)]
pub struct Equivalent {
    /// The mutant; the number is that in the plan's list of the operator, which may be thinned.
    pub ticket: Ticket,
    /// So many steps it may need more than the program; none if it is 0.
    pub spare: u64,
}

/// What was found of the mutants of a plan.
#[derive(Drop)]
pub struct Found {
    /// Those that are proved equivalent, by operator, then number.
    pub list: Vec<Equivalent>,
    /// For so many others the bound on work was met before anything was told of them.
    pub unfinished: u64,
    /// What is told of others, by operator, then number; nothing where no tests are looked for.
    pub others: Vec<Unproved>,
}

/// The mutants of the plan that are proved equivalent. A mutant that is not among them may be equivalent, too. Those
/// that a test kills can not be: nothing is asked of them. For the others tests are looked for, if they are asked for:
/// at most so many for a mutant, on which the program ends within so many steps.
pub fn equivalents_of(
    alloc: Global,
    plan: &Plan,
    killed: &IndexSet<Ticket>,
    most: Option<u32>,
    steps: u32,
) -> Result<Found, AllocError>
    ensures equivalents { IfOk result (λ found. AreEquivalents plan.now found.list.items) }
    ensures others { IfOk result (λ found. AreUnprovedFor plan.now found.list.items most found.others.items) }
{
    let checked = plan.program();
    let names = Names::of(alloc, checked.program().lines())?;
    let tickets = plan.tickets(alloc)?;
    let asked = (tickets.len() as u64).saturating_sub(killed.len() as u64);
    let mut prover = Prover::of(alloc, checked, asked, most.is_some())?;
    let mut list = Vec::new(alloc);
    let mut others = Vec::new(alloc);
    for ticket in &tickets {
        let ticket = *ticket;
        if killed.contains(&ticket) {
            continue;
        }
        let Some(mutant) = plan.mutant(ticket.op, ticket.number) else {
            continue;
        };
        if let Some(spare) = prover.spare(checked, mutant)? {
            list.push(Equivalent { ticket, spare })?;
        } else if let Some(most) = &most {
            let rows = rows_of(alloc, checked, mutant, &prover.rows.list, *most, steps)?;
            let left = left_at(checked, &names, prover.rows.gap);
            if !rows.is_empty() || left.is_some() {
                others.push(Unproved { ticket, rows, left })?;
            }
        }
    }
    Ok(Found {
        list,
        unfinished: prover.unfinished,
        others,
    })
}

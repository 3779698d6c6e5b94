//! The tickets of a plan.

ghost use Rattle.std.specs.Prelude.{◌≡◌, ◌++◌, ◌<◌, ◌^◌, AllPairs, OnOk, IfOk, length, slice_index, vec_len};
ghost use Rattle.mothra_codes.specs.Op.{index};
ghost use Rattle.mothra_codes.specs.Ticket.{Before};
ghost use Rattle.mothra_codes.specs.declared.op.Op.{Op as OpModel};
ghost use Rattle.mothra_ops.specs.Plan.{IsPlan, edits_of};
ghost use Rattle.mothra_ops.specs.Tickets as definition;
ghost use Rattle.mothra_ops.specs.{tickets_of};

use crate::plan::Plan;
use mothra_codes::{Op, Ticket};
use std::alloc::{AllocError, Global};

/// Adds the tickets of an operator with `count` mutants to the list.
fn push_tickets(tickets: &mut Vec<Ticket>, op: Op, count: u32) -> Result<(), AllocError>
    ensures { OnOk result (tickets.new.items ≡ tickets.old.items ++ definition.tickets op count) }
{
    for before in 0..count {
        let number = before + 1;
        tickets.push(Ticket { op, number })?;
    }
    Ok(())
}

impl Plan {
    /// How many mutants each operator has, in the order of the operators. It takes no memory.
    pub fn counts(&self) -> [u32; 22]
        ensures counts { (op : OpModel) → slice_index result (index op) ≡ length (edits_of self.now op) }
        ensures plan { IsPlan self.now }
    {
        let mut counts = [0u32; 22];
        for op in Op::ALL {
            counts[op.index()] = self.count(op);
        }
        counts
    }

    /// The tickets of all mutants, by operator and number.
    pub fn tickets(&self, alloc: Global) -> Result<Vec<Ticket>, AllocError>
        ensures tickets { IfOk result (λ tickets. tickets.items ≡ tickets_of self.now) }
        ensures ordered { IfOk result (λ tickets. AllPairs Before tickets.items) }
        ensures few { IfOk result (λ tickets. vec_len tickets < 2 ^ 32) }
    {
        let mut tickets = Vec::new(alloc);
        for op in Op::ALL {
            push_tickets(&mut tickets, op, self.count(op))?;
        }
        Ok(tickets)
    }
}

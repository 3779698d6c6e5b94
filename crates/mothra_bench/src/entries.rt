//! Entries of the matrix are made of rows.

ghost use Rattle.std.specs.Prelude.{◌≡◌, ◌&&◌, ◌==◌, All, AllPairs, IfOk, IfErr, MatchOption, None, map};
ghost use Rattle.std.specs.Prelude.{if◌then◌else◌};
ghost use Rattle.mothra_codes.specs.Op.{index};
ghost use Rattle.mothra_codes.specs.declared.ticket.Ticket.{Ticket};
ghost use Rattle.mothra_codes.specs.Ticket.{Before};
ghost use Rattle.mothra_bench.specs.code.{AreNoEntries, IsEntry, IsHere, ticket_row};

use crate::matrix::Entry;
use crate::row_map::RowMap;
use mothra_exchange::{Tally, Ticket};
use mothra_verdicts::{Bench, BenchFault};
use std::alloc::Global;

/// The entry of a ticket, whose row is taken out of the map. None where the ticket has no row or was not handed out.
fn entry_of(bench: &Bench, tally: &Tally, map: &mut RowMap, ticket: Ticket) -> Option<Entry>
    ensures entry { MatchOption result (¬ (IsHere tally.now map.old ticket))
        (λ entry. (entry.ticket ≡ ticket) × IsEntry bench.now tally.now map.old entry) }
    ensures rows { (other : Ticket) → ticket_row map.new other
        ≡ (if index ticket.op == index other.op && ticket.number == other.number
        then None else ticket_row map.old other) }
{
    let row = map.take(ticket)?;
    if tally.handed(ticket.op) < ticket.number {
        return None;
    }
    let declared = bench.is_declared(ticket);
    Some(Entry {
        ticket,
        kills: row.kills,
        declared,
    })
}

/// The entries of tickets that stand in order; B9 at the first that has no row or was not handed out.
pub(crate) fn entries_of(
    alloc: Global,
    bench: &Bench,
    tally: &Tally,
    tickets: &[Ticket],
    rows: RowMap,
) -> Result<Vec<Entry>, BenchFault>
    requires { AllPairs Before tickets.now }
    ensures tickets { IfOk result (λ entries. map (λ entry. entry.ticket) entries.items ≡ tickets.now) }
    ensures entries { IfOk result (λ entries. All (IsEntry bench.now tally.now rows) entries.items) }
    ensures refused { IfErr result (λ fault. AreNoEntries tally.now rows tickets.now fault) }
{
    let mut left = rows;
    let mut entries = Vec::new(alloc);
    for ticket in tickets {
        let Some(entry) = entry_of(bench, tally, &mut left, *ticket) else {
            return Err(BenchFault::Missing(*ticket));
        };
        entries.push(entry)?;
    }
    Ok(entries)
}

//! Rows by their tickets. Rows come in any order; the map moves them and copies none, so the work of putting them in
//! order is linear in the rows.

ghost use Rattle.std.specs.Prelude.{◌≡◌, ◌&&◌, ◌<◌, ◌+◌, ◌^◌, ◌==◌, ℕ, IfOk, IfErr, OnOk};
ghost use Rattle.std.specs.Prelude.{None, Some, is_none, if◌then◌else◌, length};
ghost use Rattle.mothra_codes.specs.Op.{index};
ghost use Rattle.mothra_codes.specs.declared.ticket.Ticket.{Ticket};
ghost use Rattle.mothra_bench.specs.{is_row_of};
ghost use Rattle.mothra_bench.specs.code.{AreEmptyLists, HasRows, IsNoRowMap, row_at, ticket_row};

use mothra_exchange::Ticket;
use mothra_verdicts::{BenchFault, Row};
use std::alloc::{AllocError, Global};

/// For each operator, by its place, the rows of its tickets, each at the place of its number.
#[derive(Drop)]
pub(crate) struct RowMap {
    rows: Vec<Vec<Option<Row>>>,
}

/// A list without rows for each operator.
fn no_rows(alloc: Global) -> Result<Vec<Vec<Option<Row>>>, AllocError>
    ensures { IfOk result (λ lists. AreEmptyLists lists.items) }
{
    let mut lists = Vec::with_capacity(alloc, 22)?;
    for _ in 0..22usize {
        lists.push(Vec::new(alloc))?;
    }
    Ok(lists)
}

/// Makes room for a row at this place.
fn make_room(list: &mut Vec<Option<Row>>, place: usize) -> Result<(), AllocError>
    requires { place + 1 < 2 ^ 64 }
    ensures room { OnOk result (place < length list.new.items) }
    ensures rows { OnOk result ((k : ℕ) → row_at list.new.items k ≡ row_at list.old.items k) }
{
    for _ in list.len()..place + 1 {
        list.push(None)?;
    }
    Ok(())
}

/// Puts a row at this place. False where a row stood there.
fn put_at(list: &mut Vec<Option<Row>>, place: usize, row: Row) -> bool
    requires { place < length list.old.items }
    ensures new { result ≡ is_none (row_at list.old.items place) }
    ensures rows { (k : ℕ) → row_at list.new.items k
        ≡ (if place == k then Some row else row_at list.old.items k) }
{
    list[place].replace(row).is_none()
}

/// Takes the row out that stands at this place.
fn take_at(list: &mut Vec<Option<Row>>, place: usize) -> Option<Row>
    ensures row { result ≡ row_at list.old.items place }
    ensures rows { (k : ℕ) → row_at list.new.items k
        ≡ (if place == k then None else row_at list.old.items k) }
{
    if place >= list.len() {
        return None;
    }
    list[place].take()
}

impl RowMap {
    /// The map of the rows of a list; B7 at the first row whose ticket an earlier row has.
    pub(crate) fn of(alloc: Global, rows: Vec<Row>) -> Result<RowMap, BenchFault>
        ensures rows { IfOk result (λ map. HasRows map rows.items) }
        ensures refused { IfErr result (λ fault. IsNoRowMap rows.items fault) }
    {
        let mut map = RowMap {
            rows: no_rows(alloc)?,
        };
        for row in rows {
            let ticket = row.ticket;
            if !map.put(row)? {
                return Err(BenchFault::Double(ticket));
            }
        }
        Ok(map)
    }

    /// Puts a row into the map. False where the map had a row of the same ticket.
    fn put(&mut self, row: Row) -> Result<bool, AllocError>
        requires { length self.old.rows.items ≡ 22 }
        ensures lists { length self.new.rows.items ≡ 22 }
        ensures new { IfOk result (λ new. new ≡ is_none (ticket_row self.old row.ticket)) }
        ensures rows { IfOk result (λ new. (ticket : Ticket) → ticket_row self.new ticket
            ≡ (if is_row_of ticket row then Some row else ticket_row self.old ticket)) }
    {
        let list = &mut self.rows[row.ticket.op.index()];
        let place = row.ticket.number as usize;
        make_room(list, place)?;
        Ok(put_at(list, place, row))
    }

    /// Takes the row of a ticket out of the map.
    pub(crate) fn take(&mut self, ticket: Ticket) -> Option<Row>
        ensures row { result ≡ ticket_row self.old ticket }
        ensures rows { (other : Ticket) → ticket_row self.new other
            ≡ (if index ticket.op == index other.op && ticket.number == other.number
            then None else ticket_row self.old other) }
    {
        let op = ticket.op.index();
        if op >= self.rows.len() {
            return None;
        }
        take_at(&mut self.rows[op], ticket.number as usize)
    }
}

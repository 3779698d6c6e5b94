//! What a run of a program starts with.

ghost use Rattle.std.specs.Prelude.{◌≡◌, true, Some, map, position, IfOk, OnOk};
ghost use Rattle.std.specs.List.{flat_map, list_all};
ghost use Rattle.indexmap.specs.IndexMap.{keys};
ghost use Rattle.f77_tree.specs.Data.{data_group_of};
ghost use Rattle.f77_program.specs.Program.{line_of};
ghost use Rattle.f77_tree.specs.Statement.{is_executable_statement, statement_of};
ghost use Rattle.f77_legal.specs.Blocks.{first_numbers};
ghost use Rattle.f77_check.specs.code.Initial as given;
ghost use Rattle.f77_legal.specs.NameTable.{kind_at};
ghost use Rattle.f77_legal.specs.InitialValues as initial_values;
ghost use Rattle.f77_legal.specs.InitialValues.{element_count};
ghost use Rattle.f77_check.specs.{CanResolve, first_slot, slot_kinds, IsStartOf, initial_value};
ghost use Rattle.f77_check.specs.code.{HasFewSlots, slots_of, groups_kept, is_kept, by_tables};

use crate::resolve::Resolver;
use f77_legal::heading::arguments;
use f77_legal::names::product;
use f77_program::Line;
use f77_tree::{Constant, DataGroup, Kind, Name, Shared, Stmt, Value};
use std::alloc::{AllocError, Global};

/// What a run of a program starts with. Statements and slots are numbered from 0.
#[derive(Drop)]
pub struct Start {
    /// The first executable statement.
    pub entry: usize,
    /// The first slot of each dummy argument, in order.
    pub dummies: Vec<usize>,
    /// The value that DATA gives each slot, if it gives one (section 9).
    pub initial: Vec<Option<Constant>>,
    /// The kind of each slot.
    pub kinds: Vec<Kind>,
}

/// The first executable statement, from 0.
fn entry(lines: &[Shared<Line>]) -> Option<usize>
    ensures { result ≡ position (λ line. is_executable_statement (statement_of line.stmt)) lines.now }
{
    lines
        .iter()
        .position(|line| line.stmt.form().is_executable())
}

/// The groups of a DATA statement. Another statement has none.
#[tactic(auto, using(f77_legal::proofs::Forms::no_groups))]
fn groups(stmt: &Stmt) -> &[DataGroup]
    ensures { map data_group_of result.now ≡ initial_values.groups_of (statement_of stmt.now) }
{
    match stmt {
        Stmt::Preset { groups } => groups,
        _ => &[],
    }
}

/// Gives a slot its value, unless it has one.
fn give(held: &mut [Option<Constant>], slot: usize, constant: Constant)
    ensures { held.new ≡ given.give constant held.old slot }
{
    if let Some(None) = held.get(slot) {
        held[slot] = Some(constant);
    }
}

fn give_run(held: &mut [Option<Constant>], slots: &[usize], constant: Constant)
    ensures { held.new ≡ given.give_run constant held.old slots.now }
{
    for slot in slots {
        give(held, *slot, constant);
    }
}

/// Gives the slots the values in order, each value as often as it is repeated.
fn give_values(held: &mut [Option<Constant>], slots: &[usize], values: &[Value])
    ensures { held.new ≡ given.give_values held.old slots.now values.now }
{
    let mut rest = slots;
    for value in values {
        let count = rest.len().min(value.times as usize);
        let (front, behind) = rest.split_at(count);
        give_run(held, front, value.constant);
        rest = behind;
    }
}

impl Resolver {
    /// The slots of names, name by name.
    fn slots_of(&self, alloc: Global, list: &[Name]) -> Result<Vec<usize>, AllocError>
        requires slots { HasFewSlots self.now }
        requires kept { list_all (is_kept self.now.tables.names) list.now ≡ true }
        ensures { IfOk result (λ slots. slots.items ≡ flat_map (by_tables self.now slots_of) list.now) }
    {
        let names = &self.tables.names;
        let mut slots = Vec::new(alloc);
        for name in list {
            let first = self.slots.first(names, name);
            for k in 0..product(names.bounds(name)) as usize {
                slots.push(first + k)?;
            }
        }
        Ok(slots)
    }

    /// The first slot of each name.
    fn first_slots(&self, alloc: Global, list: &[Name]) -> Result<Vec<usize>, AllocError>
        requires slots { HasFewSlots self.now }
        requires kept { list_all (is_kept self.now.tables.names) list.now ≡ true }
        ensures { IfOk result
            (λ slots. map (by_tables self.now first_slot) list.now ≡ map (λ slot. Some slot) slots.items) }
    {
        let mut slots = Vec::new(alloc);
        for name in list {
            slots.push(self.slots.first(&self.tables.names, name))?;
        }
        Ok(slots)
    }

    fn give_groups(
        &self,
        alloc: Global,
        held: &mut [Option<Constant>],
        groups: &[DataGroup],
    ) -> Result<(), AllocError>
        requires slots { HasFewSlots self.now }
        requires kept { groups_kept self.now.tables.names (map data_group_of groups.now) ≡ true }
        ensures { OnOk result
            (held.new ≡ by_tables self.now given.give_groups held.old (map data_group_of groups.now)) }
    {
        for group in groups {
            let slots = self.slots_of(alloc, &group.names)?;
            give_values(held, &slots, &group.values);
        }
        Ok(())
    }

    /// The value that DATA gives each slot, if it gives one.
    fn initial(
        &self,
        alloc: Global,
        lines: &[Shared<Line>],
    ) -> Result<Vec<Option<Constant>>, AllocError>
        requires { CanResolve self.now (map line_of lines.now) }
        ensures { IfOk result (λ initial. initial.items ≡ flat_map
            (λ name. map (initial_value (map line_of lines.now) name)
            (first_numbers (element_count (map line_of lines.now) name)))
            (keys self.now.tables.names.facts)) }
    {
        let mut held = vec![in alloc; None; self.slots.count]?;
        for line in lines {
            self.give_groups(alloc, &mut held, groups(&line.stmt))?;
        }
        Ok(held)
    }

    /// The kind of each slot.
    fn kinds(&self, alloc: Global) -> Result<Vec<Kind>, AllocError>
        requires { HasFewSlots self.now }
        ensures { IfOk result
            (λ kinds. kinds.items ≡ by_tables self.now (slot_kinds (kind_at self.now.tables.names))) }
    {
        let names = &self.tables.names;
        let mut kinds = Vec::with_capacity(alloc, self.slots.count)?;
        for name in names.facts.keys() {
            let count = product(names.bounds(name)) as usize;
            kinds.resize(kinds.len() + count, names.kind(name))?;
        }
        Ok(kinds)
    }

    /// What a run of a legal program starts with.
    pub(crate) fn start(&self, alloc: Global, lines: &[Shared<Line>]) -> Result<Start, AllocError>
        requires { CanResolve self.now (map line_of lines.now) }
        ensures { IfOk result
            (λ start. IsStartOf (map line_of lines.now) (keys self.now.tables.names.facts) start) }
    {
        Ok(Start {
            entry: entry(lines).unwrap(),
            dummies: self.first_slots(alloc, arguments(lines))?,
            initial: self.initial(alloc, lines)?,
            kinds: self.kinds(alloc)?,
        })
    }
}

//! The registers and counters of a run.

ghost use Rattle.std.specs.Prelude.{◌≡◌, ◌≢◌, ◌≤◌, ◌++◌, drop, length, map, option_map, take};
ghost use Rattle.std.specs.Prelude.{true, Some};
ghost use Rattle.std.specs.Prelude.{IfOk, OnOk, IfNone, IfSome};
ghost use Rattle.std.specs.Bool.{Decides};
ghost use Rattle.std.specs.List.{list_all};
ghost use Rattle.f77_code.specs.Holds.{read_as};
ghost use Rattle.f77_code.specs.Program.{IsCode};
ghost use Rattle.f77_code.specs.Registers.{are_held, is_held, decoded};
ghost use Rattle.f77_run.specs.code.Registers as meaning;
ghost use Rattle.f77_meaning.specs.Start.{constant_value};
ghost use Rattle.f77_actions.specs.Number.{fits};
ghost use Rattle.f77_actions.specs.Encoded.{coded, is_fitting};
ghost use Rattle.f77_run.specs.{IsImage, loaded, values_fit};
ghost use Rattle.f77_run.specs.code.{shown_cells, stands_at};

use f77_actions::Value;
use f77_actions::encoded::UNDEFINED;
use f77_check::Checked;
use f77_code::{Code, Turn};
use f77_tree::{Constant, Kind};
use std::alloc::{AllocError, Global};

/// A register for each slot and behind them for each constant of the code, and a counter for each DO, all in order.
#[derive(Drop)]
pub(crate) struct Registers {
    pub(crate) items: Vec<i64>,
    pub(crate) counters: Vec<Turn>,
}

/// The number in a register for this value of a slot.
pub(crate) fn number(kind: Kind, cell: Option<Value>) -> i64
    ensures number { result ≡ coded (read_as kind cell) }
    ensures held { is_held result ≡ true }
    ensures fitting { is_fitting (read_as kind cell) ≡ true }
{
    match (kind, cell) {
        (Kind::Integer, Some(Value::Number(number))) => i64::from(number),
        (Kind::Logical, Some(Value::Truth(truth))) => i64::from(truth),
        (Kind::Integer, Some(Value::Truth(_)) | None)
        | (Kind::Logical, Some(Value::Number(_)) | None) => UNDEFINED,
    }
}

/// The value of a slot of this kind, from the number in its register.
pub(crate) fn value(kind: Kind, register: i64) -> Option<Value>
    requires { is_held register ≡ true }
    ensures { result ≡ meaning.shown_as kind (decoded register) }
{
    match kind {
        Kind::Integer => match i32::try_from(register) {
            Ok(number) => Some(Value::Number(number)),
            Err(_) => None,
        },
        Kind::Logical => {
            if register == UNDEFINED {
                return None;
            }
            Some(Value::Truth(register != 0))
        }
    }
}

/// Whether a slot of this kind, whose register has this number, has this value.
#[inline(always)]
pub(crate) fn is_value(kind: Kind, register: i64, other: Value) -> bool
    requires { is_held register ≡ true }
    ensures { Decides result (Some other ≡ meaning.shown_as kind (decoded register)) }
{
    match (kind, other) {
        (Kind::Integer, Value::Number(number)) => register == i64::from(number),
        (Kind::Logical, Value::Truth(truth)) => {
            register != UNDEFINED && (register != 0) == truth
        }
        (Kind::Integer, Value::Truth(_)) | (Kind::Logical, Value::Number(_)) => false,
    }
}

/// The value that DATA gives a slot, if it gives one.
fn initial(constant: Option<Constant>) -> Option<Value>
    ensures { result ≡ option_map constant_value constant }
{
    match constant {
        Some(Constant::Number(number)) => Some(Value::Number(number)),
        Some(Constant::Truth(truth)) => Some(Value::Truth(truth)),
        None => None,
    }
}

/// Adds a register for each slot, with the value that DATA gives it.
fn add_slots(
    registers: &mut Vec<i64>,
    kinds: &[Kind],
    constants: &[Option<Constant>],
) -> Result<(), AllocError>
    ensures items { OnOk result (registers.new.items
        ≡ registers.old.items ++ loaded kinds.now (map (option_map constant_value) constants.now)) }
    ensures held { OnOk result (are_held (loaded kinds.now (map (option_map constant_value) constants.now)) ≡ true) }
    ensures fitting { OnOk result
        (values_fit kinds.now (map (option_map constant_value) constants.now) ≡ true) }
{
    for (kind, constant) in kinds.iter().zip(constants) {
        registers.push(number(*kind, initial(*constant)))?;
    }
    Ok(())
}

/// Adds a register for each constant.
pub(crate) fn add_constants(registers: &mut Vec<i64>, constants: &[i32]) -> Result<(), AllocError>
    ensures items { OnOk result (registers.new.items ≡ registers.old.items ++ constants.now) }
    ensures kept { take (length registers.old.items) registers.new.items ≡ registers.old.items }
    ensures held { OnOk result (are_held constants.now ≡ true) }
    ensures fitting { OnOk result (list_all fits constants.now ≡ true) }
{
    for constant in constants {
        registers.push(i64::from(*constant))?;
    }
    Ok(())
}

/// The values of slots of these kinds, from their registers.
pub(crate) fn shown(
    alloc: Global,
    kinds: &[Kind],
    registers: &[i64],
) -> Result<Vec<Option<Value>>, AllocError>
    requires { are_held registers.now ≡ true }
    ensures cells { IfOk result (λ cells. cells.items ≡ shown_cells kinds.now registers.now) }
{
    let mut cells = Vec::with_capacity(alloc, kinds.len())?;
    for (kind, register) in kinds.iter().zip(registers) {
        cells.push(value(*kind, *register))?;
    }
    Ok(cells)
}

/// Makes a list equal to another. It takes memory if their lengths differ.
fn copy_items<T: Copy>(list: &mut Vec<T>, other: &[T]) -> Result<(), AllocError>
    ensures items { OnOk result (list.new.items ≡ other.now) }
{
    if list.len() != other.len() {
        list.clear();
        list.extend_from_slice(other)?;
    } else if !other.is_empty() {
        // Most programs have no DO, and copying nothing would still be a call.
        list.copy_from_slice(other);
    }
    Ok(())
}

/// The first place where two lists differ.
fn first_other(items: &[i64], others: &[i64]) -> Option<usize>
    requires { length items.now ≡ length others.now }
    ensures none { IfNone result (items.now ≡ others.now) }
    ensures some { IfSome result (λ place. items.now ≢ others.now) }
{
    'places: for place in 0..items.len() {
        if items[place] != others[place] {
            return Some(place);
        }
    }
    None
}

impl Registers {
    /// No registers yet. It takes no memory.
    pub(crate) fn new(alloc: Global) -> Registers {
        Registers {
            items: Vec::new(alloc),
            counters: Vec::new(alloc),
        }
    }

    /// The registers at the start of each run of a program, before the arguments are put in.
    pub(crate) fn at_start(
        alloc: Global,
        checked: &Checked,
        code: &Code,
    ) -> Result<Registers, AllocError>
        requires code { IsCode checked.now.statements code.now }
        ensures image { IfOk result (IsImage checked.now code.now.constants.values.items) }
    {
        let start = checked.start();
        let mut items = Vec::with_capacity(alloc, start.kinds.len())?;
        add_slots(&mut items, &start.kinds, &start.initial)?;
        add_constants(&mut items, code.constants().values())?;
        let loops = code.instructions().len() - checked.count();
        let counters = vec![in alloc; Turn { passes: 0, step: 0 }; loops]?;
        Ok(Registers { items, counters })
    }

    /// Makes these registers equal to others.
    pub(crate) fn copy_from(&mut self, other: &Registers) -> Result<(), AllocError>
        ensures items { OnOk result (self.new.items.items ≡ other.now.items.items) }
        ensures counters { OnOk result (self.new.counters.items ≡ other.now.counters.items) }
    {
        copy_items(&mut self.items, &other.items)?;
        copy_items(&mut self.counters, &other.counters)
    }

    /// Makes the registers behind the first `slots` equal to others. It does not say what is in the slots and counters;
    /// there are as many as in the others.
    pub(crate) fn copy_behind(&mut self, slots: usize, other: &Registers) -> Result<(), AllocError>
        requires { slots ≤ length other.now.items.items }
        ensures behind { OnOk result (drop slots self.new.items.items ≡ drop slots other.now.items.items) }
        ensures many { OnOk result (length self.new.items.items ≡ length other.now.items.items) }
        ensures counters { OnOk result (length self.new.counters.items ≡ length other.now.counters.items) }
    {
        if self.items.len() != other.items.len() || self.counters.len() != other.counters.len() {
            return self.copy_from(other);
        }
        self.items[slots..].copy_from_slice(&other.items[slots..]);
        Ok(())
    }

    /// Whether two sets of registers are equal. The place where they differed the last time is compared first: in a
    /// loop that counts they differ in the same place each time, so a pass costs one comparison, whatever its arrays.
    pub(crate) fn are(&self, other: &Registers, apart: &mut usize) -> bool
        requires { length self.now.items.items ≡ length other.now.items.items }
        ensures { Decides result (stands_at 0 self.now ≡ stands_at 0 other.now) }
    {
        if self.items.get(*apart) != other.items.get(*apart) {
            return false;
        }
        match first_other(&self.items, &other.items) {
            Some(place) => {
                *apart = place;
                false
            }
            None => self.counters == other.counters,
        }
    }
}

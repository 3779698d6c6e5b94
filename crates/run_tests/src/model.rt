//! Runs of the model: where a run starts (f77_meaning/specs/Start.antt), how it ends (f77_meaning/specs/Outcome.antt),
//! and the outcome for that (f77_meaning/specs/Interpreter.antt).

use crate::expressions::{logic, whole};
use crate::statements::{Config, Place, step};
use crate::store::Store;
use crate::unit::{Halt, Unit};
use f77_meaning::{Arg, Outcome, Values};
use f77_run::{Fault, Finish, Value};
use f77_tree::{Constant, DataGroup, Kind, Name, Stmt, nodes};
use std::alloc::{AllocError, Global};

/// `values_in`: the values of an argument, element by element.
fn values_in(alloc: Global, argument: &Arg) -> Result<Vec<Option<Value>>, AllocError> {
    match argument {
        Arg::Int(number) => [Some(Value::Number(*number))].to_vec(alloc),
        Arg::Truth(truth) => [Some(Value::Truth(*truth))].to_vec(alloc),
        Arg::Ints(numbers) => numbers
            .as_slice()
            .iter()
            .map(|number| Some(Value::Number(*number)))
            .collect(alloc),
        Arg::Truths(truths) => truths
            .as_slice()
            .iter()
            .map(|truth| Some(Value::Truth(*truth)))
            .collect(alloc),
    }
}

/// `start_values` of the dummy arguments (15.9): they get the values that are given.
fn add_dummies(unit: &Unit<'_>, s: &mut Store, arguments: &[Arg]) -> Result<(), Halt> {
    for (name, argument) in unit.dummies().iter().zip(arguments) {
        s.add(name, values_in(unit.alloc, argument)?)?;
    }
    Ok(())
}

/// `start_values` of other names: the elements of each name that a statement has get no value.
fn add_names(unit: &Unit<'_>, s: &mut Store, stmt: &Stmt) -> Result<(), Halt> {
    for node in nodes(unit.alloc, stmt)? {
        if let Some(name) = node.name() {
            s.add(name, vec![in unit.alloc; None; unit.elements(name)]?)?;
        }
    }
    Ok(())
}

/// The constant with this number, counted from 0, in a group with repeats counted (9.1).
fn constant(group: &DataGroup, n: usize) -> Option<Value> {
    let mut left = n;
    for value in &group.values {
        let times = value.times as usize;
        if left < times {
            return match value.constant {
                Constant::Number(number) => Some(Value::Number(number)),
                Constant::Truth(truth) => Some(Value::Truth(truth)),
            };
        }
        left = left.saturating_sub(times);
    }
    None
}

/// Gives the elements of a name of a group the constants from this one on.
fn initialize_name(unit: &Unit<'_>, s: &mut Store, group: &DataGroup, name: &Name, first: usize) {
    for k in 0..unit.elements(name) {
        if let Some(value) = constant(group, first.saturating_add(k)) {
            s.put(name, k, value);
        }
    }
}

/// `initial_values_of` (f77_check/specs/Start.antt; section 9): the elements of all names of a group get its constants,
/// in order.
fn initialize_group(unit: &Unit<'_>, s: &mut Store, group: &DataGroup) {
    let mut first: usize = 0;
    for name in &group.names {
        initialize_name(unit, s, group, name, first);
        first = first.saturating_add(unit.elements(name));
    }
}

/// `initial_values` (f77_check/specs/Start.antt) of a statement.
fn initialize(unit: &Unit<'_>, s: &mut Store, stmt: &Stmt) {
    if let Stmt::Preset { groups } = stmt {
        for group in groups {
            initialize_group(unit, s, group);
        }
    }
}

/// `start_values` of all names.
fn start_values(unit: &Unit<'_>, arguments: &[Arg]) -> Result<Store, Halt> {
    let mut s = Store::new(unit.alloc);
    add_dummies(unit, &mut s, arguments)?;
    for line in unit.lines {
        add_names(unit, &mut s, &line.stmt)?;
        initialize(unit, &mut s, &line.stmt);
    }
    Ok(s)
}

/// `is_executable` (f77_tree/specs/Form.antt; 7.1).
fn is_executable(stmt: &Stmt) -> bool {
    !matches!(
        stmt,
        Stmt::Subroutine { .. }
            | Stmt::Declare { .. }
            | Stmt::Dimension { .. }
            | Stmt::Preset { .. }
    )
}

/// `IsStart` (15.9): control is at the first executable statement, and no DO is active.
fn starts(unit: &Unit<'_>, arguments: &[Arg]) -> Result<Config, Halt> {
    let entry = unit.lines.iter().position(|line| is_executable(&line.stmt));
    Ok(Config {
        place: Place::Execute(entry.ok_or(Halt::Nowhere)?),
        values: start_values(unit, arguments)?,
        active: vec![in unit.alloc; None; unit.lines.len()]?,
    })
}

/// The value of a dummy argument.
fn argument(unit: &Unit<'_>, s: &Store, name: &Name) -> Result<Arg, Halt> {
    let is_array = !unit.bounds_of(name).is_empty();
    let elements = s.elements(name).iter();
    match unit.kind_of(name) {
        Kind::Integer if is_array => Ok(Arg::Ints(Values::new(
            elements
                .map(|element| -> Result<i32, Halt> { Ok(whole(*element)?) })
                .try_collect(unit.alloc)?,
        ))),
        Kind::Integer => Ok(Arg::Int(whole(s.element(name, 0))?)),
        Kind::Logical if is_array => Ok(Arg::Truths(Values::new(
            elements
                .map(|element| -> Result<bool, Halt> { Ok(logic(*element)?) })
                .try_collect(unit.alloc)?,
        ))),
        Kind::Logical => Ok(Arg::Truth(logic(s.element(name, 0))?)),
    }
}

/// `argument_values`, as `AreArguments` has them.
fn arguments(unit: &Unit<'_>, s: &Store) -> Result<Values<Arg>, Halt> {
    let mut arguments = Vec::new(unit.alloc);
    for name in unit.dummies() {
        arguments.push(argument(unit, s, name)?)?;
    }
    Ok(Values::new(arguments))
}

/// `fault_outcome`: the outcome of a run that failed.
fn fault_outcome(fault: Fault) -> Outcome {
    match fault {
        Fault::Overflow => Outcome::Overflow,
        Fault::DivideByZero => Outcome::DivideByZero,
        Fault::ZeroPower => Outcome::ZeroPower,
        Fault::BadSubscript => Outcome::BadSubscript,
        Fault::ZeroStep => Outcome::ZeroStep,
        Fault::Undefined => Outcome::Undefined,
        Fault::Trapped => Outcome::Trapped,
    }
}

/// `Reports`: the outcome for an end.
fn end_outcome(unit: &Unit<'_>, finish: Finish, s: &Store) -> Result<Outcome, Halt> {
    match finish {
        Finish::Returned => Ok(Outcome::Returned(arguments(unit, s)?)),
        Finish::Stopped => Ok(Outcome::Stopped(arguments(unit, s)?)),
        Finish::Failed(fault) => Ok(fault_outcome(fault)),
        Finish::StepLimit => Ok(Outcome::StepLimit),
    }
}

/// `IsOutcome`: how a run ends within a limit on steps, and how many steps it makes.
fn ends(unit: &Unit<'_>, c: &mut Config, steps: u32) -> Result<(Finish, u32), Halt> {
    for made in 0..steps {
        match step(unit, c) {
            Ok(()) => {}
            Err(Halt::Ends(finish)) => return Ok((finish, made + 1)),
            Err(halt) => return Err(halt),
        }
    }
    Ok((Finish::StepLimit, steps))
}

/// `IsOutcomeOf`: the outcome of the run with these arguments within this limit, and how many steps it makes.
pub(crate) fn outcome(
    unit: &Unit<'_>,
    arguments: &[Arg],
    steps: u32,
) -> Result<(Outcome, u32), Halt> {
    let mut c = starts(unit, arguments)?;
    let (finish, made) = ends(unit, &mut c, steps)?;
    Ok((end_outcome(unit, finish, &c.values)?, made))
}

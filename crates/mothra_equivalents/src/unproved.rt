//! What is told of a mutant that is not proved equivalent: where its proof was given up, and tests that kill it. What
//! the proof leaves is run.

ghost use Rattle.std.specs.Prelude.{◌≡◌, ◌≢◌, ◌≤◌, true, All, AllPairs, IfOk, length};
ghost use Rattle.f77_meaning.specs.Interpreter.{AreFitting};
ghost use Rattle.mothra_ops.specs.Made.{IsMadeMutant};

use f77_check::{Checked, Shape};
use f77_legal::Names;
use f77_legal::names::product;
use f77_meaning::{Arg, Outcome, Values};
use f77_run::{Runner, fit, run};
use f77_symbolic::rows::Gap;
use f77_tree::{Kind, Name};
use mothra_codes::Ticket;
use mothra_ops::Mutant;
use std::alloc::{AllocError, Global};

/// What is told of a mutant that is not proved equivalent. That its tests kill it is not claimed.
#[derive(Drop)]
pub struct Unproved {
    /// The mutant; the number is that in the plan's list of the operator, which may be thinned.
    pub ticket: Ticket,
    /// Tests on which the mutant did something else than the program: the values of the dummy arguments, in order.
    pub rows: Vec<Values<Arg>>,
    /// Where its proof was given up.
    pub left: Option<Left>,
}

/// Where the walk of the program and of the mutant was given up.
#[derive(Clone, Copy, PartialEq, Eq, Debug, Drop)]
pub struct Left {
    /// The line of the program's statement at which the program is then.
    pub own: u32,
    /// The one at which the mutant is.
    pub other: u32,
    /// The variable or array of which values were compared there last, if any were.
    pub name: Option<Name>,
}

/// The values of dummy arguments of these shapes, whose slots hold the numbers of the row in order; 0 for one that 32
/// bits do not hold.
fn arguments(alloc: Global, shapes: &[Shape], row: &[i64]) -> Result<Values<Arg>, AllocError> {
    let mut list = Vec::with_capacity(alloc, shapes.len())?;
    let mut rest = row;
    for shape in shapes {
        let count = rest.len().min(shape.elements.unwrap_or(1) as usize);
        let (front, others) = rest.split_at(count);
        rest = others;
        let held: Vec<i32> = front
            .iter()
            .map(|number| i32::try_from(*number).unwrap_or(0))
            .collect(alloc)?;
        let first = held.first().copied().unwrap_or(0);
        list.push(match (shape.kind, shape.elements) {
            (Kind::Integer, None) => Arg::Int(first),
            (Kind::Logical, None) => Arg::Truth(first != 0),
            (Kind::Integer, Some(_)) => Arg::Ints(Values::new(held)),
            (Kind::Logical, Some(_)) => Arg::Truths(Values::new(
                held.iter().map(|number| *number != 0).collect(alloc)?,
            )),
        })?;
    }
    Ok(Values::new(list))
}

/// The test is none of these.
fn is_new(tests: &[Values<Arg>], test: &Values<Arg>) -> bool
    ensures { result ≡ true → All (λ other. other ≢ test.now) tests.now }
{
    !tests.contains(test)
}

/// Tests that kill the mutant, those of these rows that do, each once and at most so many: on them the program returns
/// or stops within the steps, and the mutant does something else.
pub(crate) fn rows_of(
    alloc: Global,
    checked: &Checked,
    mutant: &Mutant,
    rows: &[Vec<i64>],
    most: u32,
    steps: u32,
) -> Result<Vec<Values<Arg>>, AllocError>
    requires { IsMadeMutant checked.now mutant.now }
    ensures fit { IfOk result (λ tests. All (AreFitting checked.now.arguments) tests.items) }
    ensures differ { IfOk result (λ tests. AllPairs (λ test other. test ≢ other) tests.items) }
    ensures few { IfOk result (λ tests. length tests.items ≤ most) }
{
    let mut killing = Vec::new(alloc);
    if rows.is_empty() {
        return Ok(killing);
    }
    let stmt = mutant.statement(checked)?;
    let changed = checked.with_statement(mutant.number(), &stmt, mutant.is_alone)?;
    let mut runner = Runner::of(alloc, &changed)?;
    for row in rows {
        if killing.len() >= most as usize {
            return Ok(killing);
        }
        let test = arguments(alloc, checked.arguments(), row)?;
        if !is_new(&killing, &test) || fit(checked.arguments(), test.as_slice()).is_err() {
            continue;
        }
        // A test that fits is refused for want of memory alone.
        let outcome = run(alloc, checked, test.as_slice(), steps).map_err(|_| AllocError)?;
        if !matches!(outcome, Outcome::Returned(_) | Outcome::Stopped(_)) {
            continue;
        }
        let is_same = runner.comes_to(test.as_slice(), steps, &outcome);
        if !is_same.map_err(|_| AllocError)? {
            killing.push(test)?;
        }
    }
    Ok(killing)
}

/// The name of the variable or array of which a slot is. Slots are given out name by name.
fn name_at(names: &Names, slot: usize) -> Option<Name> {
    let mut end: u64 = 0;
    for name in names.facts.keys() {
        end = end.saturating_add(product(names.bounds(name)));
        if (slot as u64) < end {
            return Some(*name);
        }
    }
    None
}

/// Where the walk was given up, if it came to statements of the program.
pub(crate) fn left_at(checked: &Checked, names: &Names, gap: Option<Gap>) -> Option<Left> {
    let gap = gap?;
    let lines = checked.program().lines();
    Some(Left {
        own: lines.get(gap.own)?.line,
        other: lines.get(gap.other)?.line,
        name: gap.slot.and_then(|slot| name_at(names, slot)),
    })
}

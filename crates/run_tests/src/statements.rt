//! One step, by cases on the statement where control is (f77_meaning/specs/Step.antt).

use crate::arithmetic::{in_range, trip_count};
use crate::control::{behind, branch_end, is_left, place_of, terminal};
use crate::expressions::{number, place, truth, value, whole};
use crate::store::Store;
use crate::unit::{Halt, Unit};
use f77_run::{Fault, Finish, Value};
use f77_tree::{Expr, Name, Ref, Stmt};

/// `Place`: control is at a statement that is to be executed, or at a DO that is to be incremented.
#[derive(Clone, Copy)]
pub(crate) enum Place {
    Execute(usize),
    Increment(usize),
}

/// `Turn`: the passes that an active DO has left, and its incrementation parameter.
#[derive(Clone, Copy)]
pub(crate) struct Turn {
    passes: u64,
    step: i32,
}

/// `Config`: the place of control, the values of names, and for each statement its turn if it is an active DO.
#[derive(Drop)]
pub(crate) struct Config {
    pub(crate) place: Place,
    pub(crate) values: Store,
    pub(crate) active: Vec<Option<Turn>>,
}

impl Config {
    fn turn(&self, d: usize) -> Option<Turn> {
        match self.active.get(d) {
            Some(turn) => *turn,
            None => None,
        }
    }

    /// `with_turn`.
    fn set_turn(&mut self, d: usize, turn: Option<Turn>) {
        if let Some(old) = self.active.get_mut(d) {
            *old = turn;
        }
    }
}

/// `IsInnermost` (11.10.6): the last active DO that ends at `t`.
fn innermost(unit: &Unit<'_>, c: &Config, t: usize) -> Option<usize> {
    for d in (0..unit.lines.len()).rev() {
        if c.turn(d).is_some() && terminal(unit, d) == Some(t) {
            return Some(d);
        }
    }
    None
}

/// `GoesOn` (11.10.6, 11.6 to 11.9): control goes on from statement `t`, which did not jump.
fn goes_on(unit: &Unit<'_>, c: &mut Config, t: usize) -> Result<(), Halt> {
    c.place = match innermost(unit, c, t) {
        Some(d) => Place::Increment(d),
        None => Place::Execute(behind(unit, t).ok_or(Halt::Nowhere)?),
    };
    Ok(())
}

/// `Jumps` (11.1, 11.10.2): a jump from statement `i` to the statement with the label. It may leave ranges of DOs.
fn jumps(unit: &Unit<'_>, c: &mut Config, i: usize, label: u32) -> Result<(), Halt> {
    let j = place_of(unit, label).ok_or(Halt::Nowhere)?;
    for d in 0..unit.lines.len() {
        if is_left(unit, i, j, d) {
            c.set_turn(d, None);
        }
    }
    c.place = Place::Execute(j);
    Ok(())
}

/// `Passes` (11.10.4): the DO `d` has so many passes left.
fn passes(unit: &Unit<'_>, c: &mut Config, d: usize, passes: u64, step: i32) -> Result<(), Halt> {
    if passes == 0 {
        c.set_turn(d, None);
        let t = terminal(unit, d).ok_or(Halt::Nowhere)?;
        return goes_on(unit, c, t);
    }
    c.set_turn(d, Some(Turn { passes, step }));
    c.place = Place::Execute(d.saturating_add(1));
    Ok(())
}

/// `Begins` (11.10.3): the DO `d` begins with these parameters.
fn begins(
    unit: &Unit<'_>,
    c: &mut Config,
    d: usize,
    variable: &Name,
    first: i32,
    last: i32,
    step: i32,
) -> Result<(), Halt> {
    if step == 0 {
        return Err(Halt::from(Fault::ZeroStep));
    }
    c.values.put(variable, 0, Value::Number(first));
    passes(unit, c, d, trip_count(first, last, step), step)
}

/// The case `Loop` of `Executes` (11.10.3): the parameters are evaluated in order. The third is 1 where none is
/// written.
fn executes_do(unit: &Unit<'_>, c: &mut Config, d: usize, stmt: &Stmt) -> Result<(), Halt> {
    match stmt {
        Stmt::Loop {
            variable,
            first,
            last,
            step,
            ..
        } => {
            let first = number(unit, &c.values, first)?;
            let last = number(unit, &c.values, last)?;
            let step = match step {
                Some(step) => number(unit, &c.values, step)?,
                None => 1,
            };
            begins(unit, c, d, variable, first, last, step)
        }
        _ => Err(Halt::Nowhere),
    }
}

/// The case `Assign` of `Executes` (10.1, 10.2): the place of the target comes before the value.
fn assigns(
    unit: &Unit<'_>,
    c: &mut Config,
    i: usize,
    target: &Ref,
    expr: &Expr,
) -> Result<(), Halt> {
    let k = place(unit, &c.values, target)?;
    let value = value(unit, &c.values, unit.kind_of(&target.name), expr)?;
    c.values.put(&target.name, k, value);
    goes_on(unit, c, i)
}

/// `item_chosen` (f77_code/specs/Choice.antt; 11.2): the label with this number, counted from 1.
fn numbered(labels: &[u32], number: i32) -> Option<u32> {
    match usize::try_from(i64::from(number) - 1) {
        Ok(n) => labels.get(n).copied(),
        Err(_) => None,
    }
}

/// The cases `Goto`, `ComputedGoto` and `ArithIf` of `Executes` (11.1, 11.2, 11.4).
fn transfers(unit: &Unit<'_>, c: &mut Config, i: usize, stmt: &Stmt) -> Result<(), Halt> {
    match stmt {
        // 11.1
        Stmt::Goto { label } => jumps(unit, c, i, *label),
        // 11.2: where no label has this number, nothing more is done.
        Stmt::ComputedGoto { labels, value } => {
            let number = number(unit, &c.values, value)?;
            match numbered(labels, number) {
                Some(label) => jumps(unit, c, i, label),
                None => goes_on(unit, c, i),
            }
        }
        // 11.4: `by_sign`
        Stmt::ArithIf {
            value,
            negative,
            zero,
            positive,
        } => {
            let label = match number(unit, &c.values, value)? {
                ..=-1 => *negative,
                0 => *zero,
                1.. => *positive,
            };
            jumps(unit, c, i, label)
        }
        _ => Err(Halt::Nowhere),
    }
}

/// `Executes`: statement `i` is executed, or the statement inside it if it is a logical IF.
fn executes(unit: &Unit<'_>, c: &mut Config, i: usize, stmt: &Stmt) -> Result<(), Halt> {
    match stmt {
        Stmt::Assign { target, value } => assigns(unit, c, i, target, value),
        Stmt::Goto { .. } | Stmt::ComputedGoto { .. } | Stmt::ArithIf { .. } => {
            transfers(unit, c, i, stmt)
        }
        // 11.5
        Stmt::LogicalIf {
            condition,
            statement,
        } => {
            if truth(unit, &c.values, condition)? {
                executes(unit, c, i, statement)
            } else {
                goes_on(unit, c, i)
            }
        }
        // 11.6, 11.7: `Skips`, to the next ELSE IF, ELSE or END IF.
        Stmt::BlockIf { condition } | Stmt::ElseIf { condition } => {
            if truth(unit, &c.values, condition)? {
                goes_on(unit, c, i)
            } else {
                c.place = Place::Execute(branch_end(unit, i).ok_or(Halt::Nowhere)?);
                Ok(())
            }
        }
        // 11.8, 11.9, 11.11
        Stmt::Else | Stmt::EndIf | Stmt::Continue => goes_on(unit, c, i),
        Stmt::Loop { .. } => executes_do(unit, c, i, stmt),
        // 15.8, 11.14
        Stmt::Return | Stmt::End => Err(Halt::Ends(Finish::Returned)),
        // 11.12
        Stmt::Stop => Err(Halt::Ends(Finish::Stopped)),
        // In mutants alone.
        Stmt::Trap => Err(Halt::from(Fault::Trapped)),
        // No other statement is executed.
        _ => Err(Halt::Nowhere),
    }
}

/// `Increments` (11.10.7): the DO `d` is incremented. Its variable and its passes change.
fn increments(unit: &Unit<'_>, c: &mut Config, d: usize, turn: Turn) -> Result<(), Halt> {
    match unit.statement(d)? {
        Stmt::Loop { variable, .. } => {
            let number = whole(c.values.element(variable, 0))?;
            let next = in_range(i64::from(number) + i64::from(turn.step))?;
            c.values.put(variable, 0, Value::Number(next));
            passes(unit, c, d, turn.passes.saturating_sub(1), turn.step)
        }
        _ => Err(Halt::Nowhere),
    }
}

/// `Step` and `StepAt`: the configuration becomes the next one, or the run ends.
pub(crate) fn step(unit: &Unit<'_>, c: &mut Config) -> Result<(), Halt> {
    match c.place {
        Place::Execute(i) => executes(unit, c, i, unit.statement(i)?),
        Place::Increment(d) => match c.turn(d) {
            Some(turn) => increments(unit, c, d, turn),
            None => Err(Halt::Nowhere),
        },
    }
}

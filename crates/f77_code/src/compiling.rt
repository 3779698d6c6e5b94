//! Compiling actions. Where their operands are registers, they become operations that need no call.

ghost use Rattle.std.specs.Prelude.{◌≡◌, ◌<◌, true, IfOk, map};
ghost use Rattle.std.specs.List.{list_all};
ghost use Rattle.f77_code.specs.{is_of_32_bits, can_compile, element_within, condition_within};
ghost use Rattle.f77_code.specs.code.{IsGiving, IsTesting, IsAssigning, IsConditional, IsCompiled, GrowsPlan};

use crate::compile::{paired, register_of};
use crate::constants::Constants;
use crate::instruction::Operation;
use crate::term::Term;
use f77_actions::{Action, Condition, Element, Jump};
use std::alloc::{AllocError, Global};

/// The place of a statement: its number.
#[inline]
pub(crate) fn place_of(statement: usize) -> u32
    requires { is_of_32_bits statement ≡ true }
    ensures { result ≡ statement }
{
    statement as u32
}

/// The operation that gives a register the value of a term.
fn given(alloc: Global, to: u32, term: Term) -> Result<Operation, AllocError>
    ensures { IfOk result (λ operation. IsGiving to term operation) }
{
    match term {
        Term::Register(from) => Ok(Operation::Move { to, from }),
        Term::Element {
            first,
            bound,
            subscript,
        } => Ok(Operation::Load {
            to,
            first,
            bound,
            subscript,
        }),
        Term::Sum(left, right) => Ok(Operation::Add { to, left, right }),
        Term::Difference(left, right) => Ok(Operation::Subtract { to, left, right }),
        Term::Product(left, right) => Ok(Operation::Multiply { to, left, right }),
        _ => Ok(Operation::Set(to, Box::new(alloc, term)?)),
    }
}

/// The operation that goes to the place `then` if a term is true.
pub(crate) fn tested(alloc: Global, then: u32, term: Term) -> Result<Operation, AllocError>
    ensures { IfOk result (λ operation. IsTesting then term operation) }
{
    match term {
        Term::Compared(relation, left, right) => Ok(Operation::IfCompared {
            relation,
            left,
            right,
            then,
        }),
        Term::Related(relation, pair) => Ok(Operation::IfRelated(relation, then, pair)),
        _ => Ok(Operation::IfTrue(then, Box::new(alloc, term)?)),
    }
}

/// The places to which jumps go, in order.
fn targets(alloc: Global, jumps: &[Jump]) -> Result<Vec<u32>, AllocError>
    requires { list_all (λ jump. is_of_32_bits jump.target) jumps.now ≡ true }
    ensures { IfOk result (λ places. places.items ≡ map (λ jump. jump.target) jumps.now) }
{
    let mut places = Vec::with_capacity(alloc, jumps.len())?;
    for jump in jumps {
        places.push(place_of(jump.target))?;
    }
    Ok(places)
}

impl Constants {
    /// The operation that assigns a term to a variable or an array element.
    fn assignment(
        &mut self,
        alloc: Global,
        target: &Element,
        term: Term,
    ) -> Result<Operation, AllocError>
        requires { element_within self.old.slots target.now ≡ true }
        ensures assigns { IfOk result (λ operation. IsAssigning self.new target.now term operation) }
        ensures grown { GrowsPlan self.old self.new }
    {
        match target {
            Element::Variable(slot) => given(alloc, register_of(*slot, self.slots()), term),
            Element::Vector {
                first,
                bound,
                subscript,
            } => {
                let first = register_of(*first, self.slots());
                let subscript = self.number(alloc, subscript)?;
                Ok(Operation::SetElement {
                    first,
                    bound: *bound,
                    pair: paired(alloc, subscript, term)?,
                })
            }
            Element::Matrix {
                first,
                rows,
                columns,
                row,
                column,
            } => {
                let first = register_of(*first, self.slots());
                let row = self.number(alloc, row)?;
                let column = self.number(alloc, column)?;
                Ok(Operation::SetMatrix {
                    first,
                    rows: *rows,
                    columns: *columns,
                    pair: paired(alloc, row, column)?,
                    term: Box::new(alloc, term)?,
                })
            }
        }
    }

    /// The operation of a logical IF (11.5). If its action is a GO TO, it is a test of the condition.
    #[cycle(operations)]
    fn logical(
        &mut self,
        alloc: Global,
        condition: &Condition,
        action: &Action,
    ) -> Result<Operation, AllocError>
        requires condition { condition_within self.old.slots condition.now ≡ true }
        requires action { can_compile self.old.slots action.now ≡ true }
        ensures stands { IfOk result (λ operation. IsConditional self.new condition.now action.now operation) }
        ensures grown { GrowsPlan self.old self.new }
    {
        let term = self.condition(alloc, condition)?;
        if let Action::Goto(jump) = action {
            return tested(alloc, place_of(jump.target), term);
        }
        let inner = self.operation(alloc, action)?;
        Ok(Operation::When(Box::new(alloc, term)?, Box::new(alloc, inner)?))
    }

    /// The operation of an action that is no DO, block IF or ELSE IF.
    #[cycle(operations)]
    pub(crate) fn operation(
        &mut self,
        alloc: Global,
        action: &Action,
    ) -> Result<Operation, AllocError>
        requires { can_compile self.old.slots action.now ≡ true }
        ensures stands { IfOk result (λ operation. IsCompiled self.new action.now operation) }
        ensures grown { GrowsPlan self.old self.new }
    {
        match action {
            Action::AssignNumber(target, value) => {
                let term = self.number(alloc, value)?;
                self.assignment(alloc, target, term)
            }
            Action::AssignTruth(target, value) => {
                let term = self.condition(alloc, value)?;
                self.assignment(alloc, target, term)
            }
            Action::ComputedGoto { value, jumps } => Ok(Operation::Select(
                self.boxed(alloc, value)?,
                targets(alloc, jumps)?,
            )),
            Action::ArithmeticIf {
                value,
                negative,
                zero,
                positive,
            } => Ok(Operation::Sign {
                negative: place_of(negative.target),
                zero: place_of(zero.target),
                positive: place_of(positive.target),
                term: self.boxed(alloc, value)?,
            }),
            Action::LogicalIf { condition, action } => self.logical(alloc, condition, action),
            Action::Goto(jump) => Ok(Operation::Goto(place_of(jump.target))),
            Action::Declaration => Ok(Operation::Continue),
            Action::Continue => Ok(Operation::Continue),
            Action::Return => Ok(Operation::Return),
            Action::Stop => Ok(Operation::Stop),
            Action::Trap => Ok(Operation::Trap),
            Action::Branch { .. } | Action::Loop { .. } => unreachable!(),
        }
    }
}

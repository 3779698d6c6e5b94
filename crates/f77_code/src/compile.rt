//! Compiling expressions: their slots and constants become registers.

ghost use Rattle.std.specs.Prelude.{◌≡◌, ◌≤◌, true, IfOk, IfSome};
ghost use Rattle.f77_actions.specs.Encoded as meaning;
ghost use Rattle.f77_code.specs.{element_within, number_within, condition_within};
ghost use Rattle.f77_code.specs.code.{IsReadTerm, IsNumberTerm, IsTestTerm, IsVectorOf, IsMatrixOf, IsCalculationOf};
ghost use Rattle.f77_code.specs.code.{IsRelationOf, GrowsPlan};

use crate::constants::Constants;
use crate::term::{Pair, Term};
use f77_actions::{Arithmetic, Condition, Element, Number, Relation};
use std::alloc::{AllocError, Global};

/// A truth value as a number: 1 or 0.
fn truth(value: bool) -> i32
    ensures { result ≡ meaning.truth_number value }
{
    if value { 1 } else { 0 }
}

/// The register of a slot, or of the first slot of an array.
#[inline]
pub(crate) fn register_of(slot: usize, slots: u32) -> u32
    requires { slot ≤ slots }
    ensures { result ≡ slot }
{
    slot as u32
}

/// Puts two terms in one box.
pub(crate) fn paired(alloc: Global, left: Term, right: Term) -> Result<Box<Pair>, AllocError>
    ensures left { IfOk result (λ pair. pair.value.left ≡ left) }
    ensures right { IfOk result (λ pair. pair.value.right ≡ right) }
{
    Ok(Box::new(alloc, Pair { left, right })?)
}

/// An element of an array of one dimension. It needs no box where its subscript is a register.
fn vector(alloc: Global, first: u32, bound: u32, subscript: Term) -> Result<Term, AllocError>
    ensures { IfOk result (λ term. IsVectorOf first bound subscript term) }
{
    match &subscript {
        Term::Register(subscript) => Ok(Term::Element {
            first,
            bound,
            subscript: *subscript,
        }),
        _ => Ok(Term::Vector {
            first,
            bound,
            subscript: Box::new(alloc, subscript)?,
        }),
    }
}

/// An element of an array of two dimensions. It needs no box where its row and its column are registers.
fn matrix(
    alloc: Global,
    first: u32,
    rows: u32,
    columns: u32,
    row: Term,
    column: Term,
) -> Result<Term, AllocError>
    ensures { IfOk result (λ term. IsMatrixOf first rows columns row column term) }
{
    match (&row, &column) {
        (Term::Register(row), Term::Register(column)) => Ok(Term::MatrixAt {
            first,
            rows,
            columns,
            row: *row,
            column: *column,
        }),
        _ => Ok(Term::Matrix {
            first,
            rows,
            columns,
            pair: paired(alloc, row, column)?,
        }),
    }
}

/// An operation on two registers, if there is a form for it.
fn calculated_at(operation: Arithmetic, left: u32, right: u32) -> Option<Term>
    ensures { IfSome result (λ term. IsCalculationOf operation (Term.Register left) (Term.Register right) term) }
{
    match operation {
        Arithmetic::Add => Some(Term::Sum(left, right)),
        Arithmetic::Subtract => Some(Term::Difference(left, right)),
        Arithmetic::Multiply => Some(Term::Product(left, right)),
        _ => None,
    }
}

/// An operation on two numbers.
fn calculated(
    alloc: Global,
    operation: Arithmetic,
    left: Term,
    right: Term,
) -> Result<Term, AllocError>
    ensures { IfOk result (λ term. IsCalculationOf operation left right term) }
{
    if let (Term::Register(left), Term::Register(right)) = (&left, &right)
        && let Some(term) = calculated_at(operation, *left, *right)
    {
        return Ok(term);
    }
    let pair = paired(alloc, left, right)?;
    Ok(match operation {
        Arithmetic::Add => Term::Add(pair),
        Arithmetic::Subtract => Term::Subtract(pair),
        Arithmetic::Multiply => Term::Multiply(pair),
        _ => Term::Calculated(operation, pair),
    })
}

/// A relation of two numbers. It has a form without operands to evaluate where both are registers.
fn related(alloc: Global, relation: Relation, left: Term, right: Term) -> Result<Term, AllocError>
    ensures { IfOk result (λ term. IsRelationOf relation left right term) }
{
    match (&left, &right) {
        (Term::Register(left), Term::Register(right)) => Ok(Term::Compared(
            relation, *left, *right,
        )),
        _ => Ok(Term::Related(relation, paired(alloc, left, right)?)),
    }
}

impl Constants {
    /// The term of a variable or an array element.
    #[cycle(numbers)]
    pub(crate) fn element(&mut self, alloc: Global, element: &Element) -> Result<Term, AllocError>
        requires { element_within self.old.slots element.now ≡ true }
        ensures reads { IfOk result (λ term. IsReadTerm self.new element.now term) }
        ensures grown { GrowsPlan self.old self.new }
    {
        match element {
            Element::Variable(slot) => Ok(Term::Register(register_of(*slot, self.slots()))),
            Element::Vector {
                first,
                bound,
                subscript,
            } => {
                let first = register_of(*first, self.slots());
                let subscript = self.number(alloc, subscript)?;
                vector(alloc, first, *bound, subscript)
            }
            Element::Matrix {
                first,
                rows,
                columns,
                row,
                column,
            } => {
                let first = register_of(*first, self.slots());
                let row = self.number(alloc, row)?;
                let column = self.number(alloc, column)?;
                matrix(alloc, first, *rows, *columns, row, column)
            }
        }
    }

    /// The term of an INTEGER expression.
    #[cycle(numbers)]
    pub(crate) fn number(&mut self, alloc: Global, number: &Number) -> Result<Term, AllocError>
        requires { number_within self.old.slots number.now ≡ true }
        ensures stands { IfOk result (λ term. IsNumberTerm self.new number.now term) }
        ensures grown { GrowsPlan self.old self.new }
    {
        match number {
            Number::Constant(value) => Ok(Term::Register(self.register(*value)?)),
            Number::TooLarge => Ok(Term::TooLarge),
            Number::Element(element) => self.element(alloc, element),
            Number::Negated(operand) => Ok(Term::Negated(self.boxed(alloc, operand)?)),
            Number::Absolute(operand) => Ok(Term::Absolute(self.boxed(alloc, operand)?)),
            Number::ZeroPush(operand) => Ok(Term::ZeroPush(self.boxed(alloc, operand)?)),
            Number::Binary(operation, left, right) => {
                let left = self.number(alloc, left)?;
                let right = self.number(alloc, right)?;
                calculated(alloc, *operation, left, right)
            }
        }
    }

    /// The term of an INTEGER expression, on the heap.
    #[cycle(numbers)]
    pub(crate) fn boxed(&mut self, alloc: Global, number: &Number) -> Result<Box<Term>, AllocError>
        requires { number_within self.old.slots number.now ≡ true }
        ensures stands { IfOk result (λ term. IsNumberTerm self.new number.now term.value) }
        ensures grown { GrowsPlan self.old self.new }
    {
        Ok(Box::new(alloc, self.number(alloc, number)?)?)
    }

    /// The term of a LOGICAL expression. Its value is 0 or 1.
    pub(crate) fn condition(
        &mut self,
        alloc: Global,
        condition: &Condition,
    ) -> Result<Term, AllocError>
        requires { condition_within self.old.slots condition.now ≡ true }
        ensures tests { IfOk result (λ term. IsTestTerm self.new condition.now term) }
        ensures grown { GrowsPlan self.old self.new }
    {
        match condition {
            Condition::Constant(value) => Ok(Term::Register(self.register(truth(*value))?)),
            Condition::Element(element) => self.element(alloc, element),
            Condition::Not(operand) => Ok(Term::Not(Box::new(
                alloc,
                self.condition(alloc, operand)?,
            )?)),
            Condition::Related(relation, left, right) => {
                let left = self.number(alloc, left)?;
                let right = self.number(alloc, right)?;
                related(alloc, *relation, left, right)
            }
            Condition::Connected(connective, left, right) => {
                let left = self.condition(alloc, left)?;
                let right = self.condition(alloc, right)?;
                Ok(Term::Connected(*connective, paired(alloc, left, right)?))
            }
        }
    }
}

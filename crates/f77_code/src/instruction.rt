//! Instructions over registers. A place is the number of an instruction: those of statements come first, then one for
//! the incrementation of each DO.

use crate::term::{Pair, Term};
use f77_actions::Relation;

/// What an instruction does.
#[derive(Drop)]
pub enum Operation {
    /// Gives a register the value of a term (10.1, 10.2).
    Set(u32, Box<Term>),
    /// Gives a value to an element of an array of one dimension. The pair is its subscript and the value.
    SetElement {
        first: u32,
        bound: u32,
        pair: Box<Pair>,
    },
    /// Gives the value of `term` to an element of an array of two dimensions. The pair is its row and its column.
    SetMatrix {
        first: u32,
        rows: u32,
        columns: u32,
        pair: Box<Pair>,
        term: Box<Term>,
    },
    /// Goes to the place if the term is true (11.5 to 11.7).
    IfTrue(u32, Box<Term>),
    /// Goes to the place if the relation holds.
    IfRelated(Relation, u32, Box<Pair>),
    /// `IfRelated` of two registers.
    IfCompared {
        relation: Relation,
        left: u32,
        right: u32,
        then: u32,
    },
    /// Begins a DO: goes to `body` if the DO has a pass to make (11.10.3).
    Do {
        variable: u32,
        counter: u32,
        body: u32,
        parameters: Box<Parameters>,
    },
    /// `Do` with three registers as parameters. Mutants that count without end often come to a DO without a pass, so
    /// this form is worth while.
    Count {
        variable: u32,
        counter: u32,
        body: u32,
        first: u32,
        last: u32,
        step: u32,
    },
    /// Increments a DO: goes to `body` if the DO has another pass to make (11.10.7).
    Next {
        variable: u32,
        counter: u32,
        body: u32,
    },
    /// Goes to one of three places, by the sign of a number (11.4).
    Sign {
        negative: u32,
        zero: u32,
        positive: u32,
        term: Box<Term>,
    },
    /// Goes to the place with this number, counted from 1, if there is one (11.2).
    Select(Box<Term>, Vec<u32>),
    /// Does another operation if the term is true (11.5).
    When(Box<Term>, Box<Operation>),
    /// Goes on.
    Continue,
    /// Goes to the place (11.1).
    Goto(u32),
    /// RETURN, or END (11.14, 15.8).
    Return,
    /// STOP (11.12).
    Stop,
    /// TRAP, which only mutants have in place of a statement: the run is Trapped.
    Trap,
    /// `Set` with a register.
    Move {
        to: u32,
        from: u32,
    },
    /// `Set` with a sum of registers.
    Add {
        to: u32,
        left: u32,
        right: u32,
    },
    /// `Set` with a difference of registers.
    Subtract {
        to: u32,
        left: u32,
        right: u32,
    },
    /// `Set` with a product of registers.
    Multiply {
        to: u32,
        left: u32,
        right: u32,
    },
    /// `Set` with an element whose subscript is in a register.
    Load {
        to: u32,
        first: u32,
        bound: u32,
        subscript: u32,
    },
}

/// The parameters of a DO, in the order in which they are evaluated (11.10.3).
#[derive(Drop)]
pub struct Parameters {
    pub first: Term,
    pub last: Term,
    pub step: Term,
}

/// An instruction, and the place to which control goes on from it.
#[derive(Drop)]
pub struct Instruction {
    pub operation: Operation,
    pub next: u32,
}

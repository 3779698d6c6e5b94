//! Expressions with their names looked up.
//!
//! INTEGER and LOGICAL expressions are two types, and their operators three, so a run does not ask again what the check
//! has settled. A sign `+` leaves no trace.

ghost use Rattle.std.specs.Prelude.{◌≡◌};
ghost use Rattle.f77_actions.specs.{arithmetic_of, relation_of, connective_of};

use f77_tree::Operator;

/// An operation on two numbers.
#[derive(Clone, Copy, Debug, PartialEq, Eq)]
pub enum Arithmetic {
    /// `+` (6.1).
    Add,
    /// `-` between its operands (6.1).
    Subtract,
    /// `*` (6.1).
    Multiply,
    /// `/`, truncated toward zero (6.1.5).
    Divide,
    /// `**` (6.1).
    Power,
    /// MOD (15.10).
    Modulus,
    /// MIN0 (15.10).
    Least,
    /// MAX0 (15.10).
    Greatest,
}

/// A relational operator (6.3).
#[derive(Clone, Copy, Debug, PartialEq, Eq)]
pub enum Relation {
    /// `.LT.`
    Less,
    /// `.LE.`
    LessOrEqual,
    /// `.EQ.`
    Equal,
    /// `.NE.`
    NotEqual,
    /// `.GE.`
    GreaterOrEqual,
    /// `.GT.`
    Greater,
}

/// A logical operator on two truth values (6.4).
#[derive(Clone, Copy, Debug, PartialEq, Eq)]
pub enum Connective {
    /// `.AND.`
    And,
    /// `.OR.`
    Or,
    /// `.EQV.`
    Equivalent,
    /// `.NEQV.`
    NotEquivalent,
}

/// A variable or an array element. Slots are numbered from 0.
#[cycle(resolved)]
#[derive(Drop)]
pub enum Element {
    /// A variable, in this slot.
    Variable(usize),
    /// An element of an array of one dimension, whose first element is in the slot `first`.
    Vector {
        first: usize,
        bound: u32,
        subscript: Box<Number>,
    },
    /// An element of an array of two dimensions, whose first element is in the slot `first`.
    Matrix {
        first: usize,
        rows: u32,
        columns: u32,
        row: Box<Number>,
        column: Box<Number>,
    },
}

/// An INTEGER expression (6.1).
#[cycle(resolved)]
#[derive(Drop)]
pub enum Number {
    /// A constant.
    Constant(i32),
    /// A constant above 2147483647: its value is Overflow. No program that was read has one, only one that was made of
    /// lines (`Program::of`).
    TooLarge,
    /// The value of a variable or an array element.
    Element(Element),
    /// A minus before its operand.
    Negated(Box<Number>),
    /// IABS (15.10).
    Absolute(Box<Number>),
    /// ZPUSH(e), which only mutants have: the value of e, but Trapped where that is 0.
    ZeroPush(Box<Number>),
    /// An operation on two numbers. The left one is evaluated first.
    Binary(Arithmetic, Box<Number>, Box<Number>),
}

/// A LOGICAL expression (6.4).
#[derive(Drop)]
pub enum Condition {
    /// A constant.
    Constant(bool),
    /// The value of a variable or an array element.
    Element(Element),
    /// `.NOT.` before its operand.
    Not(Box<Condition>),
    /// A relation of two numbers. The left one is evaluated first.
    Related(Relation, Number, Number),
    /// A logical operator on two truth values. Both are evaluated, the left one first.
    Connected(Connective, Box<Condition>, Box<Condition>),
}

impl Arithmetic {
    /// The operation of an arithmetic operator (6.1).
    pub fn of(operator: Operator) -> Option<Arithmetic>
        ensures { result ≡ arithmetic_of operator }
    {
        match operator {
            Operator::Add => Some(Arithmetic::Add),
            Operator::Subtract => Some(Arithmetic::Subtract),
            Operator::Multiply => Some(Arithmetic::Multiply),
            Operator::Divide => Some(Arithmetic::Divide),
            Operator::Power => Some(Arithmetic::Power),
            Operator::Equivalent
            | Operator::NotEquivalent
            | Operator::Or
            | Operator::And
            | Operator::Less
            | Operator::LessOrEqual
            | Operator::Equal
            | Operator::NotEqual
            | Operator::GreaterOrEqual
            | Operator::Greater => None,
        }
    }
}

impl Relation {
    /// The relation of a relational operator (6.3).
    pub fn of(operator: Operator) -> Option<Relation>
        ensures { result ≡ relation_of operator }
    {
        match operator {
            Operator::Less => Some(Relation::Less),
            Operator::LessOrEqual => Some(Relation::LessOrEqual),
            Operator::Equal => Some(Relation::Equal),
            Operator::NotEqual => Some(Relation::NotEqual),
            Operator::GreaterOrEqual => Some(Relation::GreaterOrEqual),
            Operator::Greater => Some(Relation::Greater),
            Operator::Equivalent
            | Operator::NotEquivalent
            | Operator::Or
            | Operator::And
            | Operator::Add
            | Operator::Subtract
            | Operator::Multiply
            | Operator::Divide
            | Operator::Power => None,
        }
    }
}

impl Connective {
    /// The connective of a logical operator (6.4).
    pub fn of(operator: Operator) -> Option<Connective>
        ensures { result ≡ connective_of operator }
    {
        match operator {
            Operator::And => Some(Connective::And),
            Operator::Or => Some(Connective::Or),
            Operator::Equivalent => Some(Connective::Equivalent),
            Operator::NotEquivalent => Some(Connective::NotEquivalent),
            Operator::Less
            | Operator::LessOrEqual
            | Operator::Equal
            | Operator::NotEqual
            | Operator::GreaterOrEqual
            | Operator::Greater
            | Operator::Add
            | Operator::Subtract
            | Operator::Multiply
            | Operator::Divide
            | Operator::Power => None,
        }
    }
}

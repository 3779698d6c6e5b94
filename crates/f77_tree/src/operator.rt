//! The operators between two operands, and the signs.

ghost use Rattle.std.specs.Prelude.{◌≡◌, ◌&&◌, nat_le};
ghost use Rattle.f77_tree.specs.Operator as levels;

/// An operator between two operands.
#[derive(Clone, Copy, Debug, PartialEq, Eq)]
pub enum Operator {
    Equivalent,
    NotEquivalent,
    Or,
    And,
    Less,
    LessOrEqual,
    Equal,
    NotEqual,
    GreaterOrEqual,
    Greater,
    Add,
    Subtract,
    Multiply,
    Divide,
    Power,
}

/// A sign before its operand.
#[derive(Clone, Copy, Debug, PartialEq, Eq)]
pub enum Sign {
    Plus,
    Minus,
}

impl Operator {
    /// The text of the operator, such as `.EQV.` or `**`.
    pub fn symbol(self) -> &'static str
        ensures { result.now ≡ levels.symbol self }
    {
        match self {
            Operator::Equivalent => ".EQV.",
            Operator::NotEquivalent => ".NEQV.",
            Operator::Or => ".OR.",
            Operator::And => ".AND.",
            Operator::Less => ".LT.",
            Operator::LessOrEqual => ".LE.",
            Operator::Equal => ".EQ.",
            Operator::NotEqual => ".NE.",
            Operator::GreaterOrEqual => ".GE.",
            Operator::Greater => ".GT.",
            Operator::Add => "+",
            Operator::Subtract => "-",
            Operator::Multiply => "*",
            Operator::Divide => "/",
            Operator::Power => "**",
        }
    }

    /// The level of an expression with this operator, from 1 for what binds loosest to 8 for `**`.
    pub fn level(self) -> u8
        ensures { result ≡ levels.level self }
    {
        match self {
            Operator::Equivalent | Operator::NotEquivalent => 1,
            Operator::Or => 2,
            Operator::And => 3,
            Operator::Less
            | Operator::LessOrEqual
            | Operator::Equal
            | Operator::NotEqual
            | Operator::GreaterOrEqual
            | Operator::Greater => 5,
            Operator::Add | Operator::Subtract => 6,
            Operator::Multiply | Operator::Divide => 7,
            Operator::Power => 8,
        }
    }

    /// The lowest level that its left operand may have.
    pub fn left_level(self) -> u8
        ensures { result ≡ levels.left_level self }
    {
        match self {
            Operator::Less
            | Operator::LessOrEqual
            | Operator::Equal
            | Operator::NotEqual
            | Operator::GreaterOrEqual
            | Operator::Greater => 6,
            Operator::Power => 9,
            _ => self.level(),
        }
    }

    /// The lowest level that its right operand may have.
    pub fn right_level(self) -> u8
        ensures { result ≡ levels.right_level self }
    {
        match self {
            Operator::Power => 8,
            _ => self.level() + 1,
        }
    }

    /// Whether this operator may follow an operand of level `own`, where an expression of level `wanted` or higher is
    /// read.
    pub fn goes_on(self, own: u8, wanted: u8) -> bool
        ensures { result ≡ (nat_le wanted (levels.level self) && nat_le (levels.left_level self) own) }
    {
        wanted <= self.level() && self.left_level() <= own
    }
}

impl Sign {
    /// The character of the sign.
    pub fn symbol(self) -> u8
        ensures { result ≡ levels.sign_symbol self }
    {
        match self {
            Sign::Plus => b'+',
            Sign::Minus => b'-',
        }
    }
}

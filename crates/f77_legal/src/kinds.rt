//! The kinds of the operands and results of operators. A place requires one kind, so kinds are
//! asked from the top of an expression, and nothing is inferred.

ghost use Rattle.std.specs.Prelude.{◌≡◌};
ghost use Rattle.f77_legal.specs.Kinds as kinds;

use f77_tree::{Kind, Operator};

/// The kind of the result of an operator (ANSI X3.9-1978, 6.1, 6.3 and 6.4).
pub fn result_kind(operator: Operator) -> Kind
    ensures { result ≡ kinds.result_kind operator }
{
    match operator {
        Operator::Add
        | Operator::Subtract
        | Operator::Multiply
        | Operator::Divide
        | Operator::Power => Kind::Integer,
        _ => Kind::Logical,
    }
}

/// The kind of the operands of an operator.
pub(crate) fn operand_kind(operator: Operator) -> Kind
    ensures { result ≡ kinds.operand_kind operator }
{
    match operator {
        Operator::Equivalent | Operator::NotEquivalent | Operator::Or | Operator::And =>
            Kind::Logical,
        _ => Kind::Integer,
    }
}

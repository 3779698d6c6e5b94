//! Operators on numbers that stand for values or faults (ANSI X3.9-1978, 6.1, 6.3 and 6.4).

ghost use Rattle.std.specs.Prelude.{◌≡◌, ℤ, Result, Ok};
ghost use Rattle.f77_actions.specs.declared.finish.Fault.{Fault};
ghost use Rattle.f77_code.specs.Evaluation as meaning;
ghost use Rattle.f77_code.specs.Term as terms;
ghost use Rattle.f77_actions.specs.Encoded.{Encodes, IsValueOrFault};
ghost use Rattle.f77_actions.specs.Value.{both};

use f77_actions::{Arithmetic, Connective, Relation, encoded};

#[inline(always)]
pub(crate) fn calculated(operation: Arithmetic, x: i64, y: i64) -> i64
    requires x { IsValueOrFault x }
    requires y { IsValueOrFault y }
    ensures { (r q : Result ℤ Fault)
        → Encodes x r → Encodes y q → Encodes result (both (meaning.calculated operation) r q) }
{
    match operation {
        Arithmetic::Add => encoded::sum(x, y),
        Arithmetic::Subtract => encoded::difference(x, y),
        Arithmetic::Multiply => encoded::product(x, y),
        Arithmetic::Divide => encoded::quotient(x, y),
        Arithmetic::Power => encoded::power(x, y),
        Arithmetic::Modulus => encoded::modulus(x, y),
        Arithmetic::Least => encoded::lesser(x, y),
        Arithmetic::Greatest => encoded::greater(x, y),
    }
}

#[inline(always)]
fn holds(relation: Relation, x: i64, y: i64) -> bool
    ensures { result ≡ meaning.compared relation x y }
{
    match relation {
        Relation::Less => x < y,
        Relation::LessOrEqual => x <= y,
        Relation::Equal => x == y,
        Relation::NotEqual => x != y,
        Relation::GreaterOrEqual => x >= y,
        Relation::Greater => x > y,
    }
}

#[inline(always)]
pub(crate) fn compared(relation: Relation, x: i64, y: i64) -> i64
    ensures { (r q : Result ℤ Fault)
        → Encodes x r → Encodes y q → Encodes result (both (terms.related_number relation) r q) }
{
    encoded::settled(x, y, encoded::truth(holds(relation, x, y)))
}

#[inline(always)]
fn joined(connective: Connective, x: i64, y: i64) -> i64
    ensures { terms.connected_number connective x y ≡ Ok result }
{
    match connective {
        Connective::And => if x == 0 { x } else { y },
        Connective::Or => if x == 0 { y } else { x },
        Connective::Equivalent => encoded::truth(x == y),
        Connective::NotEquivalent => encoded::truth(x != y),
    }
}

/// A logical operator on truth values, as numbers.
#[inline(always)]
pub(crate) fn connected(connective: Connective, x: i64, y: i64) -> i64
    requires x { IsValueOrFault x }
    requires y { IsValueOrFault y }
    ensures { (r q : Result ℤ Fault)
        → Encodes x r → Encodes y q → Encodes result (both (terms.connected_number connective) r q) }
{
    encoded::settled(x, y, joined(connective, x, y))
}

//! What operators put in the place of an expression: an operand, another operator, another constant, a sign or an
//! absolute value.

ghost use Rattle.std.specs.Prelude.{◌≡◌, ◌++◌, not, map, IfOk, OnOk};
ghost use Rattle.f77_tree.specs.Comparing.{same_operator};
ghost use Rattle.f77_tree.specs.Tree.{Tree};
ghost use Rattle.f77_tree.specs.View.{tree_of};
ghost use Rattle.f77_tree.specs.declared.operator.Sign.TheVariants.{Minus};
ghost use Rattle.f77_legal.specs.NameTable.{kind_at};
ghost use Rattle.mothra_replacements.specs.Replacements as model;
ghost use Rattle.mothra_replacements.specs.{pool_fields, operands, other_operations, truths};

use crate::operands::{Operand, comparable, drawn, is_operand, kind_in};
use crate::pools::Pools;
use f77_legal::Names;
use f77_tree::{Expr, Intrinsic, Kind, LARGEST_INTEGER, Operator, Sign};
use mothra_codes::Op;
use std::alloc::{AllocError, Global};

const ARITHMETIC: &[Operator] = &[
    Operator::Add,
    Operator::Subtract,
    Operator::Multiply,
    Operator::Divide,
    Operator::Power,
];

const RELATIONS: &[Operator] = &[
    Operator::Less,
    Operator::LessOrEqual,
    Operator::Equal,
    Operator::NotEqual,
    Operator::GreaterOrEqual,
    Operator::Greater,
];

const CONNECTORS: &[Operator] = &[
    Operator::And,
    Operator::Or,
    Operator::Equivalent,
    Operator::NotEquivalent,
];

/// The operator between copies of two operands.
fn between(alloc: Global, operator: Operator, left: &Expr, right: &Expr) -> Result<Expr, AllocError>
    ensures { IfOk result (λ made. tree_of made ≡ Tree.Binary operator (tree_of left.now) (tree_of right.now)) }
{
    let left = Box::new(alloc, left.clone()?)?;
    let right = Box::new(alloc, right.clone()?)?;
    Ok(Expr::Binary(operator, left, right))
}

fn is_another(operator: Operator, other: Operator) -> bool
    ensures { result ≡ not (same_operator operator other) }
{
    operator != other
}

/// The operation with each other operator of the group, in the order of the group.
fn other_operations(
    alloc: Global,
    group: &[Operator],
    operator: Operator,
    left: &Expr,
    right: &Expr,
) -> Result<Vec<Expr>, AllocError>
    ensures { IfOk result (λ list. map tree_of list.items
        ≡ other_operations group.now operator (tree_of left.now) (tree_of right.now)) }
{
    let mut list = Vec::new(alloc);
    for other in group {
        if is_another(*other, operator) {
            list.push(between(alloc, *other, left, right)?)?;
        }
    }
    Ok(list)
}

/// Adds copies of the two operands to the end of the list.
fn add_operands(list: &mut Vec<Expr>, left: &Expr, right: &Expr) -> Result<(), AllocError>
    ensures { OnOk result (map tree_of list.new.items
        ≡ map tree_of list.old.items ++ operands (tree_of left.now) (tree_of right.now)) }
{
    list.push(left.clone()?)?;
    list.push(right.clone()?)?;
    Ok(())
}

/// Adds `.TRUE.` and `.FALSE.` to the end of the list.
fn add_truths(list: &mut Vec<Expr>) -> Result<(), AllocError>
    ensures { OnOk result (map tree_of list.new.items ≡ map tree_of list.old.items ++ truths) }
{
    list.push(Expr::Truth(true))?;
    list.push(Expr::Truth(false))?;
    Ok(())
}

/// AOR: the operation with each other arithmetic operator, then each operand alone.
fn arithmetic(alloc: Global, expr: &Expr) -> Result<Vec<Expr>, AllocError>
    ensures { IfOk result
        (λ list. map tree_of list.items ≡ model.with_group model.arithmetic_operators operands (tree_of expr.now)) }
{
    match expr {
        Expr::Binary(operator, left, right) if ARITHMETIC.contains(operator) => {
            let mut list = other_operations(alloc, ARITHMETIC, *operator, left, right)?;
            add_operands(&mut list, left, right)?;
            Ok(list)
        }
        _ => Ok(Vec::new(alloc)),
    }
}

/// ROR: the comparison with each other relational operator, then `.TRUE.` and `.FALSE.`.
fn relational(alloc: Global, expr: &Expr) -> Result<Vec<Expr>, AllocError>
    ensures { IfOk result
        (λ list. map tree_of list.items ≡ model.with_group model.relations (λ a b. truths) (tree_of expr.now)) }
{
    match expr {
        Expr::Binary(operator, left, right) if RELATIONS.contains(operator) => {
            let mut list = other_operations(alloc, RELATIONS, *operator, left, right)?;
            add_truths(&mut list)?;
            Ok(list)
        }
        _ => Ok(Vec::new(alloc)),
    }
}

/// LCR: the expression with each other logical connector, then each operand alone, then `.TRUE.` and `.FALSE.`.
fn logical(alloc: Global, expr: &Expr) -> Result<Vec<Expr>, AllocError>
    ensures { IfOk result (λ list. map tree_of list.items
        ≡ model.with_group model.connectors (λ a b. operands a b ++ truths) (tree_of expr.now)) }
{
    match expr {
        Expr::Binary(operator, left, right) if CONNECTORS.contains(operator) => {
            let mut list = other_operations(alloc, CONNECTORS, *operator, left, right)?;
            add_operands(&mut list, left, right)?;
            add_truths(&mut list)?;
            Ok(list)
        }
        _ => Ok(Vec::new(alloc)),
    }
}

/// A minus sign before an expression.
fn negated(alloc: Global, expr: Expr) -> Result<Expr, AllocError>
    ensures { IfOk result (λ made. tree_of made ≡ Tree.Signed Minus (tree_of expr)) }
{
    Ok(Expr::Signed(Sign::Minus, Box::new(alloc, expr)?))
}

/// Adds the number less one to the end of the list, unless that is above the largest INTEGER. Less than 0 is -1: a
/// sign before the constant 1.
fn add_lowered(alloc: Global, list: &mut Vec<Expr>, number: u32) -> Result<(), AllocError>
    ensures { OnOk result (map tree_of list.new.items ≡ map tree_of list.old.items ++ model.lowered number) }
{
    if number == 0 {
        list.push(negated(alloc, Expr::Number(1))?)?;
    } else if number - 1 <= LARGEST_INTEGER {
        list.push(Expr::Number(number - 1))?;
    }
    Ok(())
}

/// CRP: a number plus one and less one, where these are not above the largest INTEGER; the other truth value.
fn altered(alloc: Global, expr: &Expr) -> Result<Vec<Expr>, AllocError>
    ensures { IfOk result (λ list. map tree_of list.items ≡ model.altered (tree_of expr.now)) }
{
    let mut list = Vec::new(alloc);
    match expr {
        Expr::Number(number) => {
            if *number < LARGEST_INTEGER {
                list.push(Expr::Number(*number + 1))?;
            }
            add_lowered(alloc, &mut list, *number)?;
        }
        Expr::Truth(truth) => list.push(Expr::Truth(!*truth))?,
        _ => {}
    }
    Ok(list)
}

/// IABS of a copy of the expression (ANSI X3.9-1978, table 5).
fn absolute_value(alloc: Global, expr: &Expr) -> Result<Expr, AllocError>
    ensures { IfOk result (λ made. tree_of made ≡ model.absolute_value (tree_of expr.now)) }
{
    let arguments = vec![in alloc; expr.clone()?]?;
    Ok(Expr::Call(Intrinsic::Iabs, arguments))
}

/// ABS, of an INTEGER expression that is no constant: the absolute value, its negative, and ZPUSH, which fails where
/// the value is zero.
fn absolute(alloc: Global, names: &Names, expr: &Expr) -> Result<Vec<Expr>, AllocError>
    ensures { IfOk result (λ list. map tree_of list.items ≡ model.absolute (kind_at names.now) (tree_of expr.now)) }
{
    let mut list = Vec::new(alloc);
    if is_operand(Operand::Constant, expr) || kind_in(names, expr) != Kind::Integer {
        return Ok(list);
    }
    list.push(absolute_value(alloc, expr)?)?;
    list.push(negated(alloc, absolute_value(alloc, expr)?)?)?;
    list.push(Expr::ZeroPush(Box::new(alloc, expr.clone()?)?))?;
    Ok(list)
}

/// UOI, of an expression that is no constant: an INTEGER one with a minus sign, plus 1 and minus 1; a LOGICAL one with
/// `.NOT.`.
fn with_unary(alloc: Global, names: &Names, expr: &Expr) -> Result<Vec<Expr>, AllocError>
    ensures { IfOk result (λ list. map tree_of list.items ≡ model.with_unary (kind_at names.now) (tree_of expr.now)) }
{
    let mut list = Vec::new(alloc);
    if is_operand(Operand::Constant, expr) {
        return Ok(list);
    }
    match kind_in(names, expr) {
        Kind::Integer => {
            let one = Expr::Number(1);
            list.push(negated(alloc, expr.clone()?)?)?;
            list.push(between(alloc, Operator::Add, expr, &one)?)?;
            list.push(between(alloc, Operator::Subtract, expr, &one)?)?;
        }
        Kind::Logical => list.push(Expr::Not(Box::new(alloc, expr.clone()?)?))?,
    }
    Ok(list)
}

/// What the operator puts in the place of the expression, in the order of `replacements`.
pub(crate) fn in_expression(
    alloc: Global,
    op: Op,
    pools: &Pools,
    expr: &Expr,
) -> Result<Vec<Expr>, AllocError>
    ensures { IfOk result
        (λ list. map tree_of list.items ≡ model.in_expression op (pool_fields pools.now) (tree_of expr.now)) }
{
    use Operand::{ArrayReference, Constant, Scalar};
    match op {
        Op::Aar => drawn(alloc, pools, ArrayReference, ArrayReference, expr),
        Op::Abs => absolute(alloc, &pools.names, expr),
        Op::Acr => drawn(alloc, pools, ArrayReference, Constant, expr),
        Op::Aor => arithmetic(alloc, expr),
        Op::Asr => drawn(alloc, pools, ArrayReference, Scalar, expr),
        Op::Car => drawn(alloc, pools, Constant, ArrayReference, expr),
        Op::Cnr => comparable(alloc, pools, expr),
        Op::Crp => altered(alloc, expr),
        Op::Csr => drawn(alloc, pools, Constant, Scalar, expr),
        Op::Lcr => logical(alloc, expr),
        Op::Ror => relational(alloc, expr),
        Op::Sar => drawn(alloc, pools, Scalar, ArrayReference, expr),
        Op::Scr => drawn(alloc, pools, Scalar, Constant, expr),
        Op::Src => drawn(alloc, pools, Constant, Constant, expr),
        Op::Svr => drawn(alloc, pools, Scalar, Scalar, expr),
        Op::Uoi => with_unary(alloc, &pools.names, expr),
        Op::Der | Op::Dsa | Op::Glr | Op::Rsr | Op::San | Op::Sdl => Ok(Vec::new(alloc)),
    }
}

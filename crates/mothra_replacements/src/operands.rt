//! Operands: constants, scalars and array references, one of which an operator puts in the place of another.

ghost use Rattle.std.specs.Prelude.{◌≡◌, ◌&&◌, not, map, IfOk};
ghost use Rattle.f77_tree.specs.Comparing.{same_tree, same_kind};
ghost use Rattle.f77_tree.specs.Tree.{Tree};
ghost use Rattle.f77_tree.specs.View.{tree_of, reference_fields, trees};
ghost use Rattle.f77_legal.specs.NameTable.{kind_at};
ghost use Rattle.mothra_replacements.specs.Pools as drawing;
ghost use Rattle.mothra_replacements.specs.Replacements as model;
ghost use Rattle.mothra_replacements.specs.{pool_fields, kind_of_expression};

use crate::pools::Pools;
use f77_legal::{Names, result_kind};
use f77_tree::{Expr, Kind, Name, Ref};
use std::alloc::{AllocError, Global};

/// The sorts of operand of which a program has a pool.
#[derive(Clone, Copy, PartialEq, Eq)]
pub enum Operand {
    ArrayReference,
    Constant,
    Scalar,
}

/// A name as an operand.
pub(crate) fn scalar(alloc: Global, name: Name) -> Expr
    ensures { tree_of result ≡ drawing.scalar name }
{
    Expr::Reference(Ref {
        name,
        subscripts: Vec::new(alloc),
    })
}

/// Whether a reference has subscripts, as an array reference has.
#[tactic(auto, using(crate::proofs::Elements::with_some, crate::proofs::Elements::with_none))]
pub(crate) fn has_subscripts(place: &Ref) -> bool
    ensures { result ≡ drawing.are_some (trees (reference_fields place.now).1) }
{
    match place.subscripts.as_slice() {
        [] => false,
        [_, ..] => true,
    }
}

/// Whether a reference is an operand of this sort.
pub(crate) fn is_reference(sort: Operand, place: &Ref) -> bool
    ensures { result ≡ drawing.is_operand sort
        (Tree.Reference (reference_fields place.now).0 (trees (reference_fields place.now).1)) }
{
    match sort {
        Operand::ArrayReference => has_subscripts(place),
        Operand::Constant => false,
        Operand::Scalar => !has_subscripts(place),
    }
}

/// Whether the expression is an operand of this sort.
pub(crate) fn is_operand(sort: Operand, expr: &Expr) -> bool
    ensures { result ≡ drawing.is_operand sort (tree_of expr.now) }
{
    match expr {
        Expr::Number(_) | Expr::Truth(_) => matches!(sort, Operand::Constant),
        Expr::Reference(place) => is_reference(sort, place),
        _ => false,
    }
}

/// The kind of an expression (ANSI X3.9-1978, 6.1, 6.3 and 6.4).
pub(crate) fn kind_in(names: &Names, expr: &Expr) -> Kind
    ensures { result ≡ kind_of_expression (kind_at names.now) (tree_of expr.now) }
{
    match expr {
        Expr::Reference(place) => names.kind(&place.name),
        Expr::Truth(_) | Expr::Not(_) => Kind::Logical,
        Expr::Binary(operator, _, _) => result_kind(*operator),
        _ => Kind::Integer,
    }
}

/// Whether an operand may stand in the place of `own`: it has its kind and differs.
fn is_other(names: &Names, operand: &Expr, kind: Kind, own: &Expr) -> bool
    ensures { result ≡ (same_kind (kind_of_expression (kind_at names.now) (tree_of operand.now)) kind
        && not (same_tree (tree_of operand.now) (tree_of own.now))) }
{
    kind_in(names, operand) == kind && *operand != *own
}

/// The operands of a pool that have the kind of `own`, without `own` itself.
#[tactic(auto, using(crate::proofs::Filters::passed))]
fn others(alloc: Global, names: &Names, pool: &[Expr], own: &Expr) -> Result<Vec<Expr>, AllocError>
    ensures { IfOk result
        (λ list. map tree_of list.items ≡ model.others (kind_at names.now) (map tree_of pool.now) (tree_of own.now)) }
{
    let kind = kind_in(names, own);
    let mut list = Vec::new(alloc);
    for operand in pool {
        if is_other(names, operand, kind, own) {
            list.push(operand.clone()?)?;
        }
    }
    Ok(list)
}

/// AAR, ACR and their kin: the other operands of the sort `new`, if the expression is an operand of the sort `old`.
pub(crate) fn drawn(
    alloc: Global,
    pools: &Pools,
    new: Operand,
    old: Operand,
    expr: &Expr,
) -> Result<Vec<Expr>, AllocError>
    ensures { IfOk result
        (λ list. map tree_of list.items ≡ model.drawn (pool_fields pools.now) new old (tree_of expr.now)) }
{
    if is_operand(old, expr) {
        others(alloc, &pools.names, pools.of_sort(new), expr)
    } else {
        Ok(Vec::new(alloc))
    }
}

/// Whether another array may stand in the place of the array `name`: it has the same kind and as many bounds.
fn is_comparable(pools: &Pools, name: &Name, other: &Name) -> bool
    ensures { result ≡ model.is_comparable (pool_fields pools.now) name.now other.now }
{
    pools.names.kind(other) == pools.names.kind(name)
        && pools.names.bounds(other).len() == pools.names.bounds(name).len()
        && *other != *name
}

/// The name with a copy of the subscripts of `own`.
#[tactic(auto, using(crate::proofs::Elements::renamed))]
fn renamed(name: Name, own: &Ref) -> Result<Expr, AllocError>
    ensures { IfOk result (λ made. tree_of made ≡ Tree.Reference name (trees (reference_fields own.now).1)) }
{
    Ok(Expr::Reference(Ref {
        name,
        subscripts: own.subscripts.clone()?,
    }))
}

/// The subscripts of `own` behind each array that may stand in the place of its own.
fn with_subscripts(alloc: Global, pools: &Pools, own: &Ref) -> Result<Vec<Expr>, AllocError>
    ensures { IfOk result (λ list. map tree_of list.items ≡ model.with_subscripts (pool_fields pools.now)
        (reference_fields own.now).0 (trees (reference_fields own.now).1)) }
{
    let mut list = Vec::new(alloc);
    for name in &pools.arrays {
        if is_comparable(pools, &own.name, name) {
            list.push(renamed(*name, own)?)?;
        }
    }
    Ok(list)
}

/// CNR: each array that may stand in the place of that of an array reference, with the same subscripts.
pub(crate) fn comparable(alloc: Global, pools: &Pools, expr: &Expr) -> Result<Vec<Expr>, AllocError>
    ensures { IfOk result
        (λ list. map tree_of list.items ≡ model.comparable (pool_fields pools.now) (tree_of expr.now)) }
{
    match expr {
        Expr::Reference(own) if has_subscripts(own) => with_subscripts(alloc, pools, own),
        _ => Ok(Vec::new(alloc)),
    }
}

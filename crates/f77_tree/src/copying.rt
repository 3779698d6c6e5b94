//! Copies of expressions and of the parts of declarations, in memory of their own.
//!
//! They are written out, since a derived `clone` says nothing of a type that contains itself.

ghost use Rattle.std.specs.Prelude.{◌≡◌, map, IfOk};
ghost use Rattle.f77_tree.specs.View.{tree_of, reference_fields};
ghost use Rattle.f77_tree.specs.Declaration.{decl_of};
ghost use Rattle.f77_tree.specs.Data.{data_group_of};

use crate::data::DataGroup;
use crate::declaration::Decl;
use crate::tree::{Expr, Ref};
use std::alloc::AllocError;

impl Clone for Expr {
    ghost is_clone = { λ source copy. tree_of copy ≡ tree_of source };

    #[cycle(copying)]
    fn clone(&self) -> Result<Expr, AllocError> {
        match self {
            Expr::Number(number) => Ok(Expr::Number(*number)),
            Expr::Truth(truth) => Ok(Expr::Truth(*truth)),
            Expr::Reference(place) => Ok(Expr::Reference(place.clone()?)),
            Expr::Call(function, arguments) => Ok(Expr::Call(*function, copy_all(arguments)?)),
            Expr::Signed(sign, operand) => Ok(Expr::Signed(*sign, copy_boxed(operand)?)),
            Expr::Not(operand) => Ok(Expr::Not(copy_boxed(operand)?)),
            Expr::Binary(operator, left, right) => Ok(Expr::Binary(
                *operator,
                copy_boxed(left)?,
                copy_boxed(right)?,
            )),
            Expr::ZeroPush(operand) => Ok(Expr::ZeroPush(copy_boxed(operand)?)),
        }
    }
}

impl Clone for Ref {
    ghost is_clone = { λ source copy. reference_fields copy ≡ reference_fields source };

    #[cycle(copying)]
    fn clone(&self) -> Result<Ref, AllocError> {
        Ok(Ref {
            name: self.name,
            subscripts: copy_all(&self.subscripts)?,
        })
    }
}

/// Copies a boxed expression. `Box`'s own `clone` can not be called here, since it is outside of the cycle of calls.
#[cycle(copying)]
fn copy_boxed(source: &Box<Expr>) -> Result<Box<Expr>, AllocError>
    ensures { IfOk result (λ copy. tree_of copy.value ≡ tree_of source.now.value) }
{
    Ok(Box::new(*Box::allocator(source), Expr::clone(source)?)?)
}

/// Copies a list of expressions. `Vec`'s own `clone` can not be called here, for the same reason.
#[cycle(copying)]
fn copy_all(items: &Vec<Expr>) -> Result<Vec<Expr>, AllocError>
    ensures { IfOk result (λ copies. map tree_of copies.items ≡ map tree_of items.now.items) }
{
    let mut copies = Vec::with_capacity(*items.allocator(), items.len())?;
    for item in items {
        copies.push(item.clone()?)?;
    }
    Ok(copies)
}

impl Clone for Decl {
    ghost is_clone = { λ source copy. decl_of copy ≡ decl_of source };

    fn clone(&self) -> Result<Decl, AllocError> {
        Ok(Decl {
            name: self.name,
            bounds: self.bounds.clone()?,
        })
    }
}

impl Clone for DataGroup {
    ghost is_clone = { λ source copy. data_group_of copy ≡ data_group_of source };

    fn clone(&self) -> Result<DataGroup, AllocError> {
        Ok(DataGroup {
            names: self.names.clone()?,
            values: self.values.clone()?,
        })
    }
}

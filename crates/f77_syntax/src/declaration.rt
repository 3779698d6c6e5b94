//! Reading SUBROUTINE, INTEGER, LOGICAL and DIMENSION statements.

ghost use Rattle.std.specs.Prelude.{◌≤◌, length, IfOk};
ghost use Rattle.f77_syntax.specs.code.{bound_at, bounds_at, decl_at, declarations_at, declared_at, dimension_at};
ghost use Rattle.f77_syntax.specs.code.{IsBound, AreBounds, IsDecl, AreDecls, IsStatement, Gives, AreNames, dummies_at};
ghost use Rattle.f77_syntax.specs.code.{subroutine_at};

use crate::data::digits;
use crate::expression::{after_byte, ended, expect_byte};
use crate::fault::ReadError;
use crate::joined::{joined, names, split_name};
use f77_tree::{Decl, Kind, Name, Stmt, all_bounded};
use std::alloc::Global;

/// Reads a bound, and gives the text behind it too.
fn bound(text: &[u8]) -> Result<(u32, &[u8]), ReadError>
    ensures found { Gives IsBound result (bound_at text.now) }
    ensures shorter { IfOk result (λ x. length x.1.now ≤ length text.now) }
{
    digits(text).ok_or(ReadError::Unknown)
}

/// Reads bounds joined by commas, and gives the text behind them too.
fn bounds(alloc: Global, text: &[u8]) -> Result<(Vec<u32>, &[u8]), ReadError>
    ensures { Gives AreBounds result (bounds_at text.now) }
{
    joined(alloc, text, bound)
}

/// Reads a declared name with its bounds, if it has any, and gives the text behind it too.
#[tactic(auto, unfolding(crate::specs::code::Declaration::decl_at))]
fn declaration(alloc: Global, text: &[u8]) -> Result<(Decl, &[u8]), ReadError>
    ensures found { Gives IsDecl result (decl_at text.now) }
    ensures shorter { IfOk result (λ x. length x.1.now ≤ length text.now) }
{
    let (front, rest) = split_name(text)?;
    let name = Name::beginning(front);
    let Some(inner) = after_byte(rest, b'(') else {
        let bounds = Vec::new(alloc);
        return Ok((Decl { name, bounds }, rest));
    };
    let (bounds, behind) = bounds(alloc, inner)?;
    let rest = expect_byte(behind, b')')?;
    Ok((Decl { name, bounds }, rest))
}

/// Reads what follows the keyword INTEGER, LOGICAL or DIMENSION, up to the end.
fn declarations(alloc: Global, text: &[u8]) -> Result<Vec<Decl>, ReadError>
    ensures { Gives AreDecls result (declarations_at text.now) }
{
    let (items, end) = joined(alloc, text, |item| declaration(alloc, item))?;
    ended(items, end)
}

/// Reads what follows the keyword of a type statement.
pub(crate) fn declared(alloc: Global, kind: Kind, text: &[u8]) -> Result<Stmt, ReadError>
    ensures { Gives IsStatement result (declared_at kind text.now) }
{
    let items = declarations(alloc, text)?;
    Ok(Stmt::Declare { kind, items })
}

/// Reads what follows the keyword DIMENSION.
pub(crate) fn dimension(alloc: Global, text: &[u8]) -> Result<Stmt, ReadError>
    ensures { Gives IsStatement result (dimension_at text.now) }
{
    let items = declarations(alloc, text)?;
    if !all_bounded(&items) {
        return Err(ReadError::Unknown);
    }
    Ok(Stmt::Dimension { items })
}

/// Reads names joined by commas, or none, and a closing parenthesis, and gives the text behind it too.
#[tactic(auto, unfolding(crate::specs::code::Subroutine::dummies_at))]
fn dummies(alloc: Global, text: &[u8]) -> Result<(Vec<Name>, &[u8]), ReadError>
    ensures { Gives AreNames result (dummies_at text.now) }
{
    if let Some(rest) = after_byte(text, b')') {
        return Ok((Vec::new(alloc), rest));
    }
    let (names, behind) = names(alloc, text)?;
    let rest = expect_byte(behind, b')')?;
    Ok((names, rest))
}

/// Reads what follows the keyword SUBROUTINE.
#[tactic(auto, unfolding(crate::specs::code::Subroutine::subroutine_at))]
pub(crate) fn subroutine(alloc: Global, text: &[u8]) -> Result<Stmt, ReadError>
    ensures { Gives IsStatement result (subroutine_at text.now) }
{
    let (front, rest) = split_name(text)?;
    let name = Name::beginning(front);
    if rest.is_empty() {
        let arguments = Vec::new(alloc);
        return Ok(Stmt::Subroutine { name, arguments });
    }
    let inner = expect_byte(rest, b'(')?;
    let (arguments, end) = dummies(alloc, inner)?;
    ended(Stmt::Subroutine { name, arguments }, end)
}

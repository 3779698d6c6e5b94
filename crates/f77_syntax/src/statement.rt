//! Reading a statement: by the class of its whole text, then by its keyword.

ghost use Rattle.f77_syntax.specs.code.Statement as reading;
ghost use Rattle.std.specs.Prelude.{◌≡◌, option_map};
ghost use Rattle.f77_tree.specs.Tree.{Tree};
ghost use Rattle.f77_tree.specs.View.{tree_of};
ghost use Rattle.f77_tree.specs.Statement.{statement_of};
ghost use Rattle.f77_syntax.specs.code.{arithmetic_at, condition_at, clip, Gives, IsTree, IsStatement, IsReference};
ghost use Rattle.f77_syntax.specs.code.{reference_at, assign_at, simple_at, simple_action_at, action_at, branch_at};
ghost use Rattle.f77_syntax.specs.code.{else_at, keyword_at, statement_at};

use crate::classification::{Class, class_of};
use crate::data::preset;
use crate::declaration::{declared, dimension, subroutine};
use crate::expression::{after_byte, expect_byte, expression, list, whole};
use crate::fault::ReadError;
use crate::joined::split_name;
use crate::label::{goto, label_comma, last_label, loop_statement};
use crate::scan::{after, expect};
use f77_program::is_action;
use f77_tree::{Expr, Kind, Name, Ref, Stmt};
use std::alloc::Global;

/// Reads `IF(`, an expression and `)`, and gives the text behind them too.
#[tactic(auto, unfolding(crate::specs::code::Condition::condition_at))]
pub(crate) fn condition(alloc: Global, text: &[u8]) -> Result<(Expr, &[u8]), ReadError>
    ensures { Gives IsTree result (condition_at text.now) }
{
    let inner = expect(text, "IF(")?;
    let (condition, rest) = expression(alloc, 1, inner)?;
    let rest = expect_byte(rest, b')')?;
    Ok((condition, rest))
}

/// Reads the labels of an arithmetic IF. Nothing may stand behind them.
#[tactic(auto, unfolding(crate::specs::code::Condition::arithmetic_at))]
pub(crate) fn arithmetic(value: Expr, text: &[u8]) -> Result<Stmt, ReadError>
    ensures { (t : Tree) → tree_of value ≡ clip t → Gives IsStatement result (arithmetic_at t text.now) }
{
    let (negative, behind) = label_comma(text)?;
    let (zero, rest) = label_comma(behind)?;
    let positive = last_label(rest)?;
    Ok(Stmt::ArithIf {
        value,
        negative,
        zero,
        positive,
    })
}

/// Reads a reference, and gives the text behind it too.
#[tactic(auto, unfolding(crate::specs::code::Assignment::reference_at))]
fn reference(alloc: Global, text: &[u8]) -> Result<(Ref, &[u8]), ReadError>
    ensures { Gives IsReference result (reference_at text.now) }
{
    let (front, rest) = split_name(text)?;
    let name = Name::beginning(front);
    let Some(inner) = after_byte(rest, b'(') else {
        let subscripts = Vec::new(alloc);
        return Ok((Ref { name, subscripts }, rest));
    };
    let (subscripts, after) = list(alloc, inner)?;
    let rest = expect_byte(after, b')')?;
    Ok((Ref { name, subscripts }, rest))
}

/// Reads an assignment.
#[tactic(auto, unfolding(crate::specs::code::Assignment::assign_at))]
pub(crate) fn assignment(alloc: Global, text: &[u8]) -> Result<Stmt, ReadError>
    ensures { Gives IsStatement result (assign_at text.now) }
{
    let (target, behind) = reference(alloc, text)?;
    let rest = expect_byte(behind, b'=')?;
    let value = whole(alloc, rest)?;
    Ok(Stmt::Assign { target, value })
}

/// The statement that consists of one keyword alone, if the text is one.
#[tactic(auto, unfolding(crate::specs::code::Statement::word_statement))]
fn word_statement(text: &[u8]) -> Option<Stmt>
    ensures { option_map statement_of result ≡ reading.word_statement text.now }
{
    if text == "CONTINUE".as_bytes() {
        return Some(Stmt::Continue);
    }
    if text == "RETURN".as_bytes() {
        return Some(Stmt::Return);
    }
    if text == "STOP".as_bytes() {
        return Some(Stmt::Stop);
    }
    if text == "ENDIF".as_bytes() {
        return Some(Stmt::EndIf);
    }
    if text == "END".as_bytes() {
        return Some(Stmt::End);
    }
    None
}

/// Reads a GO TO, or a statement of one keyword alone.
#[tactic(auto, unfolding(crate::specs::code::Statement::simple_at))]
fn simple(alloc: Global, text: &[u8]) -> Result<Stmt, ReadError>
    ensures { Gives IsStatement result (simple_at text.now) }
{
    if let Some(rest) = after(text, "GOTO") {
        return goto(alloc, rest);
    }
    word_statement(text).ok_or(ReadError::Unknown)
}

/// Reads a GO TO, or a statement of one keyword alone that may stand in a logical IF.
#[tactic(auto, unfolding(crate::specs::code::Statement::simple_action_at))]
fn simple_action(alloc: Global, text: &[u8]) -> Result<Stmt, ReadError>
    ensures { Gives IsStatement result (simple_action_at text.now) }
{
    let stmt = simple(alloc, text)?;
    if !is_action(&stmt) {
        return Err(ReadError::Unknown);
    }
    Ok(stmt)
}

/// Reads a statement that may stand in a logical IF.
#[tactic(auto, unfolding(crate::specs::code::Statement::action_at))]
fn action(alloc: Global, text: &[u8]) -> Result<Stmt, ReadError>
    ensures { Gives IsStatement result (action_at text.now) }
{
    match class_of(text) {
        Class::If => {
            let (value, rest) = condition(alloc, text)?;
            arithmetic(value, rest)
        }
        Class::Loop => Err(ReadError::Unknown),
        Class::Assignment => assignment(alloc, text),
        Class::Keyword => simple_action(alloc, text),
    }
}

fn begins_digit(text: &[u8]) -> bool
    ensures { result ≡ reading.begins_digit text.now }
{
    match text.first() {
        None => false,
        Some(c) => c.is_ascii_digit(),
    }
}

/// Reads what stands behind the condition of an IF.
#[tactic(auto, unfolding(crate::specs::code::Statement::branch_at))]
fn branch(alloc: Global, condition: Expr, text: &[u8]) -> Result<Stmt, ReadError>
    ensures { (t : Tree) → tree_of condition ≡ clip t → Gives IsStatement result (branch_at t text.now) }
{
    if text == b"THEN".as_slice() {
        return Ok(Stmt::BlockIf { condition });
    }
    if begins_digit(text) {
        return arithmetic(condition, text);
    }
    let statement = Box::new(alloc, action(alloc, text)?)?;
    Ok(Stmt::LogicalIf {
        condition,
        statement,
    })
}

/// Reads what stands behind the keyword ELSE.
#[tactic(auto, unfolding(crate::specs::code::Statement::else_at))]
fn otherwise(alloc: Global, text: &[u8]) -> Result<Stmt, ReadError>
    ensures { Gives IsStatement result (else_at text.now) }
{
    if text.is_empty() {
        return Ok(Stmt::Else);
    }
    let (condition, rest) = condition(alloc, text)?;
    if rest != b"THEN".as_slice() {
        return Err(ReadError::Unknown);
    }
    Ok(Stmt::ElseIf { condition })
}

/// Reads a statement by its keyword.
#[tactic(auto, unfolding(crate::specs::code::Statement::keyword_at))]
fn keyword(alloc: Global, text: &[u8]) -> Result<Stmt, ReadError>
    ensures { Gives IsStatement result (keyword_at text.now) }
{
    if let Some(rest) = after(text, "SUBROUTINE") {
        return subroutine(alloc, rest);
    }
    if let Some(rest) = after(text, "ELSE") {
        return otherwise(alloc, rest);
    }
    if let Some(rest) = after(text, "INTEGER") {
        return declared(alloc, Kind::Integer, rest);
    }
    if let Some(rest) = after(text, "LOGICAL") {
        return declared(alloc, Kind::Logical, rest);
    }
    if let Some(rest) = after(text, "DIMENSION") {
        return dimension(alloc, rest);
    }
    if let Some(rest) = after(text, "DATA") {
        return preset(alloc, rest);
    }
    simple(alloc, text)
}

/// Reads a statement.
#[tactic(auto, unfolding(crate::specs::code::Statement::statement_at))]
pub(crate) fn statement(alloc: Global, text: &[u8]) -> Result<Stmt, ReadError>
    ensures { Gives IsStatement result (statement_at text.now) }
{
    match class_of(text) {
        Class::If => {
            let (condition, rest) = condition(alloc, text)?;
            branch(alloc, condition, rest)
        }
        Class::Loop => loop_statement(alloc, text),
        Class::Assignment => assignment(alloc, text),
        Class::Keyword => keyword(alloc, text),
    }
}

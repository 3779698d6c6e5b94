//! Reading DATA statements: names with their initial values.

ghost use Rattle.f77_tree.specs.Data as initial;
ghost use Rattle.std.specs.Prelude.{◌≡◌, ◌≤◌, length, pos, IfSome, ◌<◌, IfOk};
ghost use Rattle.f77_syntax.specs.code.{bound_at, initial_constant_at, constant_at, clip_constant, clipped_constant};
ghost use Rattle.f77_syntax.specs.code.{Finds, repeat_at, data_value_at, data_values_at, group_at, groups_at, data_at};
ghost use Rattle.f77_syntax.specs.code.{IsValue, AreDataValues, IsGroup, AreGroups, clipped, Gives, IsStatement};

use crate::expression::{after_byte, expect_byte, past_comma};
use crate::fault::ReadError;
use crate::joined::{joined, names};
use crate::scan::{after, number};
use f77_tree::characters::{is_number, split_word};
use f77_tree::{Constant, DataGroup, Stmt, Value};
use std::alloc::Global;

/// The number, or -2147483648 where it is above 2147483647.
fn above_zero(size: u32) -> i32
    ensures { result ≡ clipped_constant (pos size) }
{
    i32::try_from(size).unwrap_or(i32::MIN)
}

/// The negative of the number, or -2147483648 where the number is above 2147483647.
fn below_zero(size: u32) -> i32
    ensures { result ≡ clipped_constant (initial.negative size) }
{
    match i32::try_from(size) {
        Ok(number) => -number,
        Err(_) => i32::MIN,
    }
}

/// Reads digits, and gives the text behind them too.
pub(crate) fn digits(text: &[u8]) -> Option<(u32, &[u8])>
    ensures found { Finds clipped result (bound_at text.now) }
    ensures shorter { IfSome result (λ x. length x.1.now ≤ length text.now) }
{
    let (front, rest) = split_word(text);
    if !is_number(front) {
        return None;
    }
    Some((number(front), rest))
}

fn positive(text: &[u8]) -> Option<(Constant, &[u8])>
    ensures { Finds clip_constant result (initial_constant_at pos text.now) }
{
    let (size, rest) = digits(text)?;
    Some((Constant::Number(above_zero(size)), rest))
}

fn negative(text: &[u8]) -> Option<(Constant, &[u8])>
    ensures { Finds clip_constant result (initial_constant_at initial.negative text.now) }
{
    let (size, rest) = digits(text)?;
    Some((Constant::Number(below_zero(size)), rest))
}

/// Reads a constant with its sign, and gives the text behind it too.
#[tactic(auto, unfolding(crate::specs::code::Data::constant_at))]
pub(crate) fn read_constant(text: &[u8]) -> Option<(Constant, &[u8])>
    ensures { Finds clip_constant result (constant_at text.now) }
{
    if let Some(rest) = after_byte(text, b'+') {
        return positive(rest);
    }
    if let Some(rest) = after_byte(text, b'-') {
        return negative(rest);
    }
    if let Some(rest) = after(text, ".TRUE.") {
        return Some((Constant::Truth(true), rest));
    }
    if let Some(rest) = after(text, ".FALSE.") {
        return Some((Constant::Truth(false), rest));
    }
    positive(text)
}

/// Reads a repeat with its asterisk, and gives the text behind it too.
fn repeat(text: &[u8]) -> Option<(u32, &[u8])>
    ensures { Finds clipped result (repeat_at text.now) }
{
    let (times, rest) = digits(text)?;
    let behind = after_byte(rest, b'*')?;
    Some((times, behind))
}

/// Reads a constant with its repeat, and gives the text behind it too. Without a repeat it counts once.
fn value(text: &[u8]) -> Result<(Value, &[u8]), ReadError>
    ensures found { Gives IsValue result (data_value_at text.now) }
    ensures shorter { IfOk result (λ x. length x.1.now ≤ length text.now) }
{
    let (times, behind) = repeat(text).unwrap_or((1, text));
    let Some((constant, rest)) = read_constant(behind) else {
        return Err(ReadError::Unknown);
    };
    Ok((Value { times, constant }, rest))
}

/// Reads values joined by commas, and gives the text behind them too.
fn values(alloc: Global, text: &[u8]) -> Result<(Vec<Value>, &[u8]), ReadError>
    ensures { Gives AreDataValues result (data_values_at text.now) }
{
    joined(alloc, text, value)
}

/// Reads names and their values between slashes, and gives the text behind them too.
#[tactic(auto, unfolding(crate::specs::code::Data::group_at))]
fn group(alloc: Global, text: &[u8]) -> Result<(DataGroup, &[u8]), ReadError>
    ensures found { Gives IsGroup result (group_at text.now) }
    ensures shorter { IfOk result (λ x. length x.1.now < length text.now) }
{
    let (names, behind) = names(alloc, text)?;
    let inner = expect_byte(behind, b'/')?;
    let (values, end) = values(alloc, inner)?;
    let rest = expect_byte(end, b'/')?;
    Ok((DataGroup { names, values }, rest))
}

/// Reads what follows the keyword DATA, up to the end. A comma may stand between two groups.
fn groups(alloc: Global, text: &[u8]) -> Result<Vec<DataGroup>, ReadError>
    ensures { Gives AreGroups result (groups_at text.now) }
{
    let mut groups = Vec::new(alloc);
    let mut rest = text;
    loop {
        let (group, behind) = group(alloc, rest)?;
        groups.push(group)?;
        if behind.is_empty() {
            return Ok(groups);
        }
        rest = past_comma(behind);
    }
}

/// Reads what follows the keyword DATA.
pub(crate) fn preset(alloc: Global, text: &[u8]) -> Result<Stmt, ReadError>
    ensures { Gives IsStatement result (data_at text.now) }
{
    let groups = groups(alloc, text)?;
    Ok(Stmt::Preset { groups })
}

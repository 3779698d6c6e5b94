//! Reading expressions, by recursive descent.

ghost use Rattle.std.specs.Prelude.{◌≡◌, ◌<◌, ◌≤◌, ◌==◌, true, false, length, map, IfOk};
ghost use Rattle.std.specs.Prelude.{MatchResult, option_map};
ghost use Rattle.f77_syntax.specs.declared.fault.ReadError.TheVariants.{Unknown};
ghost use Rattle.f77_tree.specs.Grammar.{word, past_word};
ghost use Rattle.f77_tree.specs.Grammar.{is_name};
ghost use Rattle.f77_tree.specs.Intrinsic.{function_named};
ghost use Rattle.f77_tree.specs.Name.{cut};
ghost use Rattle.f77_tree.specs.View.{tree_of, trees};
ghost use Rattle.f77_syntax.specs.code.{reading, whole_at, tree_after, past_comma, start_at, enclosed_at};
ghost use Rattle.f77_syntax.specs.code.{signed_tree_at, negated_at, dotted_at, word_tree_at, listed_by, clip, Gives};
ghost use Rattle.f77_syntax.specs.code.{IsTree, IsTreeStart, IsTreeList};

use crate::fault::ReadError;
use crate::scan::{after, expect, next_operator, number};
use f77_tree::characters::{is_name, is_number, split_word};
use f77_tree::{Expr, Intrinsic, Name, Ref, Sign};
use std::alloc::Global;

/// Reads an expression of the level `wanted` or a higher one, and gives the text behind it too.
#[cycle(parser)]
pub(crate) fn expression(alloc: Global, wanted: u8, text: &[u8]) -> Result<(Expr, &[u8]), ReadError>
    ensures found { Gives IsTree result (reading.expr wanted text.now) }
    ensures shorter { IfOk result (λ x. length x.1.now < length text.now) }
{
    let (mut left, mut own, mut rest) = start(alloc, wanted, text)?;
    loop {
        let Some((op, behind)) = next_operator(rest) else {
            return Ok((left, rest));
        };
        if !op.goes_on(own, wanted) {
            return Ok((left, rest));
        }
        let (right, after) = expression(alloc, op.right_level(), behind)?;
        left = Expr::Binary(op, Box::new(alloc, left)?, Box::new(alloc, right)?);
        own = op.level();
        rest = after;
    }
}

/// Reads what an expression begins with. Gives its level and the text behind it too.
#[cycle(parser)]
fn start(alloc: Global, wanted: u8, text: &[u8]) -> Result<(Expr, u8, &[u8]), ReadError>
    ensures found { Gives IsTreeStart result (start_at reading wanted text.now) }
    ensures shorter { IfOk result (λ x. length x.2.now < length text.now) }
{
    let Some((first, behind)) = text.split_first() else {
        return Err(ReadError::Unknown);
    };
    match *first {
        b'(' => group(alloc, behind),
        b'+' => signed(alloc, wanted, Sign::Plus, behind),
        b'-' => signed(alloc, wanted, Sign::Minus, behind),
        b'.' => dotted(alloc, wanted, text),
        _ => operand(alloc, text),
    }
}

/// Reads what stands behind an opening parenthesis: an expression and the closing one.
#[cycle(parser)]
fn group(alloc: Global, text: &[u8]) -> Result<(Expr, u8, &[u8]), ReadError>
    ensures { Gives IsTreeStart result (enclosed_at reading text.now) }
{
    let (inner, rest) = expression(alloc, 1, text)?;
    let rest = expect_byte(rest, b')')?;
    Ok((inner, 9, rest))
}

/// Reads the operand of a sign. A sign may not stand where a level above 6 is wanted.
#[cycle(parser)]
fn signed(
    alloc: Global,
    wanted: u8,
    sign: Sign,
    text: &[u8],
) -> Result<(Expr, u8, &[u8]), ReadError>
    ensures { Gives IsTreeStart result (signed_tree_at reading wanted sign text.now) }
{
    if wanted > 6 {
        return Err(ReadError::Unknown);
    }
    let (operand, rest) = expression(alloc, 7, text)?;
    Ok((Expr::Signed(sign, Box::new(alloc, operand)?), 6, rest))
}

/// Reads what begins with a dot: a LOGICAL constant, or `.NOT.` and its operand.
#[cycle(parser)]
fn dotted(alloc: Global, wanted: u8, text: &[u8]) -> Result<(Expr, u8, &[u8]), ReadError>
    ensures { Gives IsTreeStart result (dotted_at reading wanted text.now) }
{
    if let Some(rest) = after(text, ".TRUE.") {
        return Ok((Expr::Truth(true), 9, rest));
    }
    if let Some(rest) = after(text, ".FALSE.") {
        return Ok((Expr::Truth(false), 9, rest));
    }
    let behind = expect(text, ".NOT.")?;
    negated(alloc, wanted, behind)
}

/// Reads the operand of `.NOT.`, which may not stand where a level above 4 is wanted.
#[cycle(parser)]
fn negated(alloc: Global, wanted: u8, text: &[u8]) -> Result<(Expr, u8, &[u8]), ReadError>
    ensures { Gives IsTreeStart result (negated_at reading wanted text.now) }
{
    if wanted > 4 {
        return Err(ReadError::Unknown);
    }
    let (operand, rest) = expression(alloc, 5, text)?;
    Ok((Expr::Not(Box::new(alloc, operand)?), 4, rest))
}

/// Reads a constant, a name, or a name with a list.
#[cycle(parser)]
fn operand(alloc: Global, text: &[u8]) -> Result<(Expr, u8, &[u8]), ReadError>
    ensures { Gives IsTreeStart result (word_tree_at reading (word text.now) (past_word text.now)) }
{
    let (front, rest) = split_word(text);
    if is_number(front) {
        return Ok((Expr::Number(number(front)), 9, rest));
    }
    if !is_name(front) {
        return Err(ReadError::Unknown);
    }
    let Some(inner) = after_byte(rest, b'(') else {
        let name = Name::beginning(front);
        let subscripts = Vec::new(alloc);
        return Ok((Expr::Reference(Ref { name, subscripts }), 9, rest));
    };
    let (items, after) = list(alloc, inner)?;
    let rest = expect_byte(after, b')')?;
    Ok((with_list(front, items), 9, rest))
}

/// A call of the function with this name, or a reference where no function has it.
fn with_list(name: &[u8], items: Vec<Expr>) -> Expr
    requires { is_name name.now ≡ true }
    ensures { tree_of result ≡ listed_by (function_named name.now) (cut name.now) (trees (map tree_of items.items)) }
{
    match Intrinsic::named(name) {
        Some(function) => Expr::Call(function, items),
        None => Expr::Reference(Ref {
            name: Name::beginning(name),
            subscripts: items,
        }),
    }
}

/// Reads expressions joined by commas, and gives the text behind them too. It is a loop of its own and no call of
/// `joined`: expressions and lists call each other, and a function called through a closure in such a cycle has no
/// measure.
#[cycle(parser)]
pub(crate) fn list(alloc: Global, text: &[u8]) -> Result<(Vec<Expr>, &[u8]), ReadError>
    ensures { Gives IsTreeList result (reading.items text.now) }
{
    let mut items = Vec::new(alloc);
    let mut rest = text;
    loop {
        let (item, after) = expression(alloc, 1, rest)?;
        items.push(item)?;
        let Some(next) = after_byte(after, b',') else {
            return Ok((items, after));
        };
        rest = next;
    }
}

/// Reads an expression behind which nothing stands.
#[tactic(auto, unfolding(crate::specs::code::Reading::whole_at))]
pub(crate) fn whole(alloc: Global, text: &[u8]) -> Result<Expr, ReadError>
    ensures { Gives (λ x t. tree_of x ≡ clip t) result (whole_at text.now) }
{
    let (value, end) = expression(alloc, 1, text)?;
    ended(value, end)
}

/// The value that was read, if nothing stands behind it.
pub(crate) fn ended<T: Drop>(value: T, rest: &[u8]) -> Result<T, ReadError>
    ensures { MatchResult result
        (λ x. (x ≡ value) × ((length rest.now == 0) ≡ true))
        (λ e. (e ≡ Unknown) × ((length rest.now == 0) ≡ false)) }
{
    if !rest.is_empty() {
        return Err(ReadError::Unknown);
    }
    Ok(value)
}

/// The text behind this byte, which has to stand at the front.
pub(crate) fn expect_byte(text: &[u8], byte: u8) -> Result<&[u8], ReadError>
    ensures { Gives (λ x s. x.now ≡ s) result (tree_after byte text.now) }
{
    after_byte(text, byte).ok_or(ReadError::Unknown)
}

/// The text behind this byte, if the text begins with it.
pub(crate) fn after_byte(text: &[u8], byte: u8) -> Option<&[u8]>
    ensures { option_map (λ rest. rest.now) result ≡ tree_after byte text.now }
{
    let (first, rest) = text.split_first()?;
    (*first == byte).then_some(rest)
}

/// The text behind the comma at its front, or the text itself where there is none.
pub(crate) fn past_comma(text: &[u8]) -> &[u8]
    ensures rest { result.now ≡ past_comma text.now }
    ensures short { length result.now ≤ length text.now }
{
    after_byte(text, b',').unwrap_or(text)
}

//! Reading labels, and the statements whose keyword they follow: GO TO, computed GO TO and DO (ANSI X3.9-1978, 11.1,
//! 11.2 and 11.10).

ghost use Rattle.f77_tree.specs.Grammar as grammar;
ghost use Rattle.f77_syntax.specs.code.Label as labels;
ghost use Rattle.std.specs.Prelude.{◌≡◌, ◌≤◌, true, length, IfOk};
ghost use Rattle.f77_tree.specs.StatementGrammar.{label_number};
ghost use Rattle.f77_tree.specs.Grammar.{is_name};
ghost use Rattle.f77_syntax.specs.code.{label_at, IsLabel, Gives, computed_at, goto_at, items_at, IsStatement};
ghost use Rattle.f77_syntax.specs.code.{AreLabels, IsControl, IsIncrementationRead, control_at, step_at, loop_at};

use crate::expression::{after_byte, ended, expect_byte, expression, past_comma, whole};
use crate::fault::ReadError;
use crate::joined::{joined, split_name};
use crate::scan::{expect, number, split_digits};
use f77_tree::characters::is_number;
use f77_tree::{Expr, Name, Stmt};
use std::alloc::Global;

const MOST_DIGITS: usize = 5;

const OUT_OF_RANGE: u32 = 100_000;

/// The number of a label. A label of more than five digits is out of range, and gives 100000.
#[tactic(auto, unfolding(f77_tree::specs::StatementGrammar::label_number))]
fn label_number(row: &[u8]) -> u32
    requires { grammar.is_number row.now ≡ true }
    ensures { result ≡ label_number row.now }
{
    if row.len() <= MOST_DIGITS {
        number(row)
    } else {
        OUT_OF_RANGE
    }
}

/// Reads a label, and gives the text behind it too.
#[tactic(auto, unfolding(crate::specs::code::Label::label_at))]
pub(crate) fn label(text: &[u8]) -> Result<(u32, &[u8]), ReadError>
    ensures found { Gives IsLabel result (label_at text.now) }
    ensures shorter { IfOk result (λ x. length x.1.now ≤ length text.now) }
{
    let (row, rest) = split_digits(text);
    if !is_number(row) {
        return Err(ReadError::Unknown);
    }
    Ok((label_number(row), rest))
}

/// Reads a label behind which nothing stands.
#[tactic(auto, unfolding(crate::specs::code::Label::last_label))]
pub(crate) fn last_label(text: &[u8]) -> Result<u32, ReadError>
    ensures { Gives (λ x a. x ≡ a) result (labels.last_label text.now) }
{
    let (label, end) = label(text)?;
    ended(label, end)
}

/// Reads a label and a comma, and gives the text behind them too.
#[tactic(auto, unfolding(crate::specs::code::Label::label_comma))]
pub(crate) fn label_comma(text: &[u8]) -> Result<(u32, &[u8]), ReadError>
    ensures { Gives IsLabel result (labels.label_comma text.now) }
{
    let (label, behind) = label(text)?;
    let rest = expect_byte(behind, b',')?;
    Ok((label, rest))
}

/// Reads labels joined by commas, and gives the text behind them too. They keep their order, and a label that is
/// written twice stands twice, since a value chooses by place.
fn labels(alloc: Global, text: &[u8]) -> Result<(Vec<u32>, &[u8]), ReadError>
    ensures { Gives AreLabels result (items_at label_at text.now) }
{
    joined(alloc, text, label)
}

/// Reads what stands behind `GOTO(`. A comma may stand before the expression, and is not kept.
#[tactic(auto, unfolding(crate::specs::code::Goto::computed_at))]
fn computed(alloc: Global, text: &[u8]) -> Result<Stmt, ReadError>
    ensures { Gives IsStatement result (computed_at text.now) }
{
    let (labels, behind) = labels(alloc, text)?;
    let rest = expect_byte(behind, b')')?;
    let value = whole(alloc, past_comma(rest))?;
    Ok(Stmt::ComputedGoto { labels, value })
}

/// Reads what stands behind `GOTO`.
#[tactic(auto, unfolding(crate::specs::code::Goto::goto_at))]
pub(crate) fn goto(alloc: Global, text: &[u8]) -> Result<Stmt, ReadError>
    ensures { Gives IsStatement result (goto_at text.now) }
{
    if let Some(rest) = after_byte(text, b'(') {
        return computed(alloc, rest);
    }
    let label = last_label(text)?;
    Ok(Stmt::Goto { label })
}

/// Reads the label and the name of the DO variable, and gives the text behind the equals sign too.
#[tactic(auto, unfolding(crate::specs::code::DoLoop::control_at))]
fn control(text: &[u8]) -> Result<(u32, &[u8], &[u8]), ReadError>
    ensures read { Gives IsControl result (control_at text.now) }
    ensures named { IfOk result (λ x. is_name x.1.now ≡ true) }
{
    let (label, behind) = label(text)?;
    let (variable, rest) = split_name(past_comma(behind))?;
    let parameters = expect_byte(rest, b'=')?;
    Ok((label, variable, parameters))
}

/// Reads the third parameter, if there is one. Nothing may stand behind it.
#[tactic(auto, unfolding(crate::specs::code::DoLoop::step_at))]
fn step(alloc: Global, text: &[u8]) -> Result<Option<Expr>, ReadError>
    ensures { Gives IsIncrementationRead result (step_at text.now) }
{
    if text.is_empty() {
        return Ok(None);
    }
    let rest = expect_byte(text, b',')?;
    let step = whole(alloc, rest)?;
    Ok(Some(step))
}

/// Reads a DO statement.
#[tactic(auto, unfolding(crate::specs::code::DoLoop::loop_at))]
pub(crate) fn loop_statement(alloc: Global, text: &[u8]) -> Result<Stmt, ReadError>
    ensures { Gives IsStatement result (loop_at text.now) }
{
    let behind = expect(text, "DO")?;
    let (label, variable, parameters) = control(behind)?;
    let (first, rest) = expression(alloc, 1, parameters)?;
    let second = expect_byte(rest, b',')?;
    let (last, end) = expression(alloc, 1, second)?;
    let step = step(alloc, end)?;
    Ok(Stmt::Loop {
        label,
        variable: Name::beginning(variable),
        first,
        last,
        step,
    })
}

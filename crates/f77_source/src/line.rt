//! One line of a source: its columns, its kind, its label, its text, and what is wrong with it alone.

ghost use Rattle.std.specs.Prelude.{◌≡◌, ◌<◌, ◌++◌, Option, None, true, false, take, OnOk, string_bytes};
ghost use Rattle.std.specs.List.{list_all, list_any};
ghost use Rattle.f77_source.specs.{column, is_label_character, counted, label_field, statement_field, is_comment, kind};
ghost use Rattle.f77_source.specs.{field_number, label, is_label_field, line_part, is_foreign, has_foreign, has_tab};
ghost use Rattle.f77_source.specs.{fits_label_field, is_well_formed, own_fault, is_blank};

use crate::fault::FormFault;
use std::alloc::AllocError;

/// The kind of a line (ANSI X3.9-1978, 3.2).
#[derive(Clone, Copy, Debug, PartialEq, Eq)]
pub(crate) enum LineKind {
    Comment,
    Initial,
    Continuation,
}

/// The columns from 1 to `last`, or all where the line is shorter.
fn columns_up_to(line: &[u8], last: usize) -> &[u8]
    ensures { result.now ≡ take last line.now }
{
    if line.len() < last {
        line
    } else {
        &line[..last]
    }
}

/// Columns 1 to 72.
fn counted_columns(line: &[u8]) -> &[u8]
    ensures { result.now ≡ counted line.now }
{
    columns_up_to(line, 72)
}

/// Columns 1 to 5.
fn label_columns(line: &[u8]) -> &[u8]
    ensures { result.now ≡ label_field line.now }
{
    columns_up_to(line, 5)
}

/// Columns 7 to 72.
fn statement_columns(line: &[u8]) -> &[u8]
    ensures { result.now ≡ statement_field line.now }
{
    let columns = counted_columns(line);
    if columns.len() < 6 {
        &[]
    } else {
        &columns[6..]
    }
}

fn are_blank(columns: &[u8]) -> bool
    ensures { result ≡ list_all is_blank columns.now }
{
    columns.iter().all(|c| *c == b' ')
}

/// The character in a column, counted from 1: a blank where the line is shorter.
fn character_in(line: &[u8], number: usize) -> u8
    requires { 0 < number }
    ensures { result ≡ column line.now number }
{
    line.get(number - 1).copied().unwrap_or(b' ')
}

/// A tab is no blank, so a line of blanks and tabs is no comment.
#[tactic(auto, unfolding(crate::specs::Line::is_comment))]
fn is_comment_line(line: &[u8]) -> bool
    ensures { result ≡ is_comment line.now }
{
    let mark = character_in(line, 1);
    mark == b'C' || mark == b'c' || mark == b'*' || are_blank(counted_columns(line))
}

/// The kind of the line. A blank or a 0 in column 6 makes it initial (3.2.2).
#[tactic(auto, unfolding(crate::specs::Line::kind))]
pub(crate) fn line_kind(line: &[u8]) -> LineKind
    ensures { result ≡ kind line.now }
{
    if is_comment_line(line) {
        return LineKind::Comment;
    }
    let mark = character_in(line, 6);
    if mark == b' ' || mark == b'0' {
        return LineKind::Initial;
    }
    LineKind::Continuation
}

/// The number that the digits of columns 1 to 5 make, blanks left out.
fn number_in_label_columns(line: &[u8]) -> u32
    requires { list_all is_label_character (label_field line.now) ≡ true }
    ensures value { result ≡ field_number line.now }
    ensures small { result < 100000 }
{
    let mut number = 0;
    for c in label_columns(line) {
        if *c != b' ' {
            number = 10 * number + u32::from(*c - b'0');
        }
    }
    number
}

/// The label of an initial line, or None where columns 1 to 5 are blank.
#[tactic(auto, unfolding(crate::specs::Line::label))]
pub(crate) fn label_of(line: &[u8]) -> Option<u32>
    requires { list_all is_label_character (label_field line.now) ≡ true }
    ensures { result ≡ label line.now }
{
    if are_blank(label_columns(line)) {
        return None;
    }
    Some(number_in_label_columns(line))
}

fn are_label_characters(columns: &[u8]) -> bool
    ensures { result ≡ list_all is_label_character columns.now }
{
    columns.iter().all(|c| c.is_ascii_digit() || *c == b' ')
}

/// Whether columns 1 to 5 are as in an initial line: blank, or a label from 1 to 99999.
#[tactic(auto, unfolding(crate::specs::Line::is_label_field))]
fn has_label_field(line: &[u8]) -> bool
    ensures { result ≡ is_label_field line.now }
{
    let columns = label_columns(line);
    if !are_label_characters(columns) {
        return false;
    }
    are_blank(columns) || number_in_label_columns(line) != 0
}

/// Whether columns 1 to 5 are as a line of this kind wants them.
fn fits_kind(line: &[u8], kind: LineKind) -> bool
    ensures { result ≡ fits_label_field kind line.now }
{
    match kind {
        LineKind::Comment => true,
        LineKind::Initial => has_label_field(line),
        LineKind::Continuation => are_blank(label_columns(line)),
    }
}

fn has_foreign_character(line: &[u8]) -> bool
    ensures { result ≡ has_foreign line.now }
{
    counted_columns(line)
        .iter()
        .any(|c| !((32..=126).contains(c) || *c == b'\t'))
}

fn has_tab_character(line: &[u8]) -> bool
    ensures { result ≡ has_tab line.now }
{
    counted_columns(line).iter().any(|c| *c == b'\t')
}

/// The fault of the line alone, which has this number. F3 comes before F4, whichever stands first in the line. Columns
/// are tested before the place of the line: a continuation line with something in columns 1 to 5 is F5, also where F6
/// or F7 would follow.
#[tactic(auto, unfolding(crate::specs::Line::own_fault))]
pub(crate) fn fault_of(line: &[u8], number: u32) -> Option<FormFault>
    ensures { result ≡ own_fault number line.now }
{
    if is_comment_line(line) {
        return None;
    }
    if has_foreign_character(line) {
        return Some(FormFault::NotAscii(number));
    }
    if has_tab_character(line) {
        return Some(FormFault::Tab(number));
    }
    if fits_kind(line, line_kind(line)) {
        return None;
    }
    Some(FormFault::BadLabel(number))
}

/// Adds to a text what the line adds to its statement: columns 7 to 72, without blanks, in upper case.
pub(crate) fn append_line_part(text: &mut String, line: &[u8]) -> Result<(), AllocError>
    requires { list_any is_foreign (counted line.now) ≡ false }
    ensures { OnOk result (string_bytes text.new ≡ string_bytes text.old ++ line_part line.now) }
{
    for c in statement_columns(line) {
        if *c != b' ' {
            text.push(char::from(c.to_ascii_uppercase()))?;
        }
    }
    Ok(())
}

//! Cards written as lines.

ghost use Rattle.std.specs.Prelude.{◌≡◌, ◌≤◌, ◌<◌, ◌*◌, ◌++◌, ◌⊎◌, [], Some, None, true};
ghost use Rattle.std.specs.Prelude.{false, length, IfOk, IfErr, MatchOption, OnOk, string_bytes};
ghost use Rattle.std.specs.List.{list_all, slice_get};
ghost use Rattle.f77_source.specs.{label_text, piece, continuation_count, initial_line, continuation_line};
ghost use Rattle.f77_source.specs.{written_card, written, is_printable, is_bad_label, card_fault, card_faults};

use crate::card::Card;
use crate::fault::FormFault;
use std::alloc::{AllocError, Global};

/// The number of continuation lines that the text needs, at 66 characters a line.
fn continuation_lines(text: &str) -> usize
    ensures { result ≡ continuation_count text.now }
{
    text.len().saturating_sub(1) / 66
}

fn are_printable(text: &str) -> bool
    ensures { result ≡ list_all is_printable text.now }
{
    text.as_bytes().iter().all(|c| (32..=126).contains(c))
}

fn has_bad_label(label: Option<u32>) -> bool
    ensures { result ≡ is_bad_label label }
{
    match label {
        None => false,
        Some(number) => number == 0 || number > 99999,
    }
}

/// The fault for which the card can not be written.
#[tactic(auto, unfolding(crate::specs::Write::card_fault))]
fn fault_of(card: &Card) -> Option<FormFault>
    ensures { result ≡ card_fault card.now }
{
    if !are_printable(card.text()) {
        return Some(FormFault::NotAscii(card.line()));
    }
    if has_bad_label(card.label()) {
        return Some(FormFault::BadLabel(card.line()));
    }
    if continuation_lines(card.text()) > 19 {
        return Some(FormFault::TooManyContinuations(card.line()));
    }
    None
}

/// The fault of the first card that has one.
fn first_fault(cards: &[Card]) -> Option<FormFault>
    ensures { MatchOption result (card_faults cards.now ≡ [])
        (λ fault. slice_get (card_faults cards.now) 0 ≡ Some fault) }
{
    for card in cards {
        if let Some(fault) = fault_of(card) {
            return Some(fault);
        }
    }
    None
}

/// Adds columns 1 to 5: the label right-adjusted, or five blanks.
fn push_label(out: &mut String, label: Option<u32>) -> Result<(), AllocError>
    requires { is_bad_label label ≡ false }
    ensures { OnOk result (string_bytes out.new ≡ string_bytes out.old ++ label_text label) }
{
    match label {
        None => out.push_str("     "),
        Some(number) => write!(out, "{number:>5}"),
    }
}

/// Adds columns 7 to 72 of one line of the text: index 0 is the initial line.
fn push_piece(out: &mut String, text: &str, index: usize) -> Result<(), AllocError>
    requires printable { list_all is_printable text.now ≡ true }
    requires within { 66 * index ≤ length text.now }
    ensures { OnOk result (string_bytes out.new ≡ string_bytes out.old ++ piece text.now index) }
{
    let start = 66 * index;
    let end = text.len().min(start + 66);
    out.push_str(&text[start..end])
}

/// Adds the initial line of a card. Column 6 is blank.
fn push_initial_line(out: &mut String, card: &Card) -> Result<(), AllocError>
    requires printable { list_all is_printable card.now.text ≡ true }
    requires label { is_bad_label card.now.label ≡ false }
    ensures { OnOk result (string_bytes out.new ≡ string_bytes out.old ++ initial_line card.now) }
{
    push_label(out, card.label())?;
    out.push_str(" ")?;
    push_piece(out, card.text(), 0)?;
    out.push_str("\n")
}

/// Adds a continuation line of the text: index 1 is the first.
fn push_continuation_line(out: &mut String, text: &str, index: usize) -> Result<(), AllocError>
    requires printable { list_all is_printable text.now ≡ true }
    requires within { 66 * index ≤ length text.now }
    ensures { OnOk result (string_bytes out.new ≡ string_bytes out.old ++ continuation_line text.now index) }
{
    out.push_str("     +")?;
    push_piece(out, text, index)?;
    out.push_str("\n")
}

/// Adds the lines of a card. The text is cut after each 66 characters, so a line may begin or end with a blank of the
/// text. A card without label and text gives a blank line, so that each card has a line. Such a line would be read as a
/// comment, so `law::written_cards_are_read` excludes it.
fn push_card(out: &mut String, card: &Card) -> Result<(), AllocError>
    requires { card_fault card.now ≡ None }
    ensures { OnOk result (string_bytes out.new ≡ string_bytes out.old ++ written_card card.now) }
{
    push_initial_line(out, card)?;
    let text = card.text();
    for index in 0..continuation_lines(text) {
        push_continuation_line(out, text, index + 1)?;
    }
    Ok(())
}

/// The lines of the cards in order, each ended by LF (ANSI X3.9-1978, 3.2).
///
/// A label stands right-adjusted in columns 1 to 5, the first 66 characters of the text from column 7 on, and each
/// further 66 characters on a continuation line with `+` in column 6. No line is filled with blanks. The first card
/// with a fault is reported, at its own line, with the first of its faults in the order of `FormFault`.
pub fn write_form(alloc: Global, cards: &[Card]) -> Result<String, FormFault>
    ensures text { IfOk result (λ text. string_bytes text ≡ written cards.now) }
    ensures accepted { IfOk result (λ _. card_faults cards.now ≡ []) }
    ensures refused { IfErr result
        (λ fault. (slice_get (card_faults cards.now) 0 ≡ Some fault) ⊎ (fault ≡ FormFault.Memory)) }
    // A fault is found before any memory is taken.
    ensures reported { (fault : FormFault)
        → slice_get (card_faults cards.now) 0 ≡ Some fault → IfErr result (λ found. found ≡ fault) }
{
    if let Some(fault) = first_fault(cards) {
        return Err(fault);
    }
    let mut text = String::new(alloc);
    for card in cards {
        push_card(&mut text, card)?;
    }
    Ok(text)
}

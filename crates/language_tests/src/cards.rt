//! Cards of texts and labels that no source has, and the longest source.

use f77_source::{Card, read_form, write_form};
use f77_syntax::{SyntaxFault, parse};
use samples::{expect, repeated};
use std::process::Abort;
use std::test::Fail;

/// A card of these parts.
fn card(rt: &impl AllocGlobal, label: Option<u32>, text: &str, line: u32) -> Result<Card, Fail> {
    Ok(Card::new(label, String::from_str(rt.alloc(), text)?, line))
}

/// The number of cards of a source, or its fault.
fn cards_text(rt: &impl AllocGlobal, source: &str) -> Result<String, Fail> {
    match read_form(rt.alloc(), source.as_bytes()) {
        Ok(cards) => Ok(format!(in rt.alloc(); "{}", cards.len())?),
        Err(fault) => Ok(format!(in rt.alloc(); "{fault:?}")?),
    }
}

/// Compares what is read of `count` empty lines.
fn assert_lines(rt: &impl AllocGlobal, count: usize, expected: &str) -> Result<(), Fail> {
    let source = repeated(rt, "", count, "\n", "")?;
    expect(cards_text(rt, source.as_str()), expected, expected)
}

#[test]
fn limits_the_source(rt: HostRuntime) -> Result<(), Fail> {
    assert_lines(&rt, 65_536, "0")?;
    assert_lines(&rt, 65_537, "TooLarge")
}

/// Adds a card without label.
fn add(rt: &impl AllocGlobal, cards: &mut Vec<Card>, line: u32, text: &str) -> Result<(), Fail> {
    let card = card(rt, None, text, line)?;
    Ok(cards.push(card)?)
}

/// The cards of SUBROUTINE A, of this text and of END, on lines 1 to 3.
fn cards(rt: &impl AllocGlobal, text: &str) -> Result<Vec<Card>, Fail> {
    let mut cards = Vec::new(rt.alloc());
    add(rt, &mut cards, 1, "SUBROUTINEA")?;
    add(rt, &mut cards, 2, text)?;
    add(rt, &mut cards, 3, "END")?;
    Ok(cards)
}

/// Compares the fault of a card with this text.
fn assert_text(
    rt: &(impl AllocGlobal + Abort),
    text: Result<String, Fail>,
    expected: SyntaxFault,
) -> Result<(), Fail> {
    let text = text?;
    let cards = cards(rt, text.as_str())?;
    assert_eq!(rt; parse(rt.alloc(), &cards).err(), Some(expected));
    Ok(())
}

/// A character of two bytes counts as one.
#[test]
fn limits_the_characters_of_a_card(rt: HostRuntime) -> Result<(), Fail> {
    assert_text(
        &rt,
        repeated(&rt, "K=", 1318, "0", "1"),
        SyntaxFault::TooLong(2),
    )?;
    assert_text(
        &rt,
        repeated(&rt, "", 1320, "é", ""),
        SyntaxFault::Unknown(2),
    )?;
    assert_text(
        &rt,
        repeated(&rt, "", 1321, "é", ""),
        SyntaxFault::TooLong(2),
    )
}

/// The lines of a card, or its fault.
fn written(rt: &impl AllocGlobal, card: Card) -> Result<String, Fail> {
    match write_form(rt.alloc(), &[card]) {
        Ok(lines) => Ok(lines),
        Err(fault) => Ok(format!(in rt.alloc(); "{fault:?}")?),
    }
}

/// Compares the lines that are written of a card on line 7, with this label and this text.
fn assert_written(
    rt: &impl AllocGlobal,
    label: u32,
    text: Result<String, Fail>,
    expected: &str,
) -> Result<(), Fail> {
    let card = Card::new(Some(label), text?, 7);
    expect(written(rt, card), expected, expected)
}

#[test]
fn writes_cards(rt: HostRuntime) -> Result<(), Fail> {
    assert_written(&rt, 99_999, repeated(&rt, "", 3, "1", ""), "99999 111\n")?;
    assert_written(
        &rt,
        1,
        repeated(&rt, "", 1_321, "1", ""),
        "TooManyContinuations(7)",
    )?;
    assert_written(&rt, 0, repeated(&rt, "", 1_321, "1", ""), "BadLabel(7)")?;
    assert_written(&rt, 100_000, repeated(&rt, "", 1, "1", ""), "BadLabel(7)")?;
    assert_written(&rt, 0, repeated(&rt, "K=", 1, "é", ""), "NotAscii(7)")
}

/// Whether the card is that of STOP with label 10 on line 2.
fn is_stop(rt: &impl AllocGlobal, other: &Card) -> Result<bool, Fail> {
    let stop = card(rt, Some(10), "STOP", 2)?;
    Ok(stop == *other)
}

/// Compares the card of STOP with label 10 on line 2 with a card of these parts.
fn assert_card(
    rt: &(impl AllocGlobal + Abort),
    label: Option<u32>,
    text: &str,
    line: u32,
    expected: bool,
) -> Result<(), Fail> {
    let other = card(rt, label, text, line)?;
    let same = is_stop(rt, &other)?;
    assert_eq!(rt; same, expected);
    Ok(())
}

#[test]
fn compares_cards(rt: HostRuntime) -> Result<(), Fail> {
    assert_card(&rt, Some(10), "STOP", 2, true)?;
    assert_card(&rt, None, "STOP", 2, false)?;
    assert_card(&rt, Some(20), "STOP", 2, false)?;
    assert_card(&rt, Some(10), "STOP1", 2, false)?;
    assert_card(&rt, Some(10), "STOP", 3, false)
}

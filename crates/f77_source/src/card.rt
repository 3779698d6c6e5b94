//! Cards: statements as they stand on their lines. Contracts see the text of a card as a list of character codes, so
//! clauses compare cards as values.

ghost use Rattle.std.specs.Prelude.{◌≡◌, OnOk, false, string_bytes};
ghost use Rattle.std.specs.Cmp.{partial_equiv_from_equiv};
ghost use Rattle.f77_source.specs.Line.{has_foreign};
ghost use Rattle.f77_source.specs.code.Card.{extended};
ghost use Rattle.f77_source.specs.Card.{same_card};
ghost use Rattle.f77_source.specs.SameCards.{same_card_equiv};

use crate::line::append_line_part;
use std::alloc::AllocError;
use std::marker::Model;

/// A statement as it stands on its lines: its label, its text and the number of its initial line.
///
/// In a card that was read, the label is 1 to 99999, the text has no blanks and is in upper case, and lines count from
/// 1. A card that is to be written may have any label and any text.
#[derive(Debug, Drop)]
pub struct Card {
    label: Option<u32>,
    text: String,
    line: u32,
}

impl Model for Card {
    ghost use Rattle.std.specs.Prelude.{string_bytes};
    ghost use Rattle.f77_source.specs.Card.{CardFields};

    ghost Value = { CardFields };

    ghost view = { λ c. record { label = c.label; text = string_bytes c.text; line = c.line } };
}

impl PartialEq for Card {
    ghost eq = { same_card };

    ghost laws = { partial_equiv_from_equiv same_card_equiv };

    fn eq(&self, other: &Card) -> bool {
        self.label == other.label && self.text == other.text && self.line == other.line
    }
}

impl Eq for Card {
    ghost laws = { same_card_equiv };
}

impl Card {
    /// Makes a card of these parts. Nothing is tested: `write_form` does that.
    pub fn new(label: Option<u32>, text: String, line: u32) -> Card
        ensures { result ≡ record { label = label; text = string_bytes text; line = line } }
    {
        Card { label, text, line }
    }

    /// The statement label, where there is one (ANSI X3.9-1978, 3.4).
    pub fn label(&self) -> Option<u32>
        ensures { result ≡ self.now.label }
    {
        self.label
    }

    /// The text of the statement.
    pub fn text(&self) -> &str
        ensures { result.now ≡ self.now.text }
    {
        self.text.as_str()
    }

    /// The number of the initial line.
    pub fn line(&self) -> u32
        ensures { result ≡ self.now.line }
    {
        self.line
    }

    /// Adds to the text what a line adds to its statement. Where memory runs out, the text may have a part of the line.
    pub(crate) fn append(&mut self, line: &[u8]) -> Result<(), AllocError>
        requires { has_foreign line.now ≡ false }
        ensures { OnOk result (self.new ≡ extended line.now self.old) }
    {
        append_line_part(&mut self.text, line)
    }
}

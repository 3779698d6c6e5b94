//! The reader of lines, and what it keeps from line to line.

ghost use Rattle.std.specs.Prelude.{◌≡◌, OnOk, IfOk, true, false};
ghost use Rattle.std.specs.List.{list_all};
ghost use Rattle.f77_source.specs.declared.line.LineKind.TheVariants.{Initial, Continuation};
ghost use Rattle.f77_source.specs.{has_foreign, label_field, is_label_character};
ghost use Rattle.f77_source.specs.code.{progress_of, nothing_read, all_cards, initial_card, card_begun, gone_on, taken};
ghost use Rattle.f77_source.specs.code.{Steps};

use crate::card::Card;
use crate::fault::FormFault;
use crate::line::{LineKind, append_line_part, fault_of, label_of, line_kind};
use crate::statement::Statement;
use std::alloc::{AllocError, Global};

/// The cards that are complete, and the statement that may still have continuation lines.
#[derive(Drop)]
pub(crate) struct Reader {
    pub(crate) cards: Vec<Card>,
    pub(crate) current: Option<Statement>,
}

/// The card that an initial line begins. `number` is that of the line.
fn begin_card(alloc: Global, line: &[u8], number: u32) -> Result<Card, AllocError>
    requires printable { has_foreign line.now ≡ false }
    requires label { list_all is_label_character (label_field line.now) ≡ true }
    ensures { IfOk result (λ card. card ≡ initial_card number line.now) }
{
    let mut text = String::new(alloc);
    append_line_part(&mut text, line)?;
    Ok(Card::new(label_of(line), text, number))
}

impl Reader {
    /// A reader that has read no line.
    pub(crate) fn new(alloc: Global) -> Reader
        ensures { progress_of result ≡ nothing_read }
    {
        Reader {
            cards: Vec::new(alloc),
            current: None,
        }
    }

    /// All cards, once the last line is read.
    pub(crate) fn finish(self) -> Result<Vec<Card>, AllocError>
        ensures { IfOk result (λ cards. cards.items ≡ all_cards (progress_of self)) }
    {
        let Reader { mut cards, current } = self;
        if let Some(statement) = current {
            cards.push(statement.card)?;
        }
        Ok(cards)
    }

    /// Reads an initial line: the statement before it is complete.
    fn begin(&mut self, alloc: Global, line: &[u8], number: u32) -> Result<(), AllocError>
        requires printable { has_foreign line.now ≡ false }
        requires label { list_all is_label_character (label_field line.now) ≡ true }
        ensures { OnOk result (progress_of self.new ≡ card_begun number line.now (progress_of self.old)) }
    {
        let card = begin_card(alloc, line, number)?;
        if let Some(statement) = self.current.take() {
            self.cards.push(statement.card)?;
        }
        self.current = Some(Statement {
            card,
            continuations: 0,
        });
        Ok(())
    }

    /// Reads a continuation line. F6 and F7 are found here.
    fn go_on(&mut self, line: &[u8], number: u32) -> Result<(), FormFault>
        requires { has_foreign line.now ≡ false }
        ensures { Steps result (gone_on number line.now (progress_of self.old)) (progress_of self.new) }
    {
        let Some(
            Statement {
                mut card,
                continuations,
            },
        ) = self.current.take()
        else {
            return Err(FormFault::LooseContinuation(number));
        };
        if continuations == 19 {
            return Err(FormFault::TooManyContinuations(number));
        }
        card.append(line)?;
        self.current = Some(Statement {
            card,
            continuations: continuations + 1,
        });
        Ok(())
    }

    /// Reads the next line, of any kind. Where it has a fault, nothing is said of the reader.
    pub(crate) fn take(&mut self, alloc: Global, line: &[u8], number: u32) -> Result<(), FormFault>
        ensures { Steps result (taken number line.now (progress_of self.old)) (progress_of self.new) }
    {
        if let Some(fault) = fault_of(line, number) {
            return Err(fault);
        }
        match line_kind(line) {
            LineKind::Comment => Ok(()),
            LineKind::Initial => Ok(self.begin(alloc, line, number)?),
            LineKind::Continuation => self.go_on(line, number),
        }
    }
}

//! Reading items joined by commas, and names. Lists of expressions have a loop of their own (`expression::list`).

ghost use Rattle.std.specs.Prelude.{MatchResult, ◌≡◌, ◌≤◌, true, length, IfOk};
ghost use Rattle.f77_tree.specs.Grammar.{is_name};
ghost use Rattle.f77_syntax.specs.code.{JoinsItems, Breaks, Shortens, name_at, names_at, IsFront, IsName, AreNames};
ghost use Rattle.f77_syntax.specs.code.{Gives};

use crate::expression::after_byte;
use crate::fault::ReadError;
use f77_tree::Name;
use f77_tree::characters::{is_name, split_word};
use std::alloc::Global;

/// Reads items joined by commas by the function `item` for one, and gives the text behind them too.
pub(crate) fn joined<'a, T: Drop, F: Fn(&'a [u8]) -> Result<(T, &'a [u8]), ReadError>>(
    alloc: Global,
    text: &'a [u8],
    item: F,
) -> Result<(Vec<T>, &'a [u8]), ReadError>
    requires callable { F.IsAlwaysCallable item }
    requires shorter { Shortens (F.post item) }
    ensures { MatchResult result
        (λ x. JoinsItems (F.post item) text.now x.0.items x.1.now)
        (λ e. Breaks (F.post item) text.now e) }
{
    let mut items = Vec::new(alloc);
    let mut rest = text;
    loop {
        let (value, behind) = item(rest)?;
        items.push(value)?;
        let Some(next) = after_byte(behind, b',') else {
            return Ok((items, behind));
        };
        rest = next;
    }
}

/// The characters of a name, which has to stand at the front, and the text behind them.
pub(crate) fn split_name(text: &[u8]) -> Result<(&[u8], &[u8]), ReadError>
    ensures found { Gives IsFront result (name_at text.now) }
    ensures named { IfOk result (λ x. is_name x.0.now ≡ true) }
    ensures shorter { IfOk result (λ x. length x.1.now ≤ length text.now) }
{
    let (front, behind) = split_word(text);
    if !is_name(front) {
        return Err(ReadError::Unknown);
    }
    Ok((front, behind))
}

/// Reads a name, and gives the text behind it too. Of a long name the first seven characters are kept.
fn name(text: &[u8]) -> Result<(Name, &[u8]), ReadError>
    ensures found { Gives IsName result (name_at text.now) }
    ensures shorter { IfOk result (λ x. length x.1.now ≤ length text.now) }
{
    let (front, behind) = split_name(text)?;
    Ok((Name::beginning(front), behind))
}

/// Reads names joined by commas, and gives the text behind them too.
pub(crate) fn names(alloc: Global, text: &[u8]) -> Result<(Vec<Name>, &[u8]), ReadError>
    ensures { Gives AreNames result (names_at text.now) }
{
    joined(alloc, text, name)
}

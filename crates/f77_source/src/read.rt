//! A source read into cards, line by line.

ghost use Rattle.std.specs.Prelude.{◌≡◌, ◌≤◌, ◌<◌, ◌⊎◌, List, [], ◌∷◌, length};
ghost use Rattle.std.specs.Prelude.{IfOk, IfErr, MatchOption, MatchResult};
ghost use Rattle.std.specs.List.{position_or_len};
ghost use Rattle.std.specs.Str.Lines.{strip_carriage_return};
ghost use Rattle.f77_source.specs.{CardFields, is_line_end, lines, AreCards, IsFirstFormFault, IsRefusedBy};

use crate::card::Card;
use crate::fault::FormFault;
use crate::reader::Reader;
use std::alloc::Global;

/// The line without its last byte where that is a carriage return.
fn without_carriage_return(line: &[u8]) -> &[u8]
    ensures { result.now ≡ strip_carriage_return line.now }
{
    if !line.is_empty() && line[line.len() - 1] == b'\r' {
        &line[..line.len() - 1]
    } else {
        line
    }
}

/// The number of bytes before the first LF, or of all bytes where there is none.
fn first_line_length(source: &[u8]) -> usize
    ensures place { result ≡ position_or_len is_line_end source.now }
    ensures within { result ≤ length source.now }
{
    for (i, c) in source.iter().enumerate() {
        if *c == b'\n' {
            return i;
        }
    }
    source.len()
}

/// The first line, and the source behind its end. None where the source is empty.
fn next_line(source: &[u8]) -> Option<(&[u8], &[u8])>
    ensures { MatchOption result (source.now ≡ [])
        (λ x. (length x.1.now < length source.now) × (lines source.now ≡ x.0.now ∷ lines x.1.now)) }
{
    if source.is_empty() {
        return None;
    }
    let end = first_line_length(source);
    let line = without_carriage_return(&source[..end]);
    if end == source.len() {
        return Some((line, &[]));
    }
    Some((line, &source[end + 1..]))
}

/// The cards of a source in fixed form, in the order of their lines (ANSI X3.9-1978, section 3).
///
/// TooLarge comes before all other faults. Otherwise the first line with a fault is reported, with the first of its
/// faults in the order of `FormFault`.
pub fn read_form(alloc: Global, source: &[u8]) -> Result<Vec<Card>, FormFault>
    // What is read.
    ensures within { IfOk result (λ _. length source.now ≤ 65536) }
    ensures cards { IfOk result (λ cards. AreCards 1 (lines source.now) cards.items) }
    ensures accepts { (cards : List CardFields) → length source.now ≤ 65536 → AreCards 1 (lines source.now) cards
        → MatchResult result (λ read. read.items ≡ cards) (λ fault. fault ≡ FormFault.Memory) }

    // What is refused.
    ensures refused { IfErr result (λ fault. IsRefusedBy source.now fault) }
    ensures too_large { 65536 < length source.now → result ≡ Err FormFault.TooLarge }
    ensures first_fault { (fault : FormFault) → length source.now ≤ 65536 → IsFirstFormFault (lines source.now) fault
        → (result ≡ Err fault) ⊎ (result ≡ Err FormFault.Memory) }
{
    if source.len() > 65_536 {
        return Err(FormFault::TooLarge);
    }
    let mut reader = Reader::new(alloc);
    let mut number = 0;
    let mut rest = source;
    while let Some((line, behind)) = next_line(rest) {
        number += 1;
        reader.take(alloc, line, number)?;
        rest = behind;
    }
    Ok(reader.finish()?)
}

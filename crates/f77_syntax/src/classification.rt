//! What a statement's text is as a whole: its length, its depth, and the class of the statement. No word is reserved
//! and blanks are gone, so `DO10I=1` and `DO10I=1,5` differ by the comma alone.

ghost use Rattle.f77_syntax.specs.Classification as classification;
ghost use Rattle.std.specs.Prelude.{◌≡◌, ◌<◌, option_map, true, false};
ghost use Rattle.f77_syntax.specs.{behind_character, class_of, IsTooDeep, character_count};

/// The class of a statement: which function reads it (ANSI X3.9-1978, 3.3).
#[derive(Clone, Copy, Debug, PartialEq, Eq)]
pub(crate) enum Class {
    /// An arithmetic, a logical or a block IF.
    If,
    /// A DO.
    Loop,
    /// An assignment.
    Assignment,
    /// Any other statement: its keyword says which it is.
    Keyword,
}

/// How many parentheses are open behind this character: a closing one where none is open changes nothing.
pub(crate) fn deeper(depth: usize, c: u8) -> usize
    requires { depth < 9223372036854775808 }
    ensures { result ≡ classification.deeper depth c }
{
    match c {
        b'(' => depth + 1,
        b')' => depth.saturating_sub(1),
        _ => depth,
    }
}

/// What follows the first such character outside parentheses.
pub(crate) fn behind(byte: u8, text: &[u8]) -> Option<&[u8]>
    ensures { option_map (λ rest. rest.now) result ≡ behind_character byte 0 text.now }
{
    let mut depth: usize = 0;
    for (index, c) in text.iter().enumerate() {
        if depth == 0 && *c == byte {
            return Some(&text[index + 1..]);
        }
        depth = deeper(depth, *c);
    }
    None
}

/// Whether the text begins with `IF(` and the character after the matching parenthesis is no `=`.
#[tactic(auto, unfolding(crate::specs::Classification::begins_if))]
fn begins_if(text: &[u8]) -> bool
    ensures { result ≡ classification.begins_if text.now }
{
    let Some(inner) = text.strip_prefix(b"IF(") else {
        return false;
    };
    let Some(rest) = behind(b')', inner) else {
        return false;
    };
    rest.first() != Some(&b'=')
}

/// The class of the statement that a text spells, if it spells one.
#[tactic(auto, unfolding(crate::specs::Classification::class_of))]
pub(crate) fn class_of(text: &[u8]) -> Class
    ensures { result ≡ class_of text.now }
{
    if begins_if(text) {
        return Class::If;
    }
    let Some(value) = behind(b'=', text) else {
        return Class::Keyword;
    };
    if behind(b',', value).is_some() {
        return Class::Loop;
    }
    Class::Assignment
}

/// The largest number of characters that the text of a statement may have: 20 lines of 66.
pub(crate) const MOST_CHARACTERS: usize = 1320;

const MOST_OPEN: usize = 40;

/// The number of characters of the text.
pub(crate) fn character_count(text: &str) -> usize
    ensures { result ≡ character_count text.now }
{
    text.chars().count()
}

/// Whether at some place of the text more than 40 parentheses are open.
pub(crate) fn is_too_deep(text: &[u8]) -> bool
    ensures deep { result ≡ true → IsTooDeep text.now }
    ensures flat { result ≡ false → ¬ (IsTooDeep text.now) }
{
    let mut depth: usize = 0;
    for c in text {
        depth = deeper(depth, *c);
        if depth > MOST_OPEN {
            return true;
        }
    }
    false
}

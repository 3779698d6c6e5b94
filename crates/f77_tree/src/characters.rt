//! The characters of names and of numbers (ANSI X3.9-1978, 2.2, 3.1 and 4.3).

ghost use Rattle.std.specs.Prelude.{◌≡◌, ◌≤◌, length};
ghost use Rattle.std.specs.List.{list_all};
ghost use Rattle.f77_tree.specs.Grammar as grammar;
ghost use Rattle.f77_tree.specs.{word, past_word};

/// An upper-case letter (3.1.1).
pub fn is_letter(c: u8) -> bool
    ensures { result ≡ grammar.is_letter c }
{
    c.is_ascii_uppercase()
}

/// A digit (3.1.2).
pub fn is_digit(c: u8) -> bool
    ensures { result ≡ grammar.is_digit c }
{
    c.is_ascii_digit()
}

/// A letter or a digit, as in a name.
pub fn is_word(c: u8) -> bool
    ensures { result ≡ grammar.is_word c }
{
    is_letter(c) || is_digit(c)
}

/// Whether the text is letters and digits, the first of them a letter.
pub fn is_name(text: &[u8]) -> bool
    ensures { result ≡ grammar.is_name text.now }
{
    match text.split_first() {
        None => false,
        Some((first, rest)) => is_letter(*first) && are_words(rest),
    }
}

/// Whether the text is one digit or more.
pub fn is_number(text: &[u8]) -> bool
    ensures { result ≡ grammar.is_number text.now }
{
    match text.split_first() {
        None => false,
        Some((first, rest)) => is_digit(*first) && are_digits(rest),
    }
}

/// Whether each character is a letter or a digit.
pub fn are_words(text: &[u8]) -> bool
    ensures { result ≡ list_all grammar.is_word text.now }
{
    text.iter().all(|c| is_word(*c))
}

/// Whether each character is a digit.
pub fn are_digits(text: &[u8]) -> bool
    ensures { result ≡ list_all grammar.is_digit text.now }
{
    text.iter().all(|c| is_digit(*c))
}

/// The letters and digits at the front, and what follows them.
pub fn split_word(text: &[u8]) -> (&[u8], &[u8])
    ensures front { result.0.now ≡ word text.now }
    ensures back { result.1.now ≡ past_word text.now }
    ensures short { length result.1.now ≤ length text.now }
{
    for (i, c) in text.iter().enumerate() {
        if !is_word(*c) {
            return text.split_at(i);
        }
    }
    text.split_at(text.len())
}

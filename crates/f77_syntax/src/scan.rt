//! Finding names, numbers and operators at the front of a text.

ghost use Rattle.std.specs.Prelude.{◌≡◌, ◌<◌, ◌≤◌, length, true, option_map, IfSome};
ghost use Rattle.std.specs.Str.Parse.{digits_value};
ghost use Rattle.f77_tree.specs.Grammar as grammar;
ghost use Rattle.f77_syntax.specs.code.Reading as reading;
ghost use Rattle.f77_syntax.specs.{strip};
ghost use Rattle.f77_syntax.specs.code.{digits, past_digits, operator_at, clipped, Gives};

use crate::fault::ReadError;
use f77_tree::Operator;
use f77_tree::characters::is_digit;

/// The operators. `**` stands before `*`, since that is its beginning.
const OPERATORS: [Operator; 15] = [
    Operator::Power,
    Operator::Multiply,
    Operator::Divide,
    Operator::Add,
    Operator::Subtract,
    Operator::Less,
    Operator::LessOrEqual,
    Operator::Equal,
    Operator::NotEqual,
    Operator::GreaterOrEqual,
    Operator::Greater,
    Operator::And,
    Operator::Or,
    Operator::Equivalent,
    Operator::NotEquivalent,
];

/// The text behind this word, if the text begins with it.
pub(crate) fn after<'a>(text: &'a [u8], word: &str) -> Option<&'a [u8]>
    ensures { option_map (λ rest. rest.now) result ≡ strip word.now text.now }
{
    text.strip_prefix(word.as_bytes())
}

/// The text behind this word, which has to stand at the front.
pub(crate) fn expect<'a>(text: &'a [u8], word: &str) -> Result<&'a [u8], ReadError>
    ensures { Gives (λ x s. x.now ≡ s) result (strip word.now text.now) }
{
    after(text, word).ok_or(ReadError::Unknown)
}

/// The digits at the front, and the text behind them.
pub(crate) fn split_digits(text: &[u8]) -> (&[u8], &[u8])
    ensures front { result.0.now ≡ digits text.now }
    ensures back { result.1.now ≡ past_digits text.now }
    ensures short { length result.1.now ≤ length text.now }
{
    for (i, c) in text.iter().enumerate() {
        if !is_digit(*c) {
            return text.split_at(i);
        }
    }
    text.split_at(text.len())
}

/// The number that the digits make, or 2147483648 where it is larger.
pub(crate) fn number(digits: &[u8]) -> u32
    requires { grammar.is_number digits.now ≡ true }
    ensures { result ≡ clipped (digits_value 10 digits.now) }
{
    let mut n: u32 = 0;
    for c in digits {
        n = n
            .saturating_mul(10)
            .saturating_add(u32::from(*c - b'0'))
            .min(2147483648);
    }
    n
}

/// The operator at the front, and the text behind it.
#[tactic(auto, unfolding(crate::specs::code::Reading::operator_at))]
pub(crate) fn next_operator(text: &[u8]) -> Option<(Operator, &[u8])>
    ensures found { option_map (λ x. (x.0, x.1.now)) result ≡ operator_at text.now }
    ensures shorter { IfSome result (λ x. length x.1.now < length text.now) }
{
    first_operator(&OPERATORS, text)
}

/// The first of these operators whose text stands at the front, and the text behind it.
fn first_operator<'a>(operators: &[Operator], text: &'a [u8]) -> Option<(Operator, &'a [u8])>
    ensures { option_map (λ x. (x.0, x.1.now)) result ≡ reading.first_operator operators.now text.now }
{
    for op in operators {
        if let Some(rest) = after(text, op.symbol()) {
            return Some((*op, rest));
        }
    }
    None
}

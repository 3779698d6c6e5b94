//! Texts that are compared. Where two differ, the test fails and shows both.

use std::test::Fail;

fn other(text: &str, expected: &str, case: &str) -> Fail {
    Fail::new(format_args!("{case:?} gives {text:?} in place of {expected:?}"))
}

/// Compares a text with the one that is expected. The text may be one that could not be made, so
/// that no text has to live in a test: its drop on each way would have to be proved.
pub fn expect(made: Result<String, Fail>, expected: &str, case: &str) -> Result<(), Fail> {
    let text = made?;
    if text.as_str() == expected {
        return Ok(());
    }
    Err(other(text.as_str(), expected, case))
}

//! The parts of a row of a table.

use std::test::Fail;

/// The input of a row, and the result that it has to give.
pub fn parts(row: &str) -> Result<(&str, &str), Fail> {
    match row.split_once(" => ") {
        Some(parts) => Ok(parts),
        None => Err(Fail::new("a row without =>")),
    }
}

//! Checked programs.

use crate::sources::program;
use f77_check::{Checked, check};
use std::test::Fail;

/// The program of statements with `; ` between them, checked.
pub fn checked(rt: &impl AllocGlobal, statements: &str) -> Result<Checked, Fail> {
    Ok(check(rt.alloc(), &program(rt, statements)?)?)
}

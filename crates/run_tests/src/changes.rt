//! Programs with one statement changed to one that no text has: TRAP, ZPUSH or a constant that is too large.

use crate::chance::Chance;
use f77_check::Checked;
use f77_tree::{Expr, Stmt};
use samples::patched;
use std::alloc::{AllocError, Global};
use std::test::Fail;

fn pushed(alloc: Global, expr: &Expr) -> Result<Expr, AllocError> {
    Ok(Expr::ZeroPush(Box::new(alloc, expr.clone()?)?))
}

/// The statement that is put in the place of another.
fn changed(alloc: Global, chance: &mut Chance, stmt: &Stmt) -> Result<Stmt, AllocError> {
    match (stmt, chance.below(4)) {
        (Stmt::Assign { target, value }, 0 | 1) => Ok(Stmt::Assign {
            target: target.clone()?,
            value: pushed(alloc, value)?,
        }),
        (Stmt::Assign { target, .. }, 2) => Ok(Stmt::Assign {
            target: target.clone()?,
            value: Expr::Number(2_147_483_648),
        }),
        _ => Ok(Stmt::Trap),
    }
}

/// The program with one statement changed, if that is legal.
pub(crate) fn with_change(
    alloc: Global,
    chance: &mut Chance,
    checked: &Checked,
) -> Result<Option<Checked>, Fail> {
    let number = chance.below(checked.count());
    let Some(line) = checked.program().line(number) else {
        return Ok(None);
    };
    let stmt = changed(alloc, chance, &line.stmt)?;
    let answer = patched(checked, number, &stmt);
    drop(stmt);
    Ok(answer.and_then(|new| new.ok()))
}

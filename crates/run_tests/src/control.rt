//! Where control may go: labels, the ranges of DOs, and the branches of blocks. All is looked up in the statements at
//! each use.

use crate::unit::Unit;
use f77_tree::Stmt;

/// `label_place` (f77_legal/specs/Labels.antt; 3.4): the first statement with the label.
pub(crate) fn place_of(unit: &Unit<'_>, label: u32) -> Option<usize> {
    unit.lines.iter().position(|line| line.label == Some(label))
}

/// `terminal` (f77_legal/specs/Loops.antt; 11.10): the terminal statement of the DO `d`.
pub(crate) fn terminal(unit: &Unit<'_>, d: usize) -> Option<usize> {
    match unit.statement(d) {
        Ok(Stmt::Loop { label, .. }) => place_of(unit, *label),
        _ => None,
    }
}

/// `range_holds` (f77_legal/specs/Loops.antt; 11.10.1): `k` stands behind the DO `d`, up to its terminal statement.
fn range_holds(unit: &Unit<'_>, d: usize, k: usize) -> bool {
    match terminal(unit, d) {
        Some(t) => d < k && k <= t,
        None => false,
    }
}

/// `is_left` (f77_legal/specs/Loops.antt; 11.10.2): a jump from `i` to `j` leaves the range of the DO `d`.
pub(crate) fn is_left(unit: &Unit<'_>, i: usize, j: usize, d: usize) -> bool {
    range_holds(unit, d, i) && !range_holds(unit, d, j)
}

/// `is_level` (f77_legal/specs/Blocks.antt; 11.6.1): `j` stands behind `i`, and between them each block that opens is
/// closed.
fn is_level(unit: &Unit<'_>, i: usize, j: usize) -> bool {
    let mut opened: usize = 0;
    let mut closed: usize = 0;
    for line in unit.lines.iter().take(j).skip(i.saturating_add(1)) {
        match &line.stmt {
            Stmt::BlockIf { .. } => opened = opened.saturating_add(1),
            Stmt::EndIf => closed = closed.saturating_add(1),
            _ => {}
        }
    }
    i < j && opened == closed
}

/// `block_end` (f77_legal/specs/Blocks.antt; 11.6 to 11.9): the END IF of the block of which `i` begins a branch.
fn block_end(unit: &Unit<'_>, i: usize) -> Option<usize> {
    (0..unit.lines.len()).find(|j| matches!(unit.statement(*j), Ok(Stmt::EndIf))
        && is_level(unit, i, *j))
}

/// `branch_end` (f77_legal/specs/Blocks.antt; 11.6 to 11.9): the next
/// ELSE IF, ELSE or END IF of the block of which `i` begins a branch.
pub(crate) fn branch_end(unit: &Unit<'_>, i: usize) -> Option<usize> {
    (0..unit.lines.len()).find(|j| {
        matches!(
            unit.statement(*j),
            Ok(Stmt::EndIf | Stmt::ElseIf { .. } | Stmt::Else)
        ) && is_level(unit, i, *j)
    })
}

/// `statement_behind` (f77_legal/specs/Blocks.antt; 11.6 to 11.9): the next statement, or the END IF of the block where
/// the next one begins a branch.
pub(crate) fn behind(unit: &Unit<'_>, i: usize) -> Option<usize> {
    let next = i.saturating_add(1);
    match unit.statement(next) {
        Ok(Stmt::ElseIf { .. } | Stmt::Else) => block_end(unit, next),
        _ => Some(next),
    }
}

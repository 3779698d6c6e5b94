//! DO variables: which variable a statement sets, and which it may not set.

ghost use Rattle.std.specs.Prelude.{◌≡◌, false, map, option_map};
ghost use Rattle.std.specs.List.{list_any};
ghost use Rattle.std.specs.Option.{option_and_then, option_map_or};
ghost use Rattle.std.specs.Str.{bytes_eq};
ghost use Rattle.f77_program.specs.Program.{line_of};
ghost use Rattle.f77_tree.specs.Statement.{statement_of};
ghost use Rattle.f77_legal.specs.Loops as loops;
ghost use Rattle.f77_legal.specs.{statement_numbers, nth_statement, IsRangeTable};

use crate::enclosing::Ranges;
use f77_program::Line;
use f77_tree::{Name, Shared, Stmt};

/// The variable that the statement sets itself: the target of an assignment, or a DO variable.
pub(crate) fn set_by(stmt: &Stmt) -> Option<&Name>
    ensures { option_map (λ name. name.now) result ≡ loops.set_by (statement_of stmt.now) }
{
    match stmt {
        Stmt::Assign { target, .. } => Some(&target.name),
        Stmt::LogicalIf { statement, .. } => set_by(statement),
        Stmt::Loop { variable, .. } => Some(variable),
        _ => None,
    }
}

/// The DO variable, if the statement is a DO.
#[tactic(auto, using(crate::proofs::Forms::no_variable))]
pub(crate) fn variable_of(stmt: &Stmt) -> Option<&Name>
    ensures { option_map (λ name. name.now) result ≡ loops.do_variable_of (statement_of stmt.now) }
{
    match stmt {
        Stmt::Loop { variable, .. } => Some(variable),
        _ => None,
    }
}

fn is_variable_at(lines: &[Shared<Line>], name: &Name, d: usize) -> bool
    ensures { result ≡ option_map_or (bytes_eq name.now)
        (option_and_then loops.do_variable_of (nth_statement (map line_of lines.now) d)) false }
{
    match lines.get(d) {
        Some(line) => variable_of(&line.stmt).is_some_and(|variable| name == variable),
        None => false,
    }
}

fn is_held_with(ranges: &Ranges, lines: &[Shared<Line>], i: usize, name: &Name) -> bool
    ensures { IsRangeTable ranges.now (map line_of lines.now)
        → result ≡ list_any (loops.holds_with (map line_of lines.now) i name.now)
        (statement_numbers (map line_of lines.now)) }
{
    let mut heads = ranges.heads.iter();
    heads.any(|d| ranges.in_range(*d, i) && is_variable_at(lines, name, *d))
}

/// Whether `stmt`, as statement `i`, sets the variable of a DO whose range holds it (11.10.5).
pub(crate) fn sets_variable(ranges: &Ranges, lines: &[Shared<Line>], i: usize, stmt: &Stmt) -> bool
    ensures { IsRangeTable ranges.now (map line_of lines.now)
        → result ≡ loops.sets_variable (map line_of lines.now) i (statement_of stmt.now) }
{
    match set_by(stmt) {
        Some(name) => is_held_with(ranges, lines, i, name),
        None => false,
    }
}

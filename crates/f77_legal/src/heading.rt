//! The SUBROUTINE statement: the names of the unit and of its dummy arguments.

ghost use Rattle.std.specs.Prelude.{◌≡◌, [], map, option_map};
ghost use Rattle.std.specs.Option.{option_map_or};
ghost use Rattle.f77_program.specs.Program.{line_of};
ghost use Rattle.f77_tree.specs.Statement.{statement_of};
ghost use Rattle.f77_legal.specs.{unit_name, unit_name_of, dummies, dummies_of};

use f77_program::Line;
use f77_tree::{Name, Shared, Stmt};

/// The name of the unit and the dummy arguments, if this is a SUBROUTINE statement.
#[tactic(auto, using(crate::proofs::Forms::no_unit_name, crate::proofs::Forms::no_dummies))]
fn heading(stmt: &Stmt) -> Option<(&Name, &[Name])>
    ensures unit { option_map (λ x. x.0.now) result ≡ unit_name_of (statement_of stmt.now) }
    ensures dummies { option_map_or (λ x. x.1.now) result [] ≡ dummies_of (statement_of stmt.now) }
{
    match stmt {
        Stmt::Subroutine { name, arguments } => Some((name, arguments)),
        _ => None,
    }
}

/// The name of the unit (15.6).
pub fn unit(lines: &[Shared<Line>]) -> Option<&Name>
    ensures { option_map (λ name. name.now) result ≡ unit_name (map line_of lines.now) }
{
    let (name, _) = heading(&lines.first()?.stmt)?;
    Some(name)
}

/// The dummy arguments, in order.
pub fn arguments(lines: &[Shared<Line>]) -> &[Name]
    ensures { result.now ≡ dummies (map line_of lines.now) }
{
    match lines.first() {
        Some(line) => dummies_in(&line.stmt),
        None => &[],
    }
}

fn dummies_in(stmt: &Stmt) -> &[Name]
    ensures { result.now ≡ dummies_of (statement_of stmt.now) }
{
    match heading(stmt) {
        Some((_, arguments)) => arguments,
        None => &[],
    }
}

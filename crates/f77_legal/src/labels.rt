//! The labels of a program: where they stand, and which statements name them.
//!
//! A label counts where it stands first. Whether it stands twice is a clause of its own (C6), which is tested before
//! the clauses that look a label up.

ghost use Rattle.std.specs.Prelude.{◌≡◌, ◌++◌, ◌∷◌};
ghost use Rattle.std.specs.Prelude.{List, [], Option, None, false, filter, length, map};
ghost use Rattle.std.specs.Prelude.{not, nat_eq, is_some, option_map, slice_get, IfOk, OnOk};
ghost use Rattle.std.specs.List.{find, list_any};
ghost use Rattle.std.specs.Option.{option_and_then, option_map_or};
ghost use Rattle.indexmap.specs.IndexMap.{get, IsUnique};
ghost use Rattle.f77_program.specs.Program.{LineFields, line_of};
ghost use Rattle.f77_tree.specs.Statement.{jumps_of, statement_of};
ghost use Rattle.f77_legal.specs.Labels as clause;
ghost use Rattle.f77_legal.specs.{IsLabelTable, is_double, label_place};
ghost use Rattle.f77_legal.specs.code.{noted};

use crate::blocks::is_alternative;
use f77_program::Line;
use f77_tree::{Form, Shared, Stmt};
use indexmap::IndexMap;
use std::alloc::{AllocError, Global};

/// Where a label stands. Statements are numbered from 0.
#[derive(Clone, Copy, Debug)]
pub struct Place {
    /// The first statement with this label.
    pub(crate) first: usize,
    /// Whether a later statement has it too.
    pub(crate) again: bool,
}

/// The labels of a program, in order of first appearance.
#[derive(Drop)]
pub struct Labels {
    pub(crate) places: IndexMap<u32, Place>,
}

impl Labels {
    /// The labels of these lines.
    pub(crate) fn of(alloc: Global, lines: &[Shared<Line>]) -> Result<Labels, AllocError>
        ensures { IfOk result (λ table. IsLabelTable table (map line_of lines.now)) }
    {
        let mut labels = Labels {
            places: IndexMap::new(alloc),
        };
        for (i, line) in lines.iter().enumerate() {
            labels.note(i, line)?;
        }
        Ok(labels)
    }

    /// The place of the label, once statement `i` has it too.
    fn place_with(&self, label: u32, i: usize) -> Place
        ensures { result ≡ noted (get nat_eq self.now.places label) i }
    {
        let before = self.places.get(&label);
        Place {
            first: before.map_or(i, |place| place.first),
            again: before.is_some(),
        }
    }

    /// Adds the label of statement `i`, if it has one. The table has those of the statements before it.
    fn note(&mut self, i: usize, line: &Line) -> Result<(), AllocError>
        ensures { OnOk result ((program : List LineFields) → IsLabelTable self.old program → length program ≡ i
            → IsLabelTable self.new (program ++ line_of line.now ∷ [])) }
    {
        let Some(label) = line.label else {
            return Ok(());
        };
        let place = self.place_with(label, i);
        self.places.insert(label, place)?;
        Ok(())
    }

    /// The first label that stands on two statements (3.4).
    pub(crate) fn first_double(&self) -> Option<u32>
        ensures { (program : List LineFields) → IsLabelTable self.now program
            → result ≡ slice_get (filter (is_double program) (clause.labels program)) 0 }
    {
        self.places
            .iter()
            .find(|(_, place)| place.again)
            .map(|(label, _)| *label)
    }

    /// The number of the first statement with the label, from 0.
    pub fn place(&self, label: u32) -> Option<usize>
        ensures { (program : List LineFields) → IsLabelTable self.now program → result ≡ label_place program label }
    {
        self.places.get(&label).map(|place| place.first)
    }

    /// Whether the label, if any, stands on no statement.
    fn misses(&self, label: Option<u32>) -> bool
        ensures { (program : List LineFields) → IsLabelTable self.now program
            → result ≡ option_map_or (λ label. not (is_some (label_place program label))) label false }
    {
        label.is_some_and(|label| self.place(label).is_none())
    }

    /// The first statement with the label, if there is one.
    fn statement_with<'a>(&self, lines: &'a [Shared<Line>], label: Option<u32>) -> Option<&'a Stmt>
        ensures { IsLabelTable self.now (map line_of lines.now)
            → option_map (λ stmt. statement_of stmt.now) result
            ≡ option_and_then (clause.statement_with (map line_of lines.now)) label }
    {
        let place = self.place(label?)?;
        let line = lines.get(place)?;
        Some(&line.stmt)
    }
}

/// The label of the terminal statement that a DO names (11.10).
#[tactic(auto, using(crate::proofs::Forms::no_terminal))]
pub(crate) fn terminal_label(stmt: &Stmt) -> Option<u32>
    ensures { result ≡ clause.terminal_label (statement_of stmt.now) }
{
    match stmt {
        Stmt::Loop { label, .. } => Some(*label),
        _ => None,
    }
}

/// Whether a jump of the statement names a label that stands on no statement.
fn jumps_nowhere(labels: &Labels, stmt: &Stmt) -> bool
    ensures { (program : List LineFields) → IsLabelTable labels.now program
        → result ≡ list_any (λ label. not (is_some (label_place program label))) (jumps_of (statement_of stmt.now)) }
{
    (0..stmt.jump_count()).any(|k| labels.misses(stmt.jump(k)))
}

/// Whether the statement names a label that stands on no statement.
pub(crate) fn names_no_label(labels: &Labels, stmt: &Stmt) -> bool
    ensures { (program : List LineFields)
        → IsLabelTable labels.now program → result ≡ clause.names_no_label program (statement_of stmt.now) }
{
    jumps_nowhere(labels, stmt) || labels.misses(terminal_label(stmt))
}

/// Whether control may go to the statement (11.1, 11.2, 11.4): it has to be executable, and no ELSE IF or ELSE (11.7,
/// 11.8).
pub(crate) fn is_target(stmt: &Stmt) -> bool
    ensures { result ≡ clause.is_target (statement_of stmt.now) }
{
    stmt.form().is_executable() && !is_alternative(stmt)
}

/// Whether the label, if any, stands on a statement where control may not go.
fn leads_badly(labels: &Labels, lines: &[Shared<Line>], label: Option<u32>) -> bool
    ensures { IsLabelTable labels.now (map line_of lines.now)
        → result ≡ option_map_or
        (λ label. option_map_or (λ target. not (clause.is_target target))
        (clause.statement_with (map line_of lines.now) label) false) label false }
{
    labels
        .statement_with(lines, label)
        .is_some_and(|target| !is_target(target))
}

/// Whether a jump of the statement leads to a statement where control may not go.
pub(crate) fn jumps_badly(labels: &Labels, lines: &[Shared<Line>], stmt: &Stmt) -> bool
    ensures { IsLabelTable labels.now (map line_of lines.now)
        → result ≡ clause.jumps_badly (map line_of lines.now) (statement_of stmt.now) }
{
    (0..stmt.jump_count()).any(|k| leads_badly(labels, lines, stmt.jump(k)))
}

/// Whether the statement may be the terminal statement of a DO (11.10): an action that is no jump but a computed GO TO,
/// or a logical IF.
pub fn is_terminal(stmt: &Stmt) -> bool
    ensures { result ≡ clause.is_terminal (statement_of stmt.now) }
{
    matches!(
        stmt.form(),
        Form::Assign | Form::ComputedGoto | Form::LogicalIf | Form::Continue | Form::Trap
    )
}

/// Whether the statement is a DO, and names a statement that may be no terminal statement.
pub(crate) fn ends_badly(labels: &Labels, lines: &[Shared<Line>], stmt: &Stmt) -> bool
    ensures { IsLabelTable labels.now (map line_of lines.now)
        → result ≡ clause.ends_badly (map line_of lines.now) (statement_of stmt.now) }
{
    labels
        .statement_with(lines, terminal_label(stmt))
        .is_some_and(|last| !is_terminal(last))
}

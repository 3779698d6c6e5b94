//! The tables that the clauses read. Their memory is linear in the program, however deep its nest is. They are made of
//! programs that are not legal, too.

ghost use Rattle.std.specs.Prelude.{◌≡◌, List, map, IfOk, false};
ghost use Rattle.std.specs.Option.{option_map_or};
ghost use Rattle.f77_program.specs.Program.{LineFields, line_of};
ghost use Rattle.f77_tree.specs.Statement.{statement_of};
ghost use Rattle.f77_legal.specs.Loops as loops;
ghost use Rattle.f77_legal.specs.{label_place, IsLabelTable, AreTables, Serve};
ghost use Rattle.f77_legal.specs.code.{terminal_of};

use crate::blocks::Blocks;
use crate::enclosing::Ranges;
use crate::labels::{Labels, terminal_label};
use crate::names::Names;
use f77_program::Line;
use f77_tree::{Shared, Stmt};
use std::alloc::{AllocError, Global};

/// The tables of a program: of its names, its labels, its blocks and its ranges.
#[derive(Drop)]
pub struct Tables {
    pub names: Names,
    pub labels: Labels,
    pub blocks: Blocks,
    pub ranges: Ranges,
}

/// The terminal statement of a DO. None for another statement.
fn terminal(labels: &Labels, stmt: &Stmt) -> Option<usize>
    ensures { (program : List LineFields)
        → IsLabelTable labels.now program → result ≡ terminal_of program (statement_of stmt.now) }
{
    labels.place(terminal_label(stmt)?)
}

fn terminals(
    alloc: Global,
    labels: &Labels,
    lines: &[Shared<Line>],
) -> Result<Vec<Option<usize>>, AllocError>
    ensures { IfOk result (λ ends. (program : List LineFields) → IsLabelTable labels.now program
        → ends.items ≡ map (λ line. terminal_of program (statement_of line.stmt)) lines.now) }
{
    let mut ends = Vec::new(alloc);
    for line in lines {
        ends.push(terminal(labels, &line.stmt))?;
    }
    Ok(ends)
}

impl Tables {
    /// The tables of these lines.
    pub fn of(alloc: Global, lines: &[Shared<Line>]) -> Result<Tables, AllocError>
        ensures tables { IfOk result (λ tables. AreTables tables (map line_of lines.now)) }
    {
        let names = Names::of(alloc, lines)?;
        let labels = Labels::of(alloc, lines)?;
        let blocks = Blocks::of(alloc, lines)?;
        let terminals = terminals(alloc, &labels, lines)?;
        let branch_ends = Vec::from_slice(alloc, &blocks.branch_ends)?;
        let ranges = Ranges::of(alloc, terminals, branch_ends)?;
        Ok(Tables {
            names,
            labels,
            blocks,
            ranges,
        })
    }

    /// Whether control enters a range or a branch from outside where it goes from statement `i` to this label.
    fn leads_in(&self, i: usize, label: Option<u32>) -> bool
        ensures { (program : List LineFields) → Serve self.now program
            → result
            ≡ option_map_or
            (λ label. option_map_or (loops.goes_in program i) (label_place program label) false) label false }
    {
        label
            .and_then(|label| self.labels.place(label))
            .is_some_and(|j| self.ranges.goes_in(i, j))
    }

    /// Whether a jump of `stmt`, as statement `i`, leads into a range or a branch.
    pub(crate) fn jumps_in(&self, i: usize, stmt: &Stmt) -> bool
        ensures { (program : List LineFields)
            → Serve self.now program → result ≡ loops.jumps_in program i (statement_of stmt.now) }
    {
        (0..stmt.jump_count()).any(|k| self.leads_in(i, stmt.jump(k)))
    }
}

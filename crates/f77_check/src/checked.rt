//! Checked programs: legal ones, with all that a run looks up.

ghost use Rattle.std.specs.Prelude.{◌≡◌, ◌≤◌, length, map, IfOk};
ghost use Rattle.std.specs.Coded.{codes};
ghost use Rattle.f77_program.specs.Program.{line_of};
ghost use Rattle.f77_tree.specs.contracts.tree.Expr as expr;
ghost use Rattle.f77_tree.specs.contracts.statement.Stmt as stmt;
ghost use Rattle.f77_actions.specs.contracts.action.Action as action;
ghost use Rattle.f77_actions.specs.contracts.expression.Condition as condition;
ghost use Rattle.f77_actions.specs.contracts.expression.Element as element;
ghost use Rattle.f77_actions.specs.contracts.expression.Number as number;
ghost use Rattle.f77_legal.specs.Labels as labelled;
ghost use Rattle.f77_check.specs.Checked.{CheckedFields, IsChecked};
ghost use Rattle.f77_check.specs.CheckedView.{checked_fields};
ghost use Rattle.f77_check.specs.Ready.{CanResolve};
ghost use Rattle.f77_check.specs.Slots.{most_slots};

use crate::resolve::Resolver;
use crate::start::Start;
use f77_actions::Resolved;
use f77_program::Program;
use f77_tree::{Kind, Shared};
use std::alloc::AllocError;
use std::marker::Model;

/// The shape of a dummy argument: its kind, and whether it is a variable or an array.
#[derive(Clone, Copy, Debug, PartialEq, Eq, Drop)]
pub struct Shape {
    pub kind: Kind,
    /// The number of elements of an array, 1 to 10000. None for a variable.
    pub elements: Option<u32>,
}

/// A legal program, with its resolved form and with what a run starts with. It keeps a copy of the program, which
/// shares the lines, so that it can be used without the program that it was made of.
#[derive(Drop)]
pub struct Checked {
    pub(crate) program: Program,
    pub(crate) arguments: Shared<Vec<Shape>>,
    /// The tables in which names and labels are looked up.
    pub(crate) resolver: Shared<Resolver>,
    pub(crate) statements: Vec<Shared<Resolved>>,
    pub(crate) start: Shared<Start>,
}

impl Model for Checked {
    ghost Value = { CheckedFields };

    ghost coded = { Prim.hlevel (
      codes,
      expr.the_row.coded,
      stmt.the_row.coded,
      element.the_row.coded,
      number.the_row.coded,
      condition.the_row.coded,
      action.the_row.coded,
    ) };

    ghost view = { λ c. checked_fields c.program c.arguments.items c.resolver c.statements.items c.start };

    ghost invariant = { λ c. IsChecked
        (checked_fields c.program c.arguments.items c.resolver c.statements.items c.start)
        × CanResolve c.resolver (map line_of c.program) };
}

impl Checked {
    /// The program. It takes no memory.
    pub fn program(&self) -> &Program
        ensures program { result.now ≡ self.now.program }
        ensures checked { IsChecked self.now }
    {
        &self.program
    }

    /// The shapes of the dummy arguments, in order. It takes no memory.
    pub fn arguments(&self) -> &[Shape]
        ensures { result.now ≡ self.now.arguments }
    {
        &self.arguments
    }

    /// The labels that stand on statements, in the order of the statements.
    pub fn labels(&self) -> Result<Vec<u32>, AllocError>
        ensures labels { IfOk result (λ list. list.items ≡ labelled.labels (map line_of self.now.program)) }
    {
        let mut list = Vec::new(self.program.allocator());
        for line in self.program.lines() {
            if let Some(label) = line.label {
                list.push(label)?;
            }
        }
        Ok(list)
    }

    /// The number of statements, 2 to 500. It takes no memory.
    pub fn count(&self) -> usize
        ensures { result ≡ length self.now.program }
    {
        self.program.lines().len()
    }

    /// The number of slots, 0 to 10100: one for each variable and one for each element of an array. It takes no memory.
    pub fn slots(&self) -> usize
        ensures slots { result ≡ self.now.slots }
        ensures few { result ≤ most_slots }
        ensures checked { IsChecked self.now }
    {
        self.resolver.slots.count
    }

    /// The resolved statements, in order. It takes no memory.
    pub fn statements(&self) -> &[Shared<Resolved>]
        ensures statements { result.now ≡ self.now.statements }
        ensures checked { IsChecked self.now }
    {
        &self.statements
    }

    /// What a run of the program starts with. It takes no memory.
    pub fn start(&self) -> &Start
        ensures start { result.now ≡ self.now.start }
        ensures checked { IsChecked self.now }
    {
        &self.start
    }
}

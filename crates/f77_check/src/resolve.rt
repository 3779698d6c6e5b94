//! Looking up the names and labels of statements.

ghost use Rattle.std.specs.Prelude.{◌≡◌, true, Some, List, map, IfOk, IsSome};
ghost use Rattle.indexmap.specs.IndexMap.{keys};
ghost use Rattle.f77_program.specs.Formed.{is_action};
ghost use Rattle.f77_program.specs.Program.{LineFields, line_of};
ghost use Rattle.f77_tree.specs.Statement.{statement_of, Statement, jumps_of};
ghost use Rattle.f77_tree.specs.View.{reference_fields, tree_of, trees};
ghost use Rattle.f77_check.specs.Action.{IsJump, AreJumps};
ghost use Rattle.f77_legal.specs.Blocks.{statement_behind};
ghost use Rattle.f77_legal.specs.Labels as labels;
ghost use Rattle.f77_legal.specs.Labels.{nth_statement};
ghost use Rattle.f77_check.specs.Ready.{CanResolve};
ghost use Rattle.f77_check.specs.code.Ready.{CanBeResolved, AreFound, HasEnd, Does, ResolvesAssignment};
ghost use Rattle.f77_check.specs.Resolved.{IsResolved, AreResolved};
ghost use Rattle.f77_legal.specs.Tables.{Serve};

use crate::slots::Slots;
use f77_actions::{Action, Jump, Resolved};
use f77_legal::Tables;
use f77_legal::blocks::{next, statement};
use f77_program::Line;
use f77_tree::{Expr, Kind, Ref, Shared, Stmt};
use std::alloc::{AllocError, Global};

/// The tables in which the names and labels of a statement are looked up.
#[derive(Drop)]
pub(crate) struct Resolver {
    pub(crate) tables: Tables,
    pub(crate) slots: Slots,
}

impl Resolver {
    /// The jump from statement `i` to the statement with this label.
    fn jump(&self, alloc: Global, i: usize, label: u32) -> Result<Jump, AllocError>
        ghost program: { List LineFields }
        requires tables { Serve self.now.tables program }
        requires found { IsSome (labels.label_place program label) }
        ensures { IfOk result (λ jump. IsJump program i label jump) }
    {
        let target = self.tables.labels.place(label).unwrap();
        let leaves = self.tables.ranges.left_by(alloc, i, target)?;
        Ok(Jump { target, leaves })
    }

    /// The jumps from statement `i` to the statements with these labels, in order.
    fn jumps(&self, alloc: Global, i: usize, labels: &[u32]) -> Result<Vec<Jump>, AllocError>
        ghost program: { List LineFields }
        requires tables { Serve self.now.tables program }
        requires found { AreFound program labels.now }
        ensures { IfOk result (λ jumps. AreJumps program i labels.now jumps.items) }
    {
        let mut jumps = Vec::new(alloc);
        for label in labels {
            jumps.push(self.jump(alloc, i, *label)?)?;
        }
        Ok(jumps)
    }

    /// An assignment, by the kind of its target (10.1, 10.2).
    fn assignment(&self, alloc: Global, target: &Ref, value: &Expr) -> Result<Action, AllocError>
        requires { CanBeResolved self.now (Statement.Assign (reference_fields target.now).0
            (trees (reference_fields target.now).1) (tree_of value.now)) }
        ensures { IfOk result (λ action. ResolvesAssignment self.now (reference_fields target.now).0
            (trees (reference_fields target.now).1) (tree_of value.now) action) }
    {
        let name = &target.name;
        let place = self.element(alloc, name, &target.subscripts)?;
        match self.tables.names.kind(name) {
            Kind::Integer => Ok(Action::AssignNumber(place, self.number(alloc, value)?)),
            Kind::Logical => Ok(Action::AssignTruth(place, self.condition(alloc, value)?)),
        }
    }

    /// The action of a statement that may stand in a logical IF (10.1 to 11.4, 11.11 to 11.14).
    fn inner_action(&self, alloc: Global, i: usize, stmt: &Stmt) -> Result<Action, AllocError>
        ghost program: { List LineFields }
        requires tables { Serve self.now.tables program }
        requires ready { CanBeResolved self.now (statement_of stmt.now) }
        requires found { AreFound program (jumps_of (statement_of stmt.now)) }
        requires acts { is_action (statement_of stmt.now) ≡ true }
        ensures { IfOk result (λ action. Does self.now program i (statement_of stmt.now) action) }
    {
        match stmt {
            Stmt::Assign { target, value } => self.assignment(alloc, target, value),
            Stmt::Goto { label } => Ok(Action::Goto(self.jump(alloc, i, *label)?)),
            Stmt::ComputedGoto { labels, value } => Ok(Action::ComputedGoto {
                value: self.number(alloc, value)?,
                jumps: self.jumps(alloc, i, labels)?,
            }),
            Stmt::ArithIf {
                value,
                negative,
                zero,
                positive,
            } => Ok(Action::ArithmeticIf {
                value: self.number(alloc, value)?,
                negative: self.jump(alloc, i, *negative)?,
                zero: self.jump(alloc, i, *zero)?,
                positive: self.jump(alloc, i, *positive)?,
            }),
            Stmt::Continue => Ok(Action::Continue),
            Stmt::Return => Ok(Action::Return),
            Stmt::Stop => Ok(Action::Stop),
            Stmt::Trap => Ok(Action::Trap),
            _ => unreachable!(),
        }
    }

    /// The action of statement `i` (section 10, 11.1 to 11.14).
    fn action(&self, alloc: Global, i: usize, stmt: &Stmt) -> Result<Action, AllocError>
        ghost program: { List LineFields }
        requires tables { Serve self.now.tables program }
        requires ready { CanBeResolved self.now (statement_of stmt.now) }
        requires found { AreFound program (jumps_of (statement_of stmt.now)) }
        requires ends { HasEnd program i (statement_of stmt.now) }
        ensures { IfOk result (λ action. Does self.now program i (statement_of stmt.now) action) }
    {
        match stmt {
            Stmt::Subroutine { .. }
            | Stmt::Declare { .. }
            | Stmt::Dimension { .. }
            | Stmt::Preset { .. } => Ok(Action::Declaration),
            Stmt::LogicalIf {
                condition,
                statement,
            } => Ok(Action::LogicalIf {
                condition: self.condition(alloc, condition)?,
                action: Box::new(alloc, self.inner_action(alloc, i, statement)?)?,
            }),
            Stmt::BlockIf { condition } | Stmt::ElseIf { condition } => Ok(Action::Branch {
                condition: self.condition(alloc, condition)?,
                otherwise: self.tables.blocks.branch_end(i).unwrap(),
            }),
            Stmt::Else | Stmt::EndIf => Ok(Action::Continue),
            Stmt::Loop {
                variable,
                first,
                last,
                step,
                ..
            } => Ok(Action::Loop {
                variable: self.slots.first(&self.tables.names, variable),
                first: self.number(alloc, first)?,
                last: self.number(alloc, last)?,
                step: self.step(alloc, step)?,
                terminal: self.tables.ranges.terminal(i).unwrap(),
            }),
            Stmt::End => Ok(Action::Return),
            _ => self.inner_action(alloc, i, stmt),
        }
    }

    /// The resolved form of statement `i` of a legal program, from which control goes on to `next`.
    pub(crate) fn resolved(
        &self,
        alloc: Global,
        i: usize,
        stmt: &Stmt,
        next: usize,
    ) -> Result<Resolved, AllocError>
        ghost program: { List LineFields }
        requires at { nth_statement program i ≡ Some (statement_of stmt.now) }
        requires next { statement_behind program i ≡ Some next }
        requires can { CanResolve self.now program }
        ensures { IfOk result
            (λ resolved. IsResolved program (keys self.now.tables.names.facts) i (statement_of stmt.now) resolved) }
    {
        let action = self.action(alloc, i, stmt)?;
        let ends = self.tables.ranges.ending(alloc, i)?;
        Ok(Resolved { action, next, ends })
    }

    /// The resolved form of each statement of a legal program, in order.
    pub(crate) fn all(
        &self,
        alloc: Global,
        lines: &[Shared<Line>],
    ) -> Result<Vec<Shared<Resolved>>, AllocError>
        ghost program: { List LineFields }
        requires lines { map line_of lines.now ≡ program }
        requires can { CanResolve self.now program }
        ensures { IfOk result (λ list. AreResolved program (keys self.now.tables.names.facts) list.items) }
    {
        let mut list = Vec::with_capacity(alloc, lines.len())?;
        for i in 0..lines.len() {
            let next = next(lines, i).unwrap();
            let resolved = self.resolved(alloc, i, statement(lines, i), next)?;
            list.push(Shared::new(alloc, resolved)?)?;
        }
        Ok(list)
    }
}

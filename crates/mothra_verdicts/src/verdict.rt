//! The verdict of running a mutant alone.
//!
//! Nothing of tests or outcomes is copied for a mutant: its outcome is compared in place with the program's, and one
//! `ChangedRunner` has one statement replaced after another.

ghost use Rattle.std.specs.Prelude.{◌≡◌, true, map, IfOk, IfErr, OnOk};
ghost use Rattle.f77_program.specs.Program.{line_of};
ghost use Rattle.f77_run.specs.Changed.{changed_program};
ghost use Rattle.f77_tree.specs.Replacement.{replacement_of};
ghost use Rattle.mothra_ops.specs.Copies.{copied, statements_in};
ghost use Rattle.f77_check.specs.Checked.{shapes};
ghost use Rattle.mothra_ops.specs.Made.{IsMadeMutant};
ghost use Rattle.mothra_ops.specs.Mutants.{mutant_fields, program_of};
ghost use Rattle.mothra_verdicts.specs.Bench.{BenchFields, IsBench};
ghost use Rattle.mothra_verdicts.specs.Verdict.{IsAlone, IsVerdict, IsNoVerdict, mutated};

use crate::bench::Bench;
use crate::fault::BenchFault;
use crate::killing::{kills_from_start, kills_of};
use f77_meaning::Values;
use f77_run::ChangedRunner;
use f77_tree::Replacement;
use mothra_codes::Ticket;
use mothra_ops::{Copies, Mutant};
use std::alloc::{AllocError, Global};
use std::marker::Model;

/// What the tests say of one mutant.
#[derive(Debug, Drop)]
pub struct Row {
    /// The mutant.
    pub ticket: Ticket,
    /// For each test, in order, whether it kills the mutant.
    pub kills: Values<bool>,
}

/// Gives the verdicts on the mutants of a bench. What runs need is made once, and not for each mutant.
#[derive(Drop)]
pub struct Verdicts<'a> {
    bench: &'a Bench,
    runner: ChangedRunner<'a>,
    copies: Copies,
}

impl<'a> Model for Verdicts<'a> {
    ghost use Rattle.std.specs.Prelude.{◌≡◌};
    ghost use Rattle.std.specs.Coded.{codes};
    ghost use Rattle.f77_tree.specs.contracts.tree.Expr as expr;
    ghost use Rattle.f77_tree.specs.contracts.statement.Stmt as stmt;
    ghost use Rattle.f77_actions.specs.contracts.action.Action as action;
    ghost use Rattle.f77_actions.specs.contracts.expression.Condition as condition;
    ghost use Rattle.f77_actions.specs.contracts.expression.Element as element;
    ghost use Rattle.f77_actions.specs.contracts.expression.Number as number;
    ghost use Rattle.mothra_ops.specs.Copies.{copied, statements_in};
    ghost use Rattle.mothra_ops.specs.Mutants.{program_of};
    ghost use Rattle.mothra_verdicts.specs.Bench.{BenchFields, IsBench};

    ghost Value = { BenchFields };

    ghost coded = { Prim.hlevel (
      codes,
      expr.the_row.coded,
      stmt.the_row.coded,
      element.the_row.coded,
      number.the_row.coded,
      condition.the_row.coded,
      action.the_row.coded,
    ) };

    ghost view = { λ verdicts. verdicts.bench.now };

    ghost invariant = { λ verdicts. IsBench verdicts.bench.now
        × (verdicts.runner.checked ≡ verdicts.bench.now.plan.checked)
        × (copied verdicts.copies ≡ statements_in (program_of verdicts.bench.now.plan)) };
}

/// Which tests kill the mutant. Its runs begin at the start.
fn kills_of_whole_runs(
    alloc: Global,
    bench: &Bench,
    mutant: &Mutant,
) -> Result<Values<bool>, AllocError>
    requires made { IsMadeMutant bench.now.plan.checked mutant.now }
    requires shapes { shapes (mutated (program_of bench.now.plan) (mutant_fields mutant.now))
        ≡ shapes (program_of bench.now.plan) }
    ensures kills { IfOk result (λ kills. IsAlone (program_of bench.now.plan)
        (mutated (program_of bench.now.plan) (mutant_fields mutant.now)) bench.now.steps bench.now.tests kills) }
{
    let checked = bench.plan().program();
    let stmt = mutant.statement(checked)?;
    let changed = checked.with_statement(mutant.number(), &stmt, mutant.is_alone)?;
    kills_from_start(alloc, bench, &changed)
}

/// Makes the runs from now on those of the mutant. `node`, a copy of its own, stands in the copy of its statement while
/// that is resolved.
fn change_by(
    runner: &mut ChangedRunner<'_>,
    copies: &mut Copies,
    mutant: &Mutant,
    node: &mut Replacement,
) -> Result<(), AllocError>
    requires made { IsMadeMutant runner.old.checked mutant.now }
    requires alone { mutant.now.is_alone ≡ true }
    requires copies { copied copies.old ≡ statements_in (map line_of runner.old.checked.program) }
    requires node { replacement_of node.old ≡ replacement_of mutant.now.node }
    ensures copies { copied copies.new ≡ copied copies.old }
    ensures program { runner.new.checked ≡ runner.old.checked }
    ensures changed { OnOk result (changed_program runner.new
        ≡ mutated (map line_of runner.old.checked.program) (mutant_fields mutant.now)) }
{
    let number = mutant.number();
    copies.swap(number, mutant.edit.position, node);
    let Some(stmt) = copies.get(number) else {
        unreachable!()
    };
    let changed = runner.change(number, stmt);
    copies.swap(number, mutant.edit.position, node);
    changed
}

/// Makes the runs from now on those of the mutant.
fn change(
    runner: &mut ChangedRunner<'_>,
    copies: &mut Copies,
    mutant: &Mutant,
) -> Result<(), AllocError>
    requires made { IsMadeMutant runner.old.checked mutant.now }
    requires alone { mutant.now.is_alone ≡ true }
    requires copies { copied copies.old ≡ statements_in (map line_of runner.old.checked.program) }
    ensures copies { copied copies.new ≡ copied copies.old }
    ensures program { runner.new.checked ≡ runner.old.checked }
    ensures changed { OnOk result (changed_program runner.new
        ≡ mutated (map line_of runner.old.checked.program) (mutant_fields mutant.now)) }
{
    let mut node = mutant.node()?;
    change_by(runner, copies, mutant, &mut node)
}

/// Which tests kill the mutant. If its changed statement alone shows that it is legal, it runs from
/// where it may diverge from the program, else from the start.
fn kills(
    alloc: Global,
    bench: &Bench,
    runner: &mut ChangedRunner<'_>,
    copies: &mut Copies,
    mutant: &Mutant,
) -> Result<Values<bool>, AllocError>
    requires copies { copied copies.old ≡ statements_in (program_of bench.now.plan) }
    requires program { runner.old.checked ≡ bench.now.plan.checked }
    requires made { IsMadeMutant bench.now.plan.checked mutant.now }
    requires shapes { shapes (mutated (program_of bench.now.plan) (mutant_fields mutant.now))
        ≡ shapes (program_of bench.now.plan) }
    ensures copies { copied copies.new ≡ copied copies.old }
    ensures program { runner.new.checked ≡ runner.old.checked }
    ensures kills { IfOk result (λ kills. IsAlone (program_of bench.now.plan)
        (mutated (program_of bench.now.plan) (mutant_fields mutant.now)) bench.now.steps bench.now.tests kills) }
{
    if !mutant.is_alone {
        return kills_of_whole_runs(alloc, bench, mutant);
    }
    change(runner, copies, mutant)?;
    kills_of(alloc, bench, runner)
}

impl<'a> Verdicts<'a> {
    /// The verdicts of this bench.
    pub fn of(alloc: Global, bench: &'a Bench) -> Result<Verdicts<'a>, AllocError>
        ensures { IfOk result (λ verdicts. verdicts ≡ bench.now) }
    {
        let checked = bench.plan().program();
        Ok(Verdicts {
            bench,
            runner: ChangedRunner::of(alloc, checked)?,
            copies: Copies::of(alloc, checked.program().lines())?,
        })
    }

    /// Runs a mutant on every test.
    pub fn row(&mut self, alloc: Global, ticket: Ticket) -> Result<Row, BenchFault>
        ensures bench { self.new ≡ self.old }
        ensures ticket { IfOk result (λ row. row.ticket ≡ ticket) }
        ensures kills { IfOk result (λ row. IsVerdict self.old ticket row.kills) }
        ensures refused { IfErr result (λ fault. IsNoVerdict self.old.plan ticket fault) }
    {
        let Some(mutant) = self.bench.plan().mutant(ticket.op, ticket.number) else {
            return Err(BenchFault::Stranger(ticket));
        };
        let kills = kills(
            alloc,
            self.bench,
            &mut self.runner,
            &mut self.copies,
            mutant,
        )?;
        Ok(Row { ticket, kills })
    }
}

/// Runs a mutant on every test: which of them kill it.
pub fn verdict_of(alloc: Global, bench: &Bench, ticket: Ticket) -> Result<Row, BenchFault>
    ensures ticket { IfOk result (λ row. row.ticket ≡ ticket) }
    ensures kills { IfOk result (λ row. IsVerdict bench.now ticket row.kills) }
    ensures refused { IfErr result (λ fault. IsNoVerdict bench.now.plan ticket fault) }
{
    let mut verdicts = Verdicts::of(alloc, bench)?;
    verdicts.row(alloc, ticket)
}

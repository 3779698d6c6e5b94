//! A bench: a plan with the tests on which its mutants are run.

ghost use Rattle.std.specs.Prelude.{◌≡◌, ◌↔◌, ◌≤◌, length, IfOk, IfErr, IsTrue};
ghost use Rattle.std.specs.Coded.{codes};
ghost use Rattle.f77_tree.specs.contracts.tree.Expr as expr;
ghost use Rattle.f77_tree.specs.contracts.statement.Stmt as stmt;
ghost use Rattle.f77_actions.specs.contracts.action.Action as action;
ghost use Rattle.f77_actions.specs.contracts.expression.Condition as condition;
ghost use Rattle.f77_actions.specs.contracts.expression.Element as element;
ghost use Rattle.f77_actions.specs.contracts.expression.Number as number;
ghost use Rattle.mothra_verdicts.specs.Bench.{BenchFields, IsBench, IsDeclared, IsNoBench, most_tests};
ghost use Rattle.mothra_verdicts.specs.Equivalents.{AreNamed};
ghost use Rattle.mothra_verdicts.specs.Killing.{AreFollowedOn};
ghost use Rattle.mothra_ops.specs.Mutants as numbers;

use crate::equivalents::named_by;
use crate::fault::BenchFault;
use crate::running::{first_misfit, traces_on};
use f77_meaning::{Arg, Outcome, Values};
use f77_run::Visits;
use indexmap::IndexSet;
use mothra_codes::Ticket;
use mothra_ops::Plan;
use std::alloc::Global;
use std::marker::Model;

/// A plan, the tests on which its mutants are run, the limit on
/// steps of each run, and the mutants that are declared equivalent.
///
/// It keeps the outcome of the program itself on each test, and where control came on the way: so a
/// mutant is run from where it diverges from the program, and not at all where it does not diverge.
#[derive(Drop)]
pub struct Bench {
    plan: Plan,
    tests: Values<Values<Arg>>,
    steps: u32,
    outcomes: Values<Outcome>,
    /// For each test, where control came in the run of the program.
    visits: Vec<Visits>,
    declared: Values<Ticket>,
    /// The mutants that are declared equivalent, as a set.
    named: IndexSet<Ticket>,
}

impl Model for Bench {
    ghost Value = { BenchFields };

    ghost coded = { Prim.hlevel (
      codes,
      expr.the_row.coded,
      stmt.the_row.coded,
      element.the_row.coded,
      number.the_row.coded,
      condition.the_row.coded,
      action.the_row.coded,
    ) };

    ghost view = { λ bench. record {
      plan = bench.plan;
      tests = bench.tests;
      steps = bench.steps;
      outcomes = bench.outcomes;
      declared = bench.declared;
    } };

    ghost invariant = { λ bench. IsBench (record {
      plan = bench.plan;
      tests = bench.tests;
      steps = bench.steps;
      outcomes = bench.outcomes;
      declared = bench.declared;
    })
        × AreNamed bench.declared bench.named.keys
        × AreFollowedOn bench.plan.checked bench.steps bench.tests bench.visits.items };
}

impl Bench {
    /// Makes a bench. The mutants that are declared equivalent have their numbers in the whole
    /// lists. The program is run once on every test.
    ///
    /// Of several faults the first in this order is reported: B3 for all tests, B4 for all
    /// tests, then B5 or B6 at the first declared entry that has one, B5 before B6. Entries
    /// of operators that the plan was not asked for are passed over.
    pub fn new(
        alloc: Global,
        plan: Plan,
        tests: Values<Values<Arg>>,
        steps: u32,
        declared: Values<Ticket>,
    ) -> Result<Bench, BenchFault>
        requires { length tests ≤ most_tests }
        ensures plan { IfOk result (λ bench. bench.plan ≡ plan) }
        ensures tests { IfOk result (λ bench. bench.tests ≡ tests) }
        ensures steps { IfOk result (λ bench. bench.steps ≡ steps) }
        ensures declared { IfOk result (λ bench. bench.declared ≡ declared) }
        ensures bench { IfOk result (λ bench. IsBench bench) }
        ensures refused { IfErr result (λ fault. IsNoBench plan tests steps declared fault) }
    {
        if let Some(test) = first_misfit(&plan, tests.as_slice()) {
            return Err(BenchFault::TestShape(test));
        }
        let traces = traces_on(alloc, &plan, tests.as_slice(), steps)?;
        let named = named_by(alloc, &plan, declared.as_slice())?;
        Ok(Bench {
            plan,
            tests,
            steps,
            outcomes: Values::new(traces.outcomes),
            visits: traces.visits,
            declared,
            named,
        })
    }

    /// The plan. The call takes no memory.
    pub fn plan(&self) -> &Plan
        ensures plan { result.now ≡ self.now.plan }
        ensures bench { IsBench self.now }
    {
        &self.plan
    }

    /// The tests, in order: the values that each gives to the dummy arguments. The call takes no memory.
    pub fn tests(&self) -> &[Values<Arg>]
        ensures tests { result.now ≡ self.now.tests }
        ensures bench { IsBench self.now }
    {
        self.tests.as_slice()
    }

    /// The limit on steps, of the program and of each mutant. The call takes no memory.
    pub fn steps(&self) -> u32
        ensures { result ≡ self.now.steps }
    {
        self.steps
    }

    /// The outcome of the program on each test, in order. The call takes no memory.
    pub fn outcomes(&self) -> &[Outcome]
        ensures outcomes { result.now ≡ self.now.outcomes }
        ensures bench { IsBench self.now }
    {
        self.outcomes.as_slice()
    }

    /// For each test, where control came in the run of the program. The call takes no memory.
    pub(crate) fn visits(&self) -> &[Visits]
        ensures visits { AreFollowedOn self.now.plan.checked self.now.steps self.now.tests result.now }
        ensures bench { IsBench self.now }
    {
        &self.visits
    }

    /// Whether the mutant is declared equivalent. `ticket` has its number in the plan's list, which may be thinned. The
    /// call takes no memory.
    pub fn is_declared(&self, ticket: Ticket) -> bool
        ensures { IsTrue result ↔ IsDeclared self.now ticket }
    {
        if self.named.is_empty() {
            return false;
        }
        match u32::try_from(original_number(self.plan.every(), ticket.number)) {
            Ok(number) => self.named.contains(&Ticket {
                op: ticket.op,
                number,
            }),
            Err(_) => false,
        }
    }
}

/// The number in the whole list of an item of a list thinned by `every`, from its number there.
fn original_number(every: u32, number: u32) -> u64
    ensures { result ≡ numbers.original_number every number }
{
    u64::from(number.saturating_sub(1)) * u64::from(every) + 1
}

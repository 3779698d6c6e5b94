//! Theorems on the exchange of a plan and on reports. Each is the contract of a function that does nothing.

ghost use Rattle.std.specs.Prelude.{◌≡◌, ℕ, List};
ghost use Rattle.mothra_exchange.specs.Rule.{IsSoundExchange};
ghost use Rattle.mothra_exchange.specs.declared.view.View.{View};
ghost use Rattle.mothra_ops.specs.Plan.{PlanFields};
ghost use Rattle.mothra_verdicts.specs.Bench.{BenchFields};
ghost use Rattle.mothra_bench.specs.{IsReport, AreCounts, KeepsLists};

use f77_meaning::law::one_outcome;

/// Between any two steps of an exchange with the counts of a plan, the tickets handed out of each operator are those of
/// the first items of its list, in order, each once, and no ticket was accepted after the operator was closed.
pub fn handed_out_are_first()
    ensures { (C : ℕ) (plan : PlanFields) (counts words : List ℕ) (views : List View)
        → IsSoundExchange C counts words views → AreCounts plan counts → KeepsLists C plan words views }
{}

/// A bench has at most one report, so the report is the same for any number of workers.
pub fn one_report()
    ensures { (bench : BenchFields) (one other : List ℕ) → IsReport bench one → IsReport bench other → one ≡ other }
{
    one_outcome();
}

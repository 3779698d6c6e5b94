//! Theorems on what is served. Each is the contract of a function that only cites other laws.

ghost use Rattle.std.specs.Prelude.{◌≡◌, ℕ, Bool, Contains, List};
ghost use Rattle.clap.specs.Words.{Text};
ghost use Rattle.mothra_job.specs.Job.{job_of};
ghost use Rattle.mothra_app.specs.declared.fault.Fault.{Fault};
ghost use Rattle.mothra_app.specs.declared.status.Status.{Status};
ghost use Rattle.mothra_app.specs.declared.status.Status.TheVariants.{Report};
ghost use Rattle.mothra_verdicts.specs.Bench.{BenchFields};
ghost use Rattle.mothra_bench.specs.Feeding.{AreCounts};
ghost use Rattle.mothra_bench.specs.PlanExchange.{KeepsLists};
ghost use Rattle.mothra_verdicts.specs.Verdict.{IsItemVerdict, IsVerdict};
ghost use Rattle.mothra_cli.specs.Asking.{AsksFor};
ghost use Rattle.mothra_cli.specs.Request.{mothra_line};
ghost use Rattle.mothra_cli.specs.declared.request.Request.{Request};
ghost use Rattle.mothra_cli.specs.declared.request.Request.TheVariants.{Run};
ghost use Rattle.mothra_codes.specs.declared.op.Op.{Op};
ghost use Rattle.mothra_codes.specs.declared.ticket.Ticket.{Ticket};
ghost use Rattle.mothra_exchange.specs.Rule.{IsSoundExchange};
ghost use Rattle.mothra_exchange.specs.declared.view.View.{View};
ghost use Rattle.mothra_ops.specs.Plan.{PlanFields};
ghost use Rattle.mothra_app.specs.{faults_in_place, mothra_promise, IsFairAnswer, IsLegalJob, IsOutOfResources};
ghost use Rattle.mothra_app.specs.{IsServed, MayBeWritten, ReportsJob};

use f77_meaning::law::one_outcome;
use f77_source::law::one_reading;
use f77_syntax::law::one_program;
use mothra_bench::law::{handed_out_are_first, one_report};
use mothra_ops::law::{one_list, too_long};
use mothra_verdicts::law::verdict_of_the_item;

/// For the same words and bytes there is at most one status and one text.
pub fn one_answer()
    ensures { (words : List Text) (bytes : List ℕ) (status other : Status) (text also : List ℕ)
        → IsServed words bytes status text → IsServed words bytes other also → (status ≡ other) × (text ≡ also) }
{
    one_reading();
    one_program();
    one_outcome();
    one_list();
    too_long();
    one_report();
}

/// Words that ask `run` for another number of workers are served with the same status and the same text.
pub fn any_workers()
    ensures { (words others : List Text) (operators : List Op) (every steps workers more : ℕ) (bytes : List ℕ)
        (status other : Status) (text also : List ℕ)
        → AsksFor mothra_line words (Run operators every steps workers)
        → AsksFor mothra_line others (Run operators every steps more)
        → IsServed words bytes status text → IsServed others bytes other also → (status ≡ other) × (text ≡ also) }
{
    one_reading();
    one_program();
    one_outcome();
    one_list();
    too_long();
    one_report();
}

/// Between any two steps of an exchange for a plan, the mutants handed out of each operator are the first of its list,
/// in order, each once, and no ticket was accepted after the operator was closed. Where `run` is served with a report,
/// that report has every mutant once, with the verdict of running it alone, whatever the number of workers.
///
/// Ticket k means item k of the list, both in the exchange and in a run: a verdict of ticket k is that of the mutant
/// which item k makes.
///
/// The first clause speaks of sound words and views and not of an exchange. `exchange_of` promises, by the same
/// definition, that those of the exchange of a plan are sound between any two steps.
pub fn headline()
    ensures between_steps { (C : ℕ) (plan : PlanFields) (counts words : List ℕ) (views : List View)
        → IsSoundExchange C counts words views → AreCounts plan counts → KeepsLists C plan words views }
    ensures report { (words : List Text) (operators : List Op) (every steps workers : ℕ) (bytes text : List ℕ)
        → AsksFor mothra_line words (Run operators every steps workers) → IsServed words bytes Report text
        → ReportsJob (job_of bytes) operators every steps text }
    ensures verdict { (bench : BenchFields) (ticket : Ticket) (kills : List Bool)
        → IsVerdict bench ticket kills → IsItemVerdict bench ticket kills }
{
    handed_out_are_first();
    verdict_of_the_item();
}

/// For a legal job only its report may be written, or the line of one of eight faults, which say that memory or a
/// thread was lacking. The law does not say that it was lacking then.
pub fn no_false_refusal()
    ensures answer { (words : List Text) (bytes report : List ℕ) (status : Status) (text : List ℕ)
        → IsLegalJob words bytes report → MayBeWritten mothra_promise words bytes status text
        → IsFairAnswer words report status text }
    ensures out_of_resources { (request : Request) (fault : Fault)
        → Contains (faults_in_place mothra_promise request) fault → IsOutOfResources fault }
{
    one_answer();
}

//! The results of a worker, or of all workers: their rows, or the first fault.

ghost use Rattle.std.specs.Prelude.{◌≡◌, ◌∷◌, ◌++◌, [], None, Some, Ok, Err, IfOk, IfErr, OnOk};
ghost use Rattle.std.specs.Prelude.{IfSome, IfNone, IsOkAnd, MatchOption, MatchResult};
ghost use Rattle.mothra_verdicts.specs.Bench.{BenchFields};
ghost use Rattle.mothra_verdicts.specs.Verdict.{IsNoVerdict, IsVerdict};
ghost use Rattle.mothra_verdicts.specs.declared.fault.BenchFault.TheVariants.{Memory};
ghost use Rattle.mothra_bench.specs.code.{AddsRow};

use mothra_exchange::Ticket;
use mothra_verdicts::{BenchFault, Row, Verdicts};
use std::alloc::Global;

/// The rows so far, and the first fault.
#[derive(Drop)]
pub(crate) struct Results {
    pub(crate) rows: Vec<Row>,
    pub(crate) fault: Option<BenchFault>,
}

impl Results {
    /// No rows, and no fault.
    pub(crate) fn new(alloc: Global) -> Results
        ensures rows { result.rows.items ≡ [] }
        ensures fault { result.fault ≡ None }
    {
        Results {
            rows: Vec::new(alloc),
            fault: None,
        }
    }

    /// Runs a ticket's mutant and adds its row, unless there was a fault before. Where `verdicts` is None, there was no
    /// memory for it, and the fault is B1.
    pub(crate) fn run(&mut self, alloc: Global, verdicts: &mut Option<Verdicts<'_>>, ticket: Ticket)
        ensures row { (bench : BenchFields) → IfSome verdicts.old (λ verdicts. verdicts ≡ bench)
            → IfNone self.new.fault
            ((self.old.fault ≡ None) × AddsRow bench ticket self.old.rows.items self.new.rows.items) }
        ensures fault { (bench : BenchFields) → IfSome verdicts.old (λ verdicts. verdicts ≡ bench)
            → IfSome self.new.fault
            (λ fault. MatchOption self.old.fault (IsNoVerdict bench.plan ticket fault) (λ first. fault ≡ first)) }
        ensures verdicts { verdicts.new ≡ verdicts.old }
    {
        if self.fault.is_some() {
            return;
        }
        match row_of(alloc, verdicts, ticket) {
            Ok(row) => self.push(row),
            Err(fault) => self.fault = Some(fault),
        }
    }

    /// Adds a row; B1 where there is no memory.
    fn push(&mut self, row: Row)
        requires { self.old.fault ≡ None }
        ensures row { IfNone self.new.fault (self.new.rows.items ≡ self.old.rows.items ++ row ∷ []) }
        ensures memory { IfSome self.new.fault (λ fault. fault ≡ Memory) }
    {
        if self.rows.push(row).is_err() {
            self.fault = Some(BenchFault::Memory);
        }
    }

    /// Adds the rows of a worker, or keeps its fault, unless there was a fault before. If there
    /// is no memory for the rows, that also becomes the caller's own fault, unless it has one.
    pub(crate) fn add(
        &mut self,
        outcome: Result<Vec<Row>, BenchFault>,
        own: &mut Option<BenchFault>,
    )
        ensures rows { IfNone self.new.fault ((self.old.fault ≡ None)
            × IsOkAnd outcome (λ rows. self.new.rows.items ≡ self.old.rows.items ++ rows.items)) }
        ensures fault { IfSome self.new.fault
            (λ fault. MatchOption self.old.fault (MatchResult outcome (λ rows. fault ≡ Memory) (λ other. fault ≡ other))
            (λ first. fault ≡ first)) }
        ensures room { OnOk outcome (IfNone own.new (self.new.fault ≡ self.old.fault)) }
        ensures own { IfNone own.new (own.old ≡ None) }
        ensures memory { IfSome own.new (λ fault. MatchOption own.old (fault ≡ Memory) (λ first. fault ≡ first)) }
    {
        if self.fault.is_some() {
            return;
        }
        match outcome {
            Ok(mut rows) => {
                if self.rows.append(&mut rows).is_err() {
                    self.fault = Some(BenchFault::Memory);
                    *own = own.or(Some(BenchFault::Memory));
                }
            }
            Err(fault) => self.fault = Some(fault),
        }
    }

    /// Keeps a fault, unless there was one before.
    pub(crate) fn fail(&mut self, fault: BenchFault)
        ensures { MatchOption self.old.fault (self.new.fault ≡ Some fault) (λ first. self.new.fault ≡ Some first) }
    {
        if self.fault.is_none() {
            self.fault = Some(fault);
        }
    }

    /// The rows, or the first fault.
    pub(crate) fn outcome(self) -> Result<Vec<Row>, BenchFault>
        ensures { MatchOption self.fault (result ≡ Ok self.rows) (λ fault. result ≡ Err fault) }
    {
        let Results { rows, fault } = self;
        match fault {
            None => Ok(rows),
            Some(fault) => Err(fault),
        }
    }
}

/// The row of a ticket's mutant.
fn row_of(
    alloc: Global,
    verdicts: &mut Option<Verdicts<'_>>,
    ticket: Ticket,
) -> Result<Row, BenchFault>
    ensures ticket { IfOk result (λ row. row.ticket ≡ ticket) }
    ensures kills { IfOk result (λ row. (bench : BenchFields)
        → IfSome verdicts.old (λ verdicts. verdicts ≡ bench) → IsVerdict bench ticket row.kills) }
    ensures refused { IfErr result (λ fault. (bench : BenchFields) → IfSome verdicts.old (λ verdicts. verdicts ≡ bench)
        → IsNoVerdict bench.plan ticket fault) }
    ensures verdicts { verdicts.new ≡ verdicts.old }
{
    match verdicts {
        Some(verdicts) => verdicts.row(alloc, ticket),
        None => Err(BenchFault::Memory),
    }
}

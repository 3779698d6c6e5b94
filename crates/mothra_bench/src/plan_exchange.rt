//! The exchange of a plan.

ghost use Rattle.std.specs.Prelude.{◌≡◌, IfOk, IfErr};
ghost use Rattle.mothra_exchange.specs.Table.{IsPassOf, view_of};
ghost use Rattle.mothra_verdicts.specs.declared.fault.BenchFault.TheVariants.{Memory};
ghost use Rattle.mothra_bench.specs.{IsWhole, KeepsLists};

use mothra_exchange::{ExchangeFault, Pass, Stepwise, TableExchange};
use mothra_ops::Plan;
use mothra_verdicts::BenchFault;
use std::alloc::Global;

/// How many tickets of an operator may wait in the exchange of a plan.
pub const MOST_WAITING: u32 = 64;

/// The exchange for the mutants of a plan, in which nothing was offered, and its first pass, which is whole. Between
/// any two of its steps the mutants handed out of each operator are the first of the operator's list, in order.
pub fn exchange_of(
    alloc: Global,
    plan: &Plan,
) -> Result<(TableExchange<MOST_WAITING>, Pass), BenchFault>
    ensures own { IfOk result (λ made. IsPassOf made.0 made.1) }
    ensures whole { IfOk result (λ made. IsWhole plan.now (view_of made.1)) }
    ensures lists { IfOk result (λ made.
        ⟦<TableExchange<MOST_WAITING> as Stepwise>⟧.between made.0 (KeepsLists MOST_WAITING plan.now)) }
    ensures bound { MOST_WAITING ≡ 64 }
    ensures memory { IfErr result (λ fault. fault ≡ Memory) }
{
    match TableExchange::new(alloc, plan.counts()) {
        Ok(made) => Ok(made),
        Err(ExchangeFault::Memory) => Err(BenchFault::Memory),
        Err(ExchangeFault::CountTooLarge(_)) => unreachable!(),
    }
}

//! Theorems on verdicts. Each is the contract of a function that only cites other laws.

ghost use Rattle.std.specs.Prelude.{◌≡◌, List, Bool};
ghost use Rattle.mothra_codes.specs.declared.ticket.Ticket.{Ticket};
ghost use Rattle.mothra_verdicts.specs.{BenchFields, IsItemVerdict, IsVerdict};

use f77_meaning::law::one_outcome;

/// A verdict of ticket k is that of the mutant which item k of the operator's list makes.
pub fn verdict_of_the_item()
    ensures { (bench : BenchFields) (ticket : Ticket) (kills : List Bool)
        → IsVerdict bench ticket kills → IsItemVerdict bench ticket kills }
{}

/// A mutant has at most one verdict.
pub fn one_verdict()
    ensures { (bench : BenchFields) (ticket : Ticket) (kills others : List Bool)
        → IsVerdict bench ticket kills → IsVerdict bench ticket others
        → kills ≡ others }
{
    one_outcome();
}

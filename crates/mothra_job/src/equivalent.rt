//! The mutants that a job declares equivalent.

ghost use Rattle.std.specs.Prelude.{◌≡◌, ◌≤◌, ◌⊎◌, ℕ, Err, IfSome, Some, map};
ghost use Rattle.std.specs.Fmt.{decimal};
ghost use Rattle.serde_json.specs.View.{view as value_of};
ghost use Rattle.mothra_job.specs.Equivalent as definition;
ghost use Rattle.mothra_job.specs.declared.job.JobFault.TheVariants.{Memory};
ghost use Rattle.mothra_job.specs.{tickets_named, entry_faults, fault_or};
ghost use Rattle.mothra_job.specs.code.{Names};

use crate::job::JobFault;
use f77_meaning::Values;
use mothra_codes::{Op, Ticket};
use serde_json::Value;
use std::alloc::Global;

// The most mutants that the list of an operator may have.
const MOST_MUTANTS: u32 = 1_048_575;

/// The number of a mutant, 1 to 1,048,575, written in digits without a sign or a leading zero.
fn number(digits: &str) -> Option<u32>
    ensures known { (n : ℕ) → 1 ≤ n → n ≤ 1048575 → digits.now ≡ decimal n → result ≡ Some n }
    ensures only { IfSome result (λ n. (digits.now ≡ decimal n) × (1 ≤ n) × (n ≤ 1048575)) }
{
    if digits.starts_with('+') || digits.starts_with('0') {
        return None;
    }
    let number: u32 = digits.parse().ok()?;
    if number > MOST_MUTANTS {
        return None;
    }
    Some(number)
}

/// The mutant that a text names: the code of its operator, one blank and its number.
fn named(text: &str) -> Option<Ticket>
    ensures known { (t : Ticket) → Names text.now t → result ≡ Some t }
    ensures only { IfSome result (Names text.now) }
{
    let (code, digits) = text.split_once(' ')?;
    let op = Op::of(code)?;
    let number = number(digits)?;
    Some(Ticket { op, number })
}

/// The mutant that an entry of the list names; None where the entry is no such text.
fn entry(value: &Value) -> Option<Ticket>
    ensures { result ≡ definition.ticket_of_value (value_of value.now) }
{
    named(value.as_str()?)
}

/// The mutants that the entries name; J5 at the first entry that names none.
pub(crate) fn equivalent(alloc: Global, values: &[Value]) -> Result<Values<Ticket>, JobFault>
    ensures { let entries = map value_of values.now in
        (result ≡ fault_or (entry_faults 1 entries) (tickets_named entries)) ⊎ (result ≡ Err Memory) }
{
    let mut tickets = Vec::new(alloc);
    for (index, value) in values.iter().enumerate() {
        match entry(value) {
            Some(ticket) => tickets.push(ticket)?,
            None => return Err(JobFault::Equivalent(index + 1)),
        }
    }
    Ok(Values::new(tickets))
}

//! Which mutants of the program of a job are named as equivalent.

ghost use Rattle.std.specs.Prelude.{◌≤◌, List, Ok, IfOk, length, string_bytes};
ghost use Rattle.equivalents_app.specs.Prelude.{GivesOutcome, IsTask, of_mutants, program_of};
ghost use Rattle.equivalents_app.specs.{equivalents_promise, HasRoom, IsFound, IsNamedIn};
ghost use Rattle.f77_meaning.specs.declared.argument.Arg.{Arg as Given};

use crate::rendering::text_of;
use crate::suite::{killed_on, room_of};
use crate::words::{Inquiry, inquiry_of};
use f77_meaning::{Arg, Values};
use indexmap::IndexSet;
use mothra_app::fault::Fault;
use mothra_app::program::plan_of;
use mothra_app::{Job, Service};
use mothra_cli::WordsFault;
use mothra_codes::Ticket;
use mothra_equivalents::equivalents_of;
use mothra_ops::{OpsFault, Plan};
use mothra_verdicts::Bench;
use std::alloc::{AllocError, Global};
use std::convert::AsStr;

/// The text that names mutants of the plan: those that are proved equivalent, without those that need more than this
/// room.
fn text_for(
    alloc: Global,
    plan: &Plan,
    killed: &IndexSet<Ticket>,
    room: u32,
    inquiry: &Inquiry,
) -> Result<String, AllocError>
    ensures { IfOk result (λ text. (tests : List (List Given))
        → HasRoom (program_of plan.now) tests inquiry.now.steps room
        → IsNamedIn tests inquiry.now plan.now (Ok (string_bytes text))) }
{
    let mut found = equivalents_of(alloc, plan, killed, inquiry.rows, inquiry.steps)?;
    found.list.retain(|one| one.spare <= u64::from(room));
    text_of(alloc, plan, &found, inquiry.json)
}

/// The text that names mutants of the plan that are equivalent, as the words ask for it. Where a test does not fit, or
/// the program does not end on it, all mutants are asked about, and none is named that needs room.
fn text_in(
    alloc: Global,
    plan: Plan,
    tests: Values<Values<Arg>>,
    inquiry: &Inquiry,
) -> Result<String, AllocError>
    requires few { length tests ≤ 256 }
    ensures { IfOk result (λ text. IsNamedIn tests inquiry.now plan (Ok (string_bytes text))) }
{
    let steps = inquiry.steps;
    let Some(room) = room_of(alloc, plan.program(), tests.as_slice(), steps)? else {
        return text_for(alloc, &plan, &IndexSet::new(alloc), 0, inquiry);
    };
    // Tests that fit, on which the program ends, are refused for want of memory alone.
    let declared = Values::new(Vec::new(alloc));
    let Ok(bench) = Bench::new(alloc, plan, tests, steps, declared) else {
        return Err(AllocError);
    };
    let killed = killed_on(alloc, &bench)?;
    text_for(alloc, bench.plan(), &killed, room, inquiry)
}

/// The program `equivalents`. What it reports is `report`.
#[derive(Drop)]
pub struct Equivalents {
    /// What gives memory.
    pub alloc: Global,
}

impl Service for Equivalents {
    type Request = Inquiry;

    ghost promise = { equivalents_promise };

    fn alloc(&self) -> Global {
        self.alloc
    }

    fn request_of<S: AsStr>(&self, words: &[S]) -> Result<Inquiry, WordsFault> {
        inquiry_of(self.alloc, words)
    }
}

/// The text that names equivalent mutants of the program of a job, as the words ask for it; or the first fault.
pub fn report(alloc: Global, inquiry: &Inquiry, job: Job) -> Result<String, Fault>
    requires { IsTask equivalents_promise inquiry.now job }
    ensures { GivesOutcome string_bytes (IsFound inquiry.now job) of_mutants result }
{
    let plan = plan_of(alloc, &job, &inquiry.operators, inquiry.every)?;
    let (tests, _declared) = job.into_lists();
    match text_in(alloc, plan, tests, inquiry) {
        Ok(text) => Ok(text),
        Err(_) => Err(Fault::Ops(OpsFault::Memory)),
    }
}

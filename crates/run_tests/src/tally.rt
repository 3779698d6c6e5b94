//! What has come up in the programs and their runs.

use f77_meaning::Outcome;
use f77_program::Program;
use f77_tree::{Form, Stmt};
use std::alloc::{AllocError, Global};
use std::process::Abort;

#[derive(Drop)]
pub(crate) struct Tally {
    /// The seed of the program that is being run.
    pub(crate) seed: u64,
    programs: u32,
    /// How often each outcome came up.
    outcomes: [u32; 10],
    /// The forms of statements that came up, each once.
    forms: Vec<Form>,
}

/// The place of an outcome in the list of counts.
fn place(outcome: &Outcome) -> usize {
    match outcome {
        Outcome::Returned(_) => 0,
        Outcome::Stopped(_) => 1,
        Outcome::Overflow => 2,
        Outcome::DivideByZero => 3,
        Outcome::ZeroPower => 4,
        Outcome::BadSubscript => 5,
        Outcome::ZeroStep => 6,
        Outcome::Undefined => 7,
        Outcome::Trapped => 8,
        Outcome::StepLimit => 9,
    }
}

impl Tally {
    pub(crate) fn new(alloc: Global) -> Tally {
        Tally {
            seed: 0,
            programs: 0,
            outcomes: [0; 10],
            forms: Vec::new(alloc),
        }
    }

    pub(crate) fn note_outcome(&mut self, outcome: &Outcome) {
        if let Some(count) = self.outcomes.get_mut(place(outcome)) {
            *count = count.saturating_add(1);
        }
    }

    fn note_form(&mut self, stmt: &Stmt) -> Result<(), AllocError> {
        if !self.forms.contains(&stmt.form()) {
            self.forms.push(stmt.form())?;
        }
        Ok(())
    }

    pub(crate) fn note_program(&mut self, program: &Program) -> Result<(), AllocError> {
        self.programs = self.programs.saturating_add(1);
        for line in program.lines() {
            self.note_form(&line.stmt)?;
        }
        Ok(())
    }

    /// There were at least so many programs, statements of each form, and each outcome so often.
    pub(crate) fn assert_least(&self, rt: &impl Abort, programs: u32, often: u32) {
        let outcomes = self.outcomes;
        assert!(rt; self.programs >= programs, "{} programs", self.programs);
        assert!(rt; self.forms.len() == 19, "{:?}", self.forms);
        assert!(rt;
            outcomes.iter().all(|count| *count >= often),
            "{outcomes:?}"
        );
    }
}

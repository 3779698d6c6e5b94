//! A block of a table: a title, then words, sources, and rows. Each row is a call of a program.

use crate::answer::push_answer;
use crate::job::job_of;
use anyhow::Result;
use std::alloc::{AllocError, Global};
use std::fmt::Write;
use std::sync::Wait;
use std::thread::Threads;

/// What the next row of a block uses: the words and the source above it.
#[derive(Drop)]
pub(crate) struct Block<'a> {
    /// The words of the call, separated by blanks.
    words: &'a str,
    /// The lines of the source.
    lines: Vec<&'a str>,
    /// Whether a row has used the source: then the next line of a source begins another one.
    has_row: bool,
}

impl<'a> Block<'a> {
    /// A block with no words and no source.
    pub(crate) fn new(alloc: Global) -> Block<'a> {
        Block {
            words: "",
            lines: Vec::new(alloc),
            has_row: false,
        }
    }

    /// Begins the block that has this title.
    fn begin(&mut self, title: &str, answers: &mut String) -> Result<(), AllocError> {
        self.words = "";
        self.lines.clear();
        self.has_row = false;
        if !answers.is_empty() {
            answers.push('\n')?;
        }
        writeln!(answers, "{title}")
    }

    /// Adds a line to the source, or begins another source with it.
    fn push_source(&mut self, line: &'a str) -> Result<(), AllocError> {
        if self.has_row {
            self.lines.clear();
            self.has_row = false;
        }
        self.lines.push(line)?;
        Ok(())
    }

    /// Answers the row of this line, which has this job.
    fn push_row(
        &mut self,
        rt: &(impl AllocGlobal + Threads + Wait + Sync),
        line: &str,
        job: &str,
        answers: &mut String,
    ) -> Result<()> {
        self.has_row = true;
        writeln!(answers, "{line}")?;
        push_answer(rt, self.words, job, answers)
    }

    /// Reads a line of a table. Its first character says what it is: `#` a title, `$` words, `>` a row with statements
    /// and tests, `!` a row that is the text of a job; any other line is a line of a source.
    pub(crate) fn take(
        &mut self,
        rt: &(impl AllocGlobal + Threads + Wait + Sync),
        line: &'a str,
        answers: &mut String,
    ) -> Result<()> {
        if let Some(row) = line.strip_prefix('>') {
            let job = job_of(rt.alloc(), &self.lines, row.trim())?;
            self.push_row(rt, line, &job, answers)?;
        } else if let Some(text) = line.strip_prefix('!') {
            self.push_row(rt, line, text.strip_prefix(' ').unwrap_or(text), answers)?;
        } else if let Some(words) = line.strip_prefix('$') {
            self.words = words;
            writeln!(answers, "{line}")?;
        } else if line.starts_with('#') {
            self.begin(line, answers)?;
        } else if !line.is_empty() {
            self.push_source(line)?;
        }
        Ok(())
    }
}

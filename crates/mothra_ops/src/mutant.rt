//! Mutants, and the texts that lists and reports have of them.

ghost use Rattle.std.specs.Prelude.{◌≡◌, ◌++◌, codes, string_bytes, IfOk, OnOk, OnErr};
ghost use Rattle.f77_program.specs.Canonical.{statement_text};
ghost use Rattle.f77_tree.specs.Statement.{statement_of};
ghost use Rattle.f77_tree.specs.Replacement.{replacement_of};
ghost use Rattle.mothra_ops.specs.{copied, statements_in, IsMadeMutant, change_text, line_number_at, mutant_fields};
ghost use Rattle.mothra_ops.specs.{mutant_name, mutant_text, program_of};

use crate::copies::Copies;
use crate::edit::Edit;
use crate::plan::Plan;
use f77_check::Checked;
use f77_program::{SyntaxFault, print_stmt};
use f77_tree::{Replacement, Stmt, swap_node};
use itoa::Buffer;
use mothra_codes::Op;
use std::alloc::{AllocError, Global};
use std::snapshot::Snapshot;

/// Room for the characters of most lines about a mutant.
const LINE: usize = 96;

/// Room for the characters of most names of mutants.
const NAME: usize = 24;

/// A legal program that differs from the original in one node of one statement.
#[derive(Drop)]
pub struct Mutant {
    /// The edit that makes it.
    pub edit: Edit,
    /// The node that stands in the place of the edit's.
    pub node: Replacement,
    /// The changed statement. It is a snapshot: clauses alone read it, and it takes no memory.
    pub stmt: Snapshot<Stmt>,
    /// Whether the changed statement alone shows that the mutant is legal.
    pub is_alone: bool,
}

impl Mutant {
    /// The number of the statement that is changed, from 1. It takes no memory.
    pub fn number(&self) -> usize
        ensures { result ≡ self.now.edit.statement }
    {
        self.edit.statement
    }

    /// A copy of the node that stands in the place of the edit's.
    pub fn node(&self) -> Result<Replacement, AllocError>
        ensures { IfOk result (λ node. replacement_of node ≡ replacement_of self.now.node) }
    {
        match &self.node {
            Replacement::Statement(stmt) => Ok(Replacement::Statement(stmt.clone()?)),
            Replacement::Target(place) => Ok(Replacement::Target(place.clone()?)),
            Replacement::Expression(expr) => Ok(Replacement::Expression(expr.clone()?)),
            Replacement::Name(name) => Ok(Replacement::Name(*name)),
            Replacement::Label(label) => Ok(Replacement::Label(*label)),
            Replacement::Value(value) => Ok(Replacement::Value(*value)),
        }
    }

    /// The changed statement, made of the program's own.
    pub fn statement(&self, checked: &Checked) -> Result<Stmt, AllocError>
        requires { IsMadeMutant checked.now self.now }
        ensures statement { IfOk result (λ stmt. statement_of stmt ≡ statement_of self.now.stmt.value) }
    {
        let Some(line) = checked.program().line(self.edit.statement) else {
            unreachable!()
        };
        let mut stmt = line.stmt.clone()?;
        let mut node = self.node()?;
        swap_node(&mut stmt, self.edit.position, &mut node);
        Ok(stmt)
    }
}

impl Plan {
    /// The line number of a statement; 0 where the program has none of this number.
    fn line_number(&self, number: usize) -> u32
        ensures { result ≡ line_number_at (program_of self.now) number }
    {
        match self.program().program().line(number) {
            Some(line) => line.line,
            None => 0,
        }
    }

    /// Appends the line number of the statement that a mutant of the plan changes, and the text of the changed one.
    /// Where memory runs out, a part of it is appended.
    fn write_change(
        &self,
        text: &mut String,
        mutant: &Mutant,
        statement: &str,
    ) -> Result<(), AllocError>
        requires { statement.now ≡ statement_text (statement_of mutant.now.stmt.value) }
        ensures { OnOk result (string_bytes text.new ≡ string_bytes text.old
            ++ change_text (program_of self.now) (mutant_fields mutant.now)) }
    {
        let line = self.line_number(mutant.number());
        text.push_str("LINE ")?;
        text.push_str(Buffer::new().format(line))?;
        text.push(' ')?;
        text.push_str(statement)
    }

    /// Appends the change of a mutant of the plan: the line number of the statement, and the canonical text of the
    /// changed one.
    pub fn push_change(&self, text: &mut String, mutant: &Mutant) -> Result<(), AllocError>
        requires { IsMadeMutant self.now.checked mutant.now }
        ensures text { OnOk result (string_bytes text.new ≡ string_bytes text.old
            ++ change_text (program_of self.now) (mutant_fields mutant.now)) }
        ensures unchanged { OnErr result (string_bytes text.new ≡ string_bytes text.old) }
    {
        let alloc = *text.allocator();
        let statement = printed(alloc, &mutant.statement(self.program())?)?;
        let mut change = String::with_capacity(alloc, LINE)?;
        self.write_change(&mut change, mutant, &statement)?;
        Ok(text.push_str(&change)?)
    }

    /// Appends the line of a mutant of the plan that has this name.
    fn push_line(
        &self,
        text: &mut String,
        mutant: &Mutant,
        op: Op,
        number: u32,
        statement: &str,
    ) -> Result<(), AllocError>
        requires statement { statement.now ≡ statement_text (statement_of mutant.now.stmt.value) }
        ensures text { OnOk result (string_bytes text.new ≡ string_bytes text.old
            ++ mutant_name self.now.every op number
            ++ codes " " ++ change_text (program_of self.now) (mutant_fields mutant.now)) }
        ensures unchanged { OnErr result (string_bytes text.new ≡ string_bytes text.old) }
    {
        let mut own = name(*text.allocator(), LINE, self.every(), op, number)?;
        own.push(' ')?;
        self.write_change(&mut own, mutant, statement)?;
        Ok(text.push_str(&own)?)
    }

    /// Appends the line of the operator's mutant of this number: its name, the line number of the statement that it
    /// changes, and the canonical text of the changed statement. Nothing where the plan has no such mutant.
    pub fn push_text(&self, text: &mut String, op: Op, number: u32) -> Result<(), AllocError>
        ensures text { OnOk result (string_bytes text.new ≡ string_bytes text.old ++ mutant_text self.now op number) }
        ensures unchanged { OnErr result (string_bytes text.new ≡ string_bytes text.old) }
    {
        let Some(mutant) = self.mutant(op, number) else {
            return Ok(());
        };
        let statement = printed(*text.allocator(), &mutant.statement(self.program())?)?;
        self.push_line(text, mutant, op, number, &statement)
    }

    /// The canonical text of the statement that a mutant of the plan changes. Its node stands in the copy meanwhile.
    fn printed_in(
        &self,
        alloc: Global,
        copies: &mut Copies,
        mutant: &Mutant,
    ) -> Result<String, AllocError>
        requires made { IsMadeMutant self.now.checked mutant.now }
        requires copies { copied copies.old ≡ statements_in (program_of self.now) }
        ensures copies { copied copies.new ≡ copied copies.old }
        ensures text { IfOk result
            (λ text. string_bytes text ≡ statement_text (statement_of mutant.now.stmt.value)) }
    {
        let (number, position) = (mutant.edit.statement, mutant.edit.position);
        let mut node = mutant.node()?;
        copies.swap(number, position, &mut node);
        let Some(stmt) = copies.get(number) else {
            unreachable!()
        };
        let text = printed(alloc, stmt);
        copies.swap(number, position, &mut node);
        text
    }

    /// Appends the line of the operator's mutant of this number, as `push_text` does. Its node stands in a copy of its
    /// statement while that is printed, so no statement is copied.
    pub fn push_text_by(
        &self,
        text: &mut String,
        copies: &mut Copies,
        op: Op,
        number: u32,
    ) -> Result<(), AllocError>
        requires { copied copies.old ≡ statements_in (program_of self.now) }
        ensures text { OnOk result (string_bytes text.new ≡ string_bytes text.old ++ mutant_text self.now op number) }
        ensures unchanged { OnErr result (string_bytes text.new ≡ string_bytes text.old) }
        ensures copies { copied copies.new ≡ copied copies.old }
    {
        let Some(mutant) = self.mutant(op, number) else {
            return Ok(());
        };
        let statement = self.printed_in(*text.allocator(), copies, mutant)?;
        self.push_line(text, mutant, op, number, &statement)
    }
}

/// The canonical text of a statement.
fn printed(alloc: Global, stmt: &Stmt) -> Result<String, AllocError>
    ensures text { IfOk result (λ text. string_bytes text ≡ statement_text (statement_of stmt.now)) }
{
    match print_stmt(alloc, stmt) {
        Ok(text) => Ok(text),
        Err(SyntaxFault::Memory) => Err(AllocError),
        Err(_) => unreachable!(),
    }
}

/// Appends the name of a mutant: the operator's code, its number in the thinned list, and its number in the whole list.
/// Where memory runs out, a part of it is appended.
pub fn write_name(text: &mut String, every: u32, op: Op, number: u32) -> Result<(), AllocError>
    ensures { OnOk result (string_bytes text.new ≡ string_bytes text.old ++ mutant_name every op number) }
{
    let original = u64::from(number.saturating_sub(1)) * u64::from(every) + 1;
    let mut digits = Buffer::new();
    text.push_str(op.code())?;
    text.push(' ')?;
    let shown = digits.format(number);
    text.push_str(shown)?;
    text.push(' ')?;
    if original == u64::from(number) {
        return text.push_str(shown);
    }
    text.push_str(digits.format(original))
}

/// The name of a mutant, in a text with room for so many characters.
fn name(alloc: Global, room: usize, every: u32, op: Op, number: u32) -> Result<String, AllocError>
    ensures { IfOk result (λ name. string_bytes name ≡ mutant_name every op number) }
{
    let mut name = String::with_capacity(alloc, room)?;
    write_name(&mut name, every, op, number)?;
    Ok(name)
}

/// Appends the name of a mutant.
pub fn push_name(text: &mut String, every: u32, op: Op, number: u32) -> Result<(), AllocError>
    ensures text { OnOk result (string_bytes text.new ≡ string_bytes text.old ++ mutant_name every op number) }
    ensures unchanged { OnErr result (string_bytes text.new ≡ string_bytes text.old) }
{
    // The contract of `write!` does not say what a refusal leaves.
    let name = name(*text.allocator(), NAME, every, op, number)?;
    text.push_str(&name)
}

//! Cards read as a program: `parse`.

ghost use Rattle.std.specs.Prelude.{◌≡◌, ◌≢◌, ◌≤◌, ◌⊎◌, List, ◌∷◌, true};
ghost use Rattle.std.specs.Prelude.{IfOk, IfErr, MatchResult, map, Some, None, Err};
ghost use Rattle.f77_source.specs.Card.{CardFields};
ghost use Rattle.f77_tree.specs.StatementGrammar.{SpellsStatement};
ghost use Rattle.f77_program.specs.Group.{group_of, may_stand};
ghost use Rattle.f77_tree.specs.Limits.{most_nodes, statement_constants, statement_nodes};
ghost use Rattle.f77_program.specs.Program.{IsProgram, LineFields, line_of};
ghost use Rattle.f77_tree.specs.Statement.{Statement, statement_of};
ghost use Rattle.f77_program.specs.declared.group.Group.TheVariants.{End};
ghost use Rattle.f77_syntax.specs.{IsAdmitted, IsCardRefused, IsFirstSyntaxFault, AreLines, misplaced_statement};
ghost use Rattle.f77_syntax.specs.{unfinished};
ghost use Rattle.f77_syntax.specs.code.{IsOutside, clip_statement};

use crate::classification::{MOST_CHARACTERS, character_count, is_too_deep};
use crate::fault::ReadError;
use crate::statement::statement;
use f77_program::{Group, Line, Program, SyntaxFault, group_of, is_end, is_formed};
use f77_source::Card;
use f77_tree::{Shared, Stmt, are_small, nodes};
use std::alloc::Global;

const MOST_NODES: usize = 200;

/// The statement that a text spells, or Unknown if it spells none.
fn spelled(alloc: Global, line: u32, text: &[u8]) -> Result<Stmt, SyntaxFault>
    ensures { MatchResult result
        (λ stmt. (s : Statement) × SpellsStatement text.now s × (statement_of stmt ≡ clip_statement s))
        (λ fault. (fault ≡ SyntaxFault.Memory)
        ⊎ ((fault ≡ SyntaxFault.Unknown line) × ((s : Statement) → ¬ (SpellsStatement text.now s)))) }
{
    match statement(alloc, text) {
        Ok(stmt) => Ok(stmt),
        Err(ReadError::Memory) => Err(SyntaxFault::Memory),
        Err(ReadError::Unknown) => Err(SyntaxFault::Unknown(line)),
    }
}

/// Whether the constants and labels of a statement are in range, and whether it has at most 200 nodes.
fn within_limits(alloc: Global, line: u32, stmt: &Stmt) -> Result<(), SyntaxFault>
    ensures constants { IfOk result (λ _. statement_constants (statement_of stmt.now) ≡ true) }
    ensures few { IfOk result (λ _. statement_nodes (statement_of stmt.now) ≤ most_nodes) }
    ensures refused { IfErr result (λ fault. IsOutside line (statement_of stmt.now) fault) }
{
    let list = nodes(alloc, stmt)?;
    if !are_small(&list) {
        return Err(SyntaxFault::BadConstant(line));
    }
    let count = list.as_slice().len();
    if count > MOST_NODES {
        return Err(SyntaxFault::TooLong(line));
    }
    Ok(())
}

/// The statement that a text spells within all limits.
fn admitted(alloc: Global, line: u32, text: &str) -> Result<Stmt, SyntaxFault>
    ensures { MatchResult result
        (λ stmt. IsAdmitted text.now (statement_of stmt))
        (λ fault. (fault ≡ SyntaxFault.Memory) ⊎ IsCardRefused line text.now fault) }
{
    if character_count(text) > MOST_CHARACTERS {
        return Err(SyntaxFault::TooLong(line));
    }
    let bytes = text.as_bytes();
    if is_too_deep(bytes) {
        return Err(SyntaxFault::TooDeep(line));
    }
    let stmt = spelled(alloc, line, bytes)?;
    // The text spells it: where it is not formed, a name is too long.
    if !is_formed(&stmt) {
        return Err(SyntaxFault::BadName(line));
    }
    within_limits(alloc, line, &stmt)?;
    Ok(stmt)
}

/// The fault of a statement that may not stand here.
fn misplaced(before: Option<Group>, line: u32) -> SyntaxFault
    ensures { result ≡ misplaced_statement before line }
{
    match before {
        None => SyntaxFault::NoSubroutine,
        Some(_) => SyntaxFault::Unknown(line),
    }
}

/// The statement of a card, which stands behind a statement of the group `before`, or first where that is None.
fn in_place(alloc: Global, before: Option<Group>, card: &Card) -> Result<Stmt, SyntaxFault>
    ensures { MatchResult result
        (λ stmt. IsAdmitted card.now.text (statement_of stmt)
        × (may_stand before (group_of (statement_of stmt)) ≡ true))
        (λ fault. (fault ≡ SyntaxFault.Memory)
        ⊎ ((cards : List CardFields) → IsFirstSyntaxFault before (card.now ∷ cards) fault)) }
{
    if is_end(before) {
        return Err(SyntaxFault::AfterEnd(card.line()));
    }
    let stmt = admitted(alloc, card.line(), card.text())?;
    if !group_of(&stmt).may_stand(before) {
        return Err(misplaced(before, card.line()));
    }
    Ok(stmt)
}

/// The program of these lines, the last of which is of the group `last`.
fn finished(lines: Vec<Shared<Line>>, last: Option<Group>) -> Result<Program, SyntaxFault>
    requires { last ≡ Some End → IsProgram None (map line_of lines.items) }
    ensures { MatchResult result
        (λ program. (program ≡ lines.items) × (last ≡ Some End))
        (λ fault. (last ≢ Some End) × (fault ≡ unfinished last)) }
{
    match last {
        Some(Group::End) => Ok(Program::from_lines(lines)),
        Some(_) => Err(SyntaxFault::NoEnd),
        None => Err(SyntaxFault::NoSubroutine),
    }
}

/// The program that the cards are: the statement of each card's text, in order (ANSI X3.9-1978, 3.5).
///
/// The first card with a fault is reported, with the first of its faults in this order: AfterEnd; TooLong for the
/// length of its text; TooDeep; Unknown where it spells no statement; BadName; BadConstant; TooLong for its nodes;
/// NoSubroutine or Unknown for its place. NoEnd, and NoSubroutine where there is no card, come last.
pub fn parse(alloc: Global, cards: &[Card]) -> Result<Program, SyntaxFault>
    // What is read.
    ensures lines { IfOk result (λ program. AreLines None cards.now (map line_of program)) }
    ensures accepts { (lines : List LineFields) → AreLines None cards.now lines
        → MatchResult result (λ program. map line_of program ≡ lines) (λ fault. fault ≡ SyntaxFault.Memory) }

    // What is refused.
    ensures refused { IfErr result (λ fault. (fault ≡ SyntaxFault.Memory) ⊎ IsFirstSyntaxFault None cards.now fault) }
    ensures first_fault { (fault : SyntaxFault) → IsFirstSyntaxFault None cards.now fault
        → (result ≡ Err fault) ⊎ (result ≡ Err SyntaxFault.Memory) }
{
    let mut lines = Vec::new(alloc);
    let mut last = None;
    for card in cards {
        let stmt = in_place(alloc, last, card)?;
        last = Some(group_of(&stmt));
        let line = Line {
            label: card.label(),
            stmt,
            line: card.line(),
        };
        lines.push(Shared::new(alloc, line)?)?;
    }
    finished(lines, last)
}

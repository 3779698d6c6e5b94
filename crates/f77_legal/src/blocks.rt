//! The table of blocks: where each block IF and each branch ends, and which statements stand in a block.
//!
//! An end is found by counting the block IFs and END IFs in between, not by a stack. A block IF without END IF begins
//! no branch: the statements behind it are judged as if the block were not there, and its own line is reported first.

ghost use Rattle.std.specs.Prelude.{◌≡◌, ◌+◌, ◌<◌, ◌^◌, ◌&&◌, ◌||◌, ◌==◌};
ghost use Rattle.std.specs.Prelude.{ℕ, false, nat_lt, List, length, map, take, slice_index_or, Some, None, IfOk};
ghost use Rattle.std.specs.Prelude.{if◌then◌else◌, is_some};
ghost use Rattle.std.specs.Option.{option_map_or};
ghost use Rattle.f77_program.specs.Program.{LineFields, line_of};
ghost use Rattle.f77_tree.specs.Statement.{statement_of};
ghost use Rattle.f77_legal.specs.Blocks as words;
ghost use Rattle.f77_legal.specs.BlockTable as table;
ghost use Rattle.f77_legal.specs.code.BlockTable as table_code;
ghost use Rattle.f77_legal.specs.{statement_behind, branch_holds, breaks_block, IsBlockTable, nth_statement};
ghost use Rattle.f77_legal.specs.code.{is_end_among, is_before_end};

use f77_program::Line;
use f77_tree::{Form, Shared, Stmt};
use std::alloc::{AllocError, Global};

/// What begins at a statement and has an end that is looked for: a whole block, or a branch of one.
#[derive(Clone, Copy)]
enum Extent {
    Block,
    Branch,
}

/// The blocks and branches of a program (ANSI X3.9-1978, 11.6 to 11.9). Each list has an entry for each statement, in
/// order.
#[derive(Drop)]
pub struct Blocks {
    /// For a block IF its END IF.
    pub(crate) ends: Vec<Option<usize>>,
    /// For an ELSE the statement that ends its branch.
    pub(crate) else_ends: Vec<Option<usize>>,
    /// For a statement that begins a branch, the statement that ends the branch.
    pub(crate) branch_ends: Vec<Option<usize>>,
}

fn is_block_if(stmt: &Stmt) -> bool
    ensures { result ≡ words.is_block_if (statement_of stmt.now) }
{
    matches!(stmt.form(), Form::BlockIf)
}

fn is_end_if(stmt: &Stmt) -> bool
    ensures { result ≡ words.is_end_if (statement_of stmt.now) }
{
    matches!(stmt, Stmt::EndIf)
}

fn is_else(stmt: &Stmt) -> bool
    ensures { result ≡ words.is_else (statement_of stmt.now) }
{
    matches!(stmt, Stmt::Else)
}

pub(crate) fn is_alternative(stmt: &Stmt) -> bool
    ensures { result ≡ words.is_alternative (statement_of stmt.now) }
{
    matches!(stmt.form(), Form::ElseIf | Form::Else)
}

impl Extent {
    fn stops(self, stmt: &Stmt) -> bool
        ensures { result ≡ table_code.stops self (statement_of stmt.now) }
    {
        match self {
            Extent::Block => is_end_if(stmt),
            Extent::Branch => is_end_if(stmt) || is_alternative(stmt),
        }
    }

    /// Whether the statement ends the block or the branch, where `depth` further blocks are open.
    fn ends(self, stmt: &Stmt, depth: usize) -> bool
        ensures { result ≡ ((depth == 0) && table_code.stops self (statement_of stmt.now)) }
    {
        depth == 0 && self.stops(stmt)
    }
}

/// The number of blocks that are open behind the statement.
fn depth_behind(stmt: &Stmt, depth: usize) -> usize
    requires { depth + 1 < 2 ^ 64 }
    ensures { result ≡ table_code.depth_behind (statement_of stmt.now) depth }
{
    if is_block_if(stmt) {
        return depth + 1;
    }
    if is_end_if(stmt) {
        return depth.saturating_sub(1);
    }
    depth
}

/// The statement with this number, counted from 0.
pub fn statement(lines: &[Shared<Line>], i: usize) -> &Stmt
    requires { i < length lines.now }
    ensures { nth_statement (map line_of lines.now) i ≡ Some (statement_of result.now) }
{
    &lines[i].stmt
}

/// The end of the block or of the branch that begins at the statement `start`.
#[tactic(auto, using(crate::proofs::BlockScan::scan_start))]
fn end_of(lines: &[Shared<Line>], extent: Extent, start: usize) -> Option<usize>
    requires { start < length lines.now }
    ensures { result ≡ table_code.end_of (map line_of lines.now) extent start }
{
    let mut depth: usize = 0;
    for j in start + 1..lines.len() {
        let stmt = statement(lines, j);
        if extent.ends(stmt, depth) {
            return Some(j);
        }
        depth = depth_behind(stmt, depth);
    }
    None
}

/// The end of the block or of the branch that begins at the statement `i`, if one begins there.
fn end_if(lines: &[Shared<Line>], extent: Extent, i: usize, begins: bool) -> Option<usize>
    requires { i < length lines.now }
    ensures { result ≡ if begins then table_code.end_of (map line_of lines.now) extent i else None }
{
    if !begins {
        return None;
    }
    end_of(lines, extent, i)
}

/// The statement behind this one: the next, or the END IF of the block where the next is an ELSE IF or ELSE (11.6 to
/// 11.9).
#[tactic(auto, using(crate::proofs::BlockScan::block_end_is))]
pub fn next(lines: &[Shared<Line>], i: usize) -> Option<usize>
    requires { i < length lines.now }
    ensures { result ≡ statement_behind (map line_of lines.now) i }
{
    match lines.get(i + 1) {
        Some(line) if is_alternative(&line.stmt) => end_of(lines, Extent::Block, i + 1),
        _ => Some(i + 1),
    }
}

/// The end for the statement `i`. None past the last statement.
pub(crate) fn end_in(ends: &[Option<usize>], i: usize) -> Option<usize>
    ensures { result ≡ slice_index_or ends.now i None }
{
    ends.get(i).copied().flatten()
}

/// Whether the statement `i` is one of the ends.
fn is_end(ends: &[Option<usize>], i: usize) -> bool
    ensures { result ≡ is_end_among ends.now i }
{
    ends.iter().any(|end| end.is_some_and(|place| place == i))
}

/// Whether a statement before `i` has its end behind `i`.
fn is_inside(ends: &[Option<usize>], i: usize) -> bool
    ensures { result ≡ is_before_end (take i ends.now) i }
{
    ends.iter()
        .take(i)
        .any(|end| end.is_some_and(|place| i < place))
}

/// Whether the statement `i` begins a branch. `end` is its END IF if it is a block IF, and `ends` has those of the
/// statements before it.
fn begins_branch(stmt: &Stmt, end: Option<usize>, ends: &[Option<usize>], i: usize) -> bool
    ensures { result ≡ (is_some end
        || (words.is_alternative (statement_of stmt.now) && is_before_end (take i ends.now) i)) }
{
    end.is_some() || (is_alternative(stmt) && is_inside(ends, i))
}

impl Blocks {
    /// The table of these lines.
    pub(crate) fn of(alloc: Global, lines: &[Shared<Line>]) -> Result<Blocks, AllocError>
        ensures { IfOk result (λ blocks. IsBlockTable blocks (map line_of lines.now)) }
    {
        let mut ends = Vec::with_capacity(alloc, lines.len())?;
        let mut else_ends = Vec::with_capacity(alloc, lines.len())?;
        let mut branch_ends = Vec::with_capacity(alloc, lines.len())?;
        for i in 0..lines.len() {
            let stmt = statement(lines, i);
            let end = end_if(lines, Extent::Block, i, is_block_if(stmt));
            let begins = begins_branch(stmt, end, &ends, i);
            else_ends.push(end_if(lines, Extent::Branch, i, is_else(stmt)))?;
            branch_ends.push(end_if(lines, Extent::Branch, i, begins))?;
            ends.push(end)?;
        }
        Ok(Blocks {
            ends,
            else_ends,
            branch_ends,
        })
    }

    fn is_misplaced(&self, stmt: &Stmt, i: usize) -> bool
        ensures { result ≡ table_code.is_misplaced self.now (statement_of stmt.now) i }
    {
        if is_block_if(stmt) {
            return end_in(&self.ends, i).is_none();
        }
        if is_end_if(stmt) {
            return !is_end(&self.ends, i);
        }
        is_alternative(stmt) && (!is_inside(&self.ends, i) || is_end(&self.else_ends, i))
    }

    /// Whether the statement with this number is a block IF, ELSE IF, ELSE or END IF that is not nested (11.6 to 11.9).
    pub(crate) fn breaks(&self, lines: &[Shared<Line>], i: usize) -> bool
        ensures { IsBlockTable self.now (map line_of lines.now) → result ≡ breaks_block (map line_of lines.now) i }
    {
        if i >= lines.len() {
            return false;
        }
        self.is_misplaced(statement(lines, i), i)
    }

    /// The statement that ends the branch which this statement begins. None if it begins no branch.
    pub fn branch_end(&self, i: usize) -> Option<usize>
        ensures value { (program : List LineFields)
            → IsBlockTable self.now program → result ≡ table.branch_end_at program i }
        ensures holds { (program : List LineFields) (k : ℕ) → IsBlockTable self.now program
            → (nat_lt i k && option_map_or (nat_lt k) result false) ≡ branch_holds program i k }
    {
        end_in(&self.branch_ends, i)
    }
}

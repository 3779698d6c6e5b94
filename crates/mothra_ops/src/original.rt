//! The program that mutants are made of.

ghost use Rattle.std.specs.Prelude.{◌≡◌};
ghost use Rattle.std.specs.Coded.{Coded-set};

use crate::copies::Copies;
use crate::edit::Edit;
use crate::mutant::Mutant;
use crate::node_lists::NodeLists;
use f77_check::{CheckFault, Checked};
use f77_tree::{Replacement, Stmt};
use mothra_replacements::{Pools, gives};
use std::alloc::{AllocError, Global};
use std::mem;
use std::snapshot::Snapshot;

/// A checked program, with what the operators draw from it.
#[derive(Drop)]
pub(crate) struct Original<'a> {
    pub(crate) checked: &'a Checked,
    pub(crate) pools: Pools,
    pub(crate) nodes: NodeLists<'a>,
    ghost numbered: { nodes ≡ checked.now.program } by { Coded-set nodes-code nodes checked.now.program },
}

impl<'a> Original<'a> {
    ghost use Rattle.std.specs.Prelude.{◌<◌, ◌+◌, ◌-◌, ◌^◌, true, length, map, option_map};
    ghost use Rattle.std.specs.Prelude.{Some, IfOk, IfNone, IfSome};
    ghost use Rattle.f77_legal.specs.Alone.{StandsAlone};
    ghost use Rattle.f77_program.specs.Patching.{Fits};
    ghost use Rattle.f77_tree.specs.Replacement.{replacement_of};
    ghost use Rattle.f77_tree.specs.Sites.{changed};
    ghost use Rattle.f77_tree.specs.Statement.{Statement, statement_of};
    ghost use Rattle.mothra_ops.specs.code.Edits.{IsMadeBy};
    ghost use Rattle.mothra_ops.specs.Edits.{IsMutant, made};
    ghost use Rattle.mothra_ops.specs.Copies.{copied, statements_in};
    ghost use Rattle.mothra_ops.specs.Made.{IsMadeMutant};
    ghost use Rattle.mothra_ops.specs.code.Original.{HasStatement, candidates_at};
    ghost use Rattle.mothra_ops.specs.code.Drawn.{IsOriginal, lines_of};
    ghost use Rattle.mothra_replacements.specs.Pools.{pools_of};
    ghost use Rattle.mothra_replacements.specs.Pools.{pool_fields};

    pub(crate) fn of(alloc: Global, checked: &'a Checked) -> Result<Original<'a>, AllocError>
        ensures original { IfOk result (λ original. IsOriginal original) }
        ensures program { IfOk result (λ original. original.checked.now ≡ checked.now) }
    {
        let lines = checked.program().lines();
        let pools = Pools::of(alloc, lines, checked.labels()?)?;
        let nodes = NodeLists::of(alloc, lines)?;
        Ok(Original {
            checked,
            pools,
            nodes,
        })
    }

    /// Copies of the statements of the program.
    pub(crate) fn copies(&self, alloc: Global) -> Result<Copies, AllocError>
        ensures copies { IfOk result (λ copies. copied copies ≡ statements_in (lines_of self.now)) }
    {
        Copies::of(alloc, self.checked.program().lines())
    }

    /// Judges a statement in the place of the one of this number, which is `old`. Where it makes a mutant, the answer
    /// says whether the statement alone shows that the mutant is legal; None where it makes none.
    fn judged(&self, number: usize, old: &Stmt, made: &Stmt) -> Result<Option<bool>, AllocError>
        requires old { HasStatement (lines_of self.now) number (statement_of old.now) }
        requires fits { Fits (lines_of self.now) number (statement_of made.now) }
        ensures mutant { IfOk result
            (λ answer. IfSome answer
            (λ _. IsMutant (lines_of self.now) number (statement_of made.now))) }
        ensures alone { IfOk result (λ answer. IfSome answer (λ is_alone. is_alone ≡ true
            → StandsAlone self.now.checked.now.names (lines_of self.now) (number - 1) (statement_of made.now))) }
        ensures none { IfOk result
            (λ answer. IfNone answer
            (¬ (IsMutant (lines_of self.now) number (statement_of made.now)))) }
    {
        if made == old {
            return Ok(None);
        }
        match self.checked.judge(number, made) {
            Ok(is_alone) => Ok(Some(is_alone)),
            Err(CheckFault::Memory) => Err(AllocError),
            Err(_) => Ok(None),
        }
    }

    /// The mutant that the edit makes with this node, if it makes one. The mutant keeps the node.
    pub(crate) fn mutant_by(
        &self,
        edit: Edit,
        node: &mut Replacement,
        copies: &mut Copies,
    ) -> Result<Option<Mutant>, AllocError>
        requires original { IsOriginal self.now }
        requires copies { copied copies.old ≡ statements_in (lines_of self.now) }
        requires position { edit.position + 1 < 2 ^ 64 }
        requires made { (s : Statement) → HasStatement (lines_of self.now) edit.statement s
            → made (pools_of (lines_of self.now)) (lines_of self.now) edit
            ≡ Some (changed s edit.position (replacement_of node.old)) }
        ensures mutant { IfOk result
            (λ found. IfSome found (λ mutant. (mutant.edit ≡ edit) × IsMadeMutant self.now.checked.now mutant)) }
        ensures none { IfOk result (λ found. IfNone found
            ((s : Statement) → HasStatement (lines_of self.now) edit.statement s
            → ¬ (IsMutant (lines_of self.now) edit.statement (changed s edit.position (replacement_of node.old))))) }
        ensures same { copied copies.new ≡ copied copies.old }
    {
        let Some(line) = self.checked.program().line(edit.statement) else {
            return Ok(None);
        };
        copies.swap(edit.statement, edit.position, node);
        let Some(made) = copies.get(edit.statement) else {
            unreachable!()
        };
        let stmt = Snapshot::of(made);
        // That what an operator makes may stand there is `law::legal_members`.
        let judged = self.judged(edit.statement, &line.stmt, made);
        copies.swap(edit.statement, edit.position, node);
        match judged? {
            Some(is_alone) => Ok(Some(Mutant {
                edit,
                node: mem::replace(node, Replacement::Label(0)),
                stmt,
                is_alone,
            })),
            None => Ok(None),
        }
    }

    /// What the edit's operator puts in the place of the edit's node, in the order of the ranks. The list is empty if
    /// there is no such node.
    pub(crate) fn candidates(
        &self,
        alloc: Global,
        edit: &Edit,
    ) -> Result<Vec<Replacement>, AllocError>
        ensures list { IfOk result (λ list. map replacement_of list.items
            ≡ candidates_at (pool_fields self.now.pools) (lines_of self.now) edit.now.op
            edit.now.statement edit.now.position) }
        ensures counted { IfOk result (λ list. 0 < length list.items → edit.now.position + 1 < 2 ^ 64) }
    {
        let Some(line) = self.checked.program().line(edit.statement) else {
            return Ok(Vec::new(alloc));
        };
        match self.nodes.node(edit.statement, edit.position) {
            Some(node) => gives(alloc, edit.op, &self.pools, &line.stmt, node),
            None => Ok(Vec::new(alloc)),
        }
    }

    /// The mutant that the edit makes, if it makes one.
    pub(crate) fn mutant(
        &self,
        alloc: Global,
        edit: &Edit,
        copies: &mut Copies,
    ) -> Result<Option<Mutant>, AllocError>
        requires original { IsOriginal self.now }
        requires copies { copied copies.old ≡ statements_in (lines_of self.now) }
        ensures made { IfOk result (λ found. IsMadeBy (lines_of self.now) edit.now
            (option_map (λ mutant. statement_of mutant.stmt.value) found)) }
        ensures own { IfOk result (λ found. IfSome found
            (λ mutant. (mutant.edit ≡ edit.now) × IsMadeMutant self.now.checked.now mutant)) }
    {
        let mut candidates = self.candidates(alloc, edit)?;
        if edit.rank == 0 || edit.rank > candidates.len() {
            return Ok(None);
        }
        self.mutant_by(*edit, &mut candidates[edit.rank - 1], copies)
    }
}

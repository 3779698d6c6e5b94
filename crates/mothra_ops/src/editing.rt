//! The list of an operator's edits, and the program that an edit makes.
//!
//! Three loops, over statements, nodes and replacements, have one invariant: the members before this place, in order,
//! are what was found so far (`HasCome`).

ghost use Rattle.std.specs.Prelude.{◌≡◌, ◌<◌, ◌≤◌, ◌+◌, ◌^◌, ◌⊎◌, map, All, OnOk, IfOk};
ghost use Rattle.std.specs.Prelude.{IfErr};
ghost use Rattle.f77_program.specs.Program.{line_of};
ghost use Rattle.f77_program.specs.Patching.{patched};
ghost use Rattle.f77_tree.specs.Statement.{statement_of};
ghost use Rattle.mothra_replacements.specs.declared.fault.OpsFault.TheVariants.{Memory, NotASite};
ghost use Rattle.mothra_ops.specs.{IsCountedList, IsList, IsMember, IsNoList, edits_in, copied, statements_in};
ghost use Rattle.mothra_ops.specs.{IsMadeMutant};
ghost use Rattle.mothra_ops.specs.code.{HasCome, HasStatement, IsSiteOf, IsOriginal, lines_of};

use crate::copies::Copies;
use crate::edit::Edit;
use crate::listing::{Limits, Listing};
use crate::original::Original;
use crate::site::Site;
use f77_check::Checked;
use f77_tree::Stmt;
use mothra_codes::Op;
use mothra_replacements::{OpsFault, gives};
use std::alloc::Global;

impl Original<'_> {
    /// Adds the mutants of one node to the list.
    fn list_site(
        &self,
        alloc: Global,
        site: Site<'_>,
        listing: &mut Listing,
        copies: &mut Copies,
    ) -> Result<(), OpsFault>
        requires original { IsOriginal self.now }
        requires copies { copied copies.old ≡ statements_in (lines_of self.now) }
        requires every { 1 ≤ listing.now.every }
        requires position { site.position + 1 < 2 ^ 64 }
        requires site { IsSiteOf (lines_of self.now) site }
        ensures copies { copied copies.new ≡ copied copies.old }
        ensures same_op { listing.new.op ≡ listing.old.op }
        ensures same_every { listing.new.every ≡ listing.old.every }
        ensures made { OnOk result (All (IsMadeMutant self.now.checked.now) listing.old.mutants.items
            → All (IsMadeMutant self.now.checked.now) listing.new.mutants.items) }
        ensures come { OnOk result (HasCome listing.old (lines_of self.now) site.entry.number site.entry.position 0
            → HasCome listing.new (lines_of self.now) site.entry.number (site.entry.position + 1) 0) }
        ensures refused { IfErr result
            (λ fault. HasCome listing.old (lines_of self.now) site.entry.number site.entry.position 0
            → IsNoList listing.old.op (lines_of self.now) listing.old.every fault) }
    {
        let mut replacements = gives(alloc, listing.op, &self.pools, site.stmt, site.node)?;
        for k in 0..replacements.len() {
            let edit = Edit {
                op: listing.op,
                statement: site.number,
                position: site.position,
                rank: k + 1,
            };
            if let Some(mutant) = self.mutant_by(edit, &mut replacements[k], copies)? {
                listing.add(mutant)?;
            }
        }
        Ok(())
    }

    /// Adds the mutants of one statement to the list.
    fn list_statement(
        &self,
        alloc: Global,
        number: usize,
        stmt: &Stmt,
        listing: &mut Listing,
        copies: &mut Copies,
    ) -> Result<(), OpsFault>
        requires original { IsOriginal self.now }
        requires copies { copied copies.old ≡ statements_in (lines_of self.now) }
        requires every { 1 ≤ listing.now.every }
        requires statement { HasStatement (lines_of self.now) number (statement_of stmt.now) }
        ensures copies { copied copies.new ≡ copied copies.old }
        ensures same_op { listing.new.op ≡ listing.old.op }
        ensures same_every { listing.new.every ≡ listing.old.every }
        ensures made { OnOk result (All (IsMadeMutant self.now.checked.now) listing.old.mutants.items
            → All (IsMadeMutant self.now.checked.now) listing.new.mutants.items) }
        ensures come { OnOk result (HasCome listing.old (lines_of self.now) number 0 0
            → HasCome listing.new (lines_of self.now) (number + 1) 0 0) }
        ensures refused { IfErr result (λ fault. HasCome listing.old (lines_of self.now) number 0 0
            → IsNoList listing.old.op (lines_of self.now) listing.old.every fault) }
    {
        let Some(nodes) = self.nodes.at(number) else {
            return Ok(());
        };
        for position in 0..nodes.len() {
            let site = Site {
                number,
                stmt,
                position,
                node: nodes[position],
            };
            self.list_site(alloc, site, listing, copies)?;
        }
        Ok(())
    }

    /// The operator's whole list, thinned.
    pub(crate) fn listing(
        &self,
        alloc: Global,
        op: Op,
        every: u32,
        copies: &mut Copies,
    ) -> Result<Listing, OpsFault>
        requires original { IsOriginal self.now }
        requires copies { copied copies.old ≡ statements_in (lines_of self.now) }
        requires every { 1 ≤ every }
        ensures copies { copied copies.new ≡ copied copies.old }
        ensures op { IfOk result (λ listing. listing.op ≡ op) }
        ensures made { IfOk result (λ listing. All (IsMadeMutant self.now.checked.now) listing.mutants.items) }
        ensures list { IfOk result
            (λ listing. IsCountedList op (lines_of self.now) every (edits_in listing) listing.whole) }
        ensures refused { IfErr result (λ fault. IsNoList op (lines_of self.now) every fault) }
    {
        let mut listing = Listing::new(alloc, op, every, Limits::of_lists());
        let lines = self.checked.program().lines();
        for i in 0..lines.len() {
            self.list_statement(alloc, i + 1, &lines[i].stmt, &mut listing, copies)?;
        }
        Ok(listing)
    }
}

/// The edits of the operator's list, in the order of statement, position and rank,
/// thinned: of the whole list its items 1, `every` + 1, 2 * `every` + 1 and on.
///
/// It is refused where the thinned list has over 1,048,575 edits, or the whole list over 4,294,967,295.
pub fn edits(alloc: Global, checked: &Checked, op: Op, every: u32) -> Result<Vec<Edit>, OpsFault>
    requires { 1 ≤ every }
    ensures list { IfOk result (λ edits. IsList op (map line_of checked.now.program) every edits.items) }
    ensures refused { IfErr result (λ fault. IsNoList op (map line_of checked.now.program) every fault) }
{
    let original = Original::of(alloc, checked)?;
    let mut copies = original.copies(alloc)?;
    let listing = original.listing(alloc, op, every, &mut copies)?;
    let mut edits = Vec::with_capacity(alloc, listing.mutants.len())?;
    for mutant in &listing.mutants {
        edits.push(mutant.edit)?;
    }
    Ok(edits)
}

/// The program that an edit of the whole list makes, checked. Every other edit is refused.
pub fn apply(alloc: Global, checked: &Checked, edit: &Edit) -> Result<Checked, OpsFault>
    ensures program { let program = map line_of checked.now.program in IfOk result
        (λ made. (member : IsMember edit.now.op program edit.now)
        × (map line_of made.program ≡ patched program edit.now.statement member.statement)) }
    ensures refused { IfErr result
        (λ fault. (fault ≡ Memory)
        ⊎ ((fault ≡ NotASite) × ¬ (IsMember edit.now.op (map line_of checked.now.program) edit.now))) }
{
    let original = Original::of(alloc, checked)?;
    let mut copies = original.copies(alloc)?;
    let Some(mutant) = original.mutant(alloc, edit, &mut copies)? else {
        return Err(OpsFault::NotASite);
    };
    let stmt = mutant.statement(checked)?;
    Ok(checked.with_statement(edit.statement, &stmt, mutant.is_alone)?)
}

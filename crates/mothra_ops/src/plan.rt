//! Plans: the mutants of a program, for the operators that are asked for.
//!
//! Each mutant is made and judged once. A plan keeps its node, and not the changed statement.

ghost use Rattle.std.specs.Prelude.{◌≡◌, ◌↔◌, ◌≤◌, map, length, option_map, All, Contains, IfOk, IfErr, IfSome, IsTrue};
ghost use Rattle.std.specs.Coded.{codes};
ghost use Rattle.f77_check.specs.Checked.{shapes};
ghost use Rattle.f77_program.specs.Patching.{patched};
ghost use Rattle.f77_program.specs.Program.{line_of};
ghost use Rattle.f77_tree.specs.Statement.{statement_of};
ghost use Rattle.f77_tree.specs.contracts.tree.Expr as expr;
ghost use Rattle.f77_tree.specs.contracts.statement.Stmt as stmt;
ghost use Rattle.f77_actions.specs.contracts.action.Action as action;
ghost use Rattle.f77_actions.specs.contracts.expression.Condition as condition;
ghost use Rattle.f77_actions.specs.contracts.expression.Element as element;
ghost use Rattle.f77_actions.specs.contracts.expression.Number as number;
ghost use Rattle.mothra_ops.specs.Edits.{numbered};
ghost use Rattle.mothra_codes.specs.declared.op.Op.{Op};
ghost use Rattle.mothra_ops.specs.Made.{AreMade, IsMadeMutant};
ghost use Rattle.mothra_ops.specs.Mutants.{mutant_fields, mutant_of, program_of};
ghost use Rattle.mothra_ops.specs.Plan.{PlanFields, IsPlan, IsNoPlan, plan_fields, list_fields};
ghost use Rattle.mothra_ops.specs.Plan.{list_of_operator, asked, edits_of, whole_of};

use crate::edit::Edit;
use crate::listing::Listing;
use crate::mutant::Mutant;
use crate::original::Original;
use f77_check::Checked;
use mothra_codes::Op;
use mothra_replacements::OpsFault;
use std::alloc::Global;
use std::marker::Model;

/// The lists of the operators that are asked for, of one program, all thinned by the same number.
#[derive(Drop)]
pub struct Plan {
    checked: Checked,
    every: u32,
    /// In the order of the operators.
    lists: Vec<Listing>,
}

impl Model for Plan {
    ghost Value = { PlanFields };

    ghost coded = { Prim.hlevel (
      codes,
      expr.the_row.coded,
      stmt.the_row.coded,
      element.the_row.coded,
      number.the_row.coded,
      condition.the_row.coded,
      action.the_row.coded,
    ) };

    ghost view = { λ plan. plan_fields plan.checked plan.every plan.lists.items };

    ghost invariant = { λ plan. IsPlan (plan_fields plan.checked plan.every plan.lists.items)
        × AreMade plan.checked plan.lists.items };
}

/// The thinned lists of these operators, in the order of the operators. What they draw from is found once.
fn lists(alloc: Global, checked: &Checked, ops: &[Op], every: u32) -> Result<Vec<Listing>, OpsFault>
    requires { 1 ≤ every }
    ensures asked { IfOk result
        (λ lists. (op : Op) → IsTrue (asked (plan_fields checked.now every lists.items) op) ↔ Contains ops.now op) }
    ensures lists { IfOk result (λ lists. IsPlan (plan_fields checked.now every lists.items)) }
    ensures made { IfOk result (λ lists. AreMade checked.now lists.items) }
    ensures refused { IfErr result (λ fault. IsNoPlan ops.now (map line_of checked.now.program) every fault) }
{
    let original = Original::of(alloc, checked)?;
    let mut copies = original.copies(alloc)?;
    let mut lists = Vec::new(alloc);
    for op in Op::ALL {
        if ops.contains(&op) {
            lists.push(original.listing(alloc, op, every, &mut copies)?)?;
        }
    }
    Ok(lists)
}

impl Plan {
    /// The plan of a program for these operators; their order and repeats do not matter.
    ///
    /// It is refused for the first operator, in their order, that has a list which `edits` refuses.
    pub fn new(alloc: Global, checked: Checked, ops: &[Op], every: u32) -> Result<Plan, OpsFault>
        requires { 1 ≤ every }
        ensures program { IfOk result (λ plan. plan.checked ≡ checked) }
        ensures every { IfOk result (λ plan. plan.every ≡ every) }
        ensures asked { IfOk result (λ plan. (op : Op) → IsTrue (asked plan op) ↔ Contains ops.now op) }
        ensures lists { IfOk result (λ plan. IsPlan plan) }
        ensures refused { IfErr result (λ fault. IsNoPlan ops.now (map line_of checked.program) every fault) }
    {
        let lists = lists(alloc, &checked, ops, every)?;
        Ok(Plan {
            checked,
            every,
            lists,
        })
    }

    /// The list of an operator that was asked for. It takes no memory.
    fn list(&self, op: Op) -> Option<&Listing>
        ensures list { option_map (λ list. list_fields list.now) result ≡ list_of_operator self.now op }
        ensures made { IfSome result (λ list. All (IsMadeMutant self.now.checked) list.now.mutants.items) }
        ensures plan { IsPlan self.now }
    {
        self.lists.iter().find(|list| list.op == op)
    }

    /// The program. It takes no memory.
    pub fn program(&self) -> &Checked
        ensures program { result.now ≡ self.now.checked }
        ensures plan { IsPlan self.now }
    {
        &self.checked
    }

    /// Of each whole list the items 1, `every` + 1, 2 * `every` + 1 and on are kept. It takes no memory.
    pub fn every(&self) -> u32
        ensures { result ≡ self.now.every }
    {
        self.every
    }

    /// Whether the operator was asked for. It takes no memory.
    pub fn asked(&self, op: Op) -> bool
        ensures { result ≡ asked self.now op }
    {
        self.list(op).is_some()
    }

    /// How many mutants the operator has, at most 1,048,575; 0 where it was not asked for. It takes no memory.
    pub fn count(&self, op: Op) -> u32
        ensures count { result ≡ length (edits_of self.now op) }
        ensures plan { IsPlan self.now }
    {
        match self.list(op) {
            Some(list) => list.mutants.len() as u32,
            None => 0,
        }
    }

    /// How many edits the operator's whole list has; 0 where it was not asked for. It takes no memory.
    pub fn whole(&self, op: Op) -> u32
        ensures whole { result ≡ whole_of self.now op }
        ensures plan { IsPlan self.now }
    {
        match self.list(op) {
            Some(list) => list.whole,
            None => 0,
        }
    }

    /// The edit that makes the operator's mutant of this number, from 1. It takes no memory.
    pub fn edit(&self, op: Op, number: u32) -> Option<&Edit>
        ensures edit { option_map (λ edit. edit.now) result ≡ numbered (edits_of self.now op) number }
        ensures plan { IsPlan self.now }
    {
        match self.mutant(op, number) {
            Some(mutant) => Some(&mutant.edit),
            None => None,
        }
    }

    /// The operator's mutant of this number, from 1; none where the plan has no such mutant. It takes no memory.
    pub fn mutant(&self, op: Op, number: u32) -> Option<&Mutant>
        ensures mutant { option_map (λ mutant. mutant_fields mutant.now) result ≡ mutant_of self.now op number }
        ensures edit { option_map (λ mutant. mutant.now.edit) result ≡ numbered (edits_of self.now op) number }
        ensures made { IfSome result (λ mutant. IsMadeMutant self.now.checked mutant.now) }
        // It takes the arguments that the program takes.
        ensures shapes { IfSome result (λ mutant. shapes
            (patched (program_of self.now) mutant.now.edit.statement (statement_of mutant.now.stmt.value))
            ≡ shapes (program_of self.now)) }
        ensures plan { IsPlan self.now }
    {
        let list = self.list(op)?;
        if number == 0 {
            return None;
        }
        list.mutants.get(number as usize - 1)
    }
}

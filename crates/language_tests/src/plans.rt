//! Plans: which operators were asked for, how many mutants each has, and the edit of each number.

use crate::edits::operator;
use mothra_ops::{Edit, Op, Plan};
use samples::{ADD, checked, parts};
use std::process::Abort;
use std::test::Fail;

/// The plan of these operators for the sum.
fn plan(rt: &impl AllocGlobal, ops: &[Op], every: u32) -> Result<Plan, Fail> {
    if every == 0 {
        return Err(Fail::new("no edit is kept"));
    }
    Ok(Plan::new(rt.alloc(), checked(rt, ADD)?, ops, every)?)
}

/// Compares rows: an operator, whether it was asked for, how many mutants it has, and how long its whole list is.
fn assert_lengths(rt: &(impl AllocGlobal + Abort), plan: &Plan, rows: &[&str]) -> Result<(), Fail> {
    for row in rows {
        let (code, expected) = parts(row)?;
        let op = operator(code)?;
        let found = format!(in rt.alloc();
            "{} {} {}",
            plan.asked(op),
            plan.count(op),
            plan.whole(op)
        )?;
        assert_eq!(rt; found.as_str(), expected, "{code}");
    }
    Ok(())
}

/// The edit that puts the replacement of this rank in the place of the sum.
fn edit_of_sum(op: Op, rank: usize) -> Edit {
    Edit {
        op,
        statement: 2,
        position: 2,
        rank,
    }
}

#[test]
fn counts_what_was_asked_for(rt: HostRuntime) -> Result<(), Fail> {
    let plan = plan(&rt, &[Op::Uoi, Op::Aor, Op::Aor], 1)?;
    assert_lengths(
        &rt,
        &plan,
        &["AOR => true 6 6", "UOI => true 9 9", "ABS => false 0 0"],
    )?;
    assert_eq!(rt; plan.every(), 1);
    assert_eq!(rt; plan.program().count(), 3);
    Ok(())
}

#[test]
fn gives_edits_by_number(rt: HostRuntime) -> Result<(), Fail> {
    let plan = plan(&rt, &[Op::Uoi, Op::Aor, Op::Aor], 1)?;
    assert_eq!(rt;
        plan.edit(Op::Aor, 2).copied(),
        Some(edit_of_sum(Op::Aor, 2))
    );
    assert_eq!(rt; plan.edit(Op::Aor, 0).copied(), None);
    assert_eq!(rt; plan.edit(Op::Aor, 7).copied(), None);
    assert_eq!(rt; plan.edit(Op::Abs, 1).copied(), None);
    Ok(())
}

#[test]
fn thins_each_list(rt: HostRuntime) -> Result<(), Fail> {
    let plan = plan(&rt, &[Op::Aor, Op::Uoi, Op::Crp], 4)?;
    assert_lengths(
        &rt,
        &plan,
        &[
            "AOR => true 2 6",
            "CRP => true 0 0",
            "UOI => true 3 9",
            "ABS => false 0 0",
        ],
    )?;
    assert_eq!(rt; plan.every(), 4);
    Ok(())
}

#[test]
fn gives_edits_by_their_new_number(rt: HostRuntime) -> Result<(), Fail> {
    let plan = plan(&rt, &[Op::Aor], 4)?;
    assert_eq!(rt;
        plan.edit(Op::Aor, 2).copied(),
        Some(edit_of_sum(Op::Aor, 5))
    );
    assert_eq!(rt; plan.edit(Op::Aor, 3).copied(), None);
    Ok(())
}

#[test]
fn plans_for_no_operator(rt: HostRuntime) -> Result<(), Fail> {
    let plan = plan(&rt, &[], 1)?;
    assert_lengths(&rt, &plan, &["AAR => false 0 0", "UOI => false 0 0"])
}

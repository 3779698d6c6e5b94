//! The limits on lists of mutants, tried with small limits.

ghost use Rattle.std.specs.Prelude.{◌≤◌};

use f77_tree::{Replacement, Stmt};
use mothra_ops::listing::{Limits, Listing};
use mothra_ops::{Edit, Mutant, Op, OpsFault};
use samples::parts;
use std::process::Abort;
use std::snapshot::Snapshot;
use std::test::Fail;

/// A list to which `count` mutants are added, and which keeps each `every`-th of them.
fn filled(
    rt: &impl AllocGlobal,
    every: u32,
    limits: Limits,
    count: usize,
) -> Result<Listing, OpsFault>
    requires { 1 ≤ every }
{
    let mut listing = Listing::new(rt.alloc(), Op::Uoi, every, limits);
    for rank in 0..count {
        listing.add(Mutant {
            edit: Edit {
                op: Op::Uoi,
                statement: 2,
                position: 2,
                rank,
            },
            node: Replacement::Label(20),
            stmt: Snapshot::of(&Stmt::Continue),
            is_alone: false,
        })?;
    }
    Ok(listing)
}

/// How many mutants are kept of how many, or why there is no list.
fn summary(rt: &impl AllocGlobal, filled: Result<Listing, OpsFault>) -> Result<String, Fail> {
    match filled {
        Ok(listing) => {
            let kept = listing.mutants().len();
            let whole = listing.whole();
            Ok(format!(in rt.alloc(); "{kept} of {whole}")?)
        }
        Err(fault) => Ok(format!(in rt.alloc(); "{fault:?}")?),
    }
}

/// Compares rows: how many mutants are added to a list, and what comes of it.
fn assert_filled(
    rt: &(impl AllocGlobal + Abort),
    every: u32,
    limits: Limits,
    rows: &str,
) -> Result<(), Fail>
    requires { 1 ≤ every }
{
    for row in rows.split("; ") {
        let (count, expected) = parts(row)?;
        let text = summary(rt, filled(rt, every, limits, count.parse()?))?;
        assert_eq!(rt; text.as_str(), expected, "{count}");
    }
    Ok(())
}

#[test]
fn keeps_as_many_as_it_may(rt: HostRuntime) -> Result<(), Fail> {
    let limits = Limits { kept: 3, whole: 9 };
    let rows = "0 => 0 of 0; 3 => 3 of 3; 4 => TooMany(Uoi); 9 => TooMany(Uoi)";
    assert_filled(&rt, 1, limits, rows)?;
    let none = Limits { kept: 0, whole: 5 };
    assert_filled(&rt, 2, none, "0 => 0 of 0; 1 => TooMany(Uoi)")
}

#[test]
fn keeps_as_many_of_a_thinned_list(rt: HostRuntime) -> Result<(), Fail> {
    let limits = Limits { kept: 3, whole: 99 };
    let rows = "9 => 3 of 9; 12 => 3 of 12; 13 => TooMany(Uoi)";
    assert_filled(&rt, 4, limits, rows)
}

#[test]
fn counts_as_many_as_it_may(rt: HostRuntime) -> Result<(), Fail> {
    let limits = Limits { kept: 9, whole: 5 };
    assert_filled(&rt, 1, limits, "5 => 5 of 5; 6 => TooMany(Uoi)")?;
    assert_filled(&rt, 4, limits, "5 => 2 of 5; 6 => TooMany(Uoi)")
}

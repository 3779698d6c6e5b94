//! What a path comes to know, and what it tells at once.

use crate::made::{X, Y, is_below, is_refuted, made};
use f77_terms::{
    Function, Path, Range, add_below, add_range, add_unequal, atom_range, atom_term, combined,
    constant_of, constant_term, copied_path, is_ranged_off, know_division, know_function, new_path,
    settle,
};
use std::alloc::{AllocError, Global};
use std::cmp::Ordering;
use std::test::Fail;

/// X is at most Y, and that is at most 4.
fn ordered(alloc: Global) -> Result<Path, AllocError> {
    let mut path = new_path(alloc);
    let order = made(alloc, 0, &[(1, X), (-1, Y)])?;
    add_below(&mut path, 1, &order, 0)?;
    add_range(&mut path, 1, Range { low: 0, high: 4 })?;
    Ok(path)
}

#[test]
fn tells_constants(rt: HostRuntime) -> Result<(), Fail> {
    let alloc = rt.alloc();
    assert_eq!(rt; constant_of(&constant_term(alloc, 5)), Some(5));
    let x = atom_term(alloc, 0)?;
    assert_eq!(rt; constant_of(&x), None);
    let Some(none) = combined(1, &x, -1, &x)? else {
        return Err(Fail::from(AllocError));
    };
    assert_eq!(rt; constant_of(&none), Some(0));
    Ok(())
}

#[test]
fn tells_bounds_by_ranges(rt: HostRuntime) -> Result<(), Fail> {
    let alloc = rt.alloc();
    let path = ordered(alloc)?;
    let y = made(alloc, -8, &[(2, Y)])?;
    assert!(rt; is_ranged_off(&path, &y, Ordering::Greater));
    assert!(rt; !is_ranged_off(&path, &y, Ordering::Equal));
    let y = made(alloc, -7, &[(2, Y)])?;
    assert!(rt; !is_ranged_off(&path, &y, Ordering::Greater));
    let y = made(alloc, -9, &[(2, Y)])?;
    assert!(rt; is_ranged_off(&path, &y, Ordering::Equal));
    let y = made(alloc, 0, &[(2, Y)])?;
    assert!(rt; is_ranged_off(&path, &y, Ordering::Less));
    let x = made(alloc, -4, &[(1, X)])?;
    assert!(rt; !is_ranged_off(&path, &x, Ordering::Greater));
    Ok(())
}

#[test]
fn tells_bounds_by_refutation(rt: HostRuntime) -> Result<(), Fail> {
    let alloc = rt.alloc();
    let path = ordered(alloc)?;
    assert!(rt; is_below(&path, &made(alloc, -4, &[(1, X)])?)?);
    assert!(rt; !is_below(&path, &made(alloc, -3, &[(1, X)])?)?);
    Ok(())
}

#[test]
fn copies_what_is_known(rt: HostRuntime) -> Result<(), Fail> {
    let alloc = rt.alloc();
    let path = copied_path(&ordered(alloc)?)?;
    let large = made(alloc, 5, &[(-1, X)])?;
    assert!(rt; is_refuted(&path, &[large])?);
    Ok(())
}

#[test]
fn settles_ranges(rt: HostRuntime) -> Result<(), Fail> {
    let alloc = rt.alloc();
    let mut path = ordered(alloc)?;
    add_range(&mut path, 0, Range { low: 1, high: 9 })?;
    settle(&mut path);
    let narrowed = Range { low: 1, high: 4 };
    assert_eq!(rt; atom_range(&path.known, 0), Some(narrowed));
    assert_eq!(rt; atom_range(&path.known, 1), Some(narrowed));
    Ok(())
}

#[test]
fn settles_what_is_unequal(rt: HostRuntime) -> Result<(), Fail> {
    let alloc = rt.alloc();
    let mut path = new_path(alloc);
    add_range(&mut path, 0, Range { low: 0, high: 9 })?;
    add_unequal(&mut path, &atom_term(alloc, 0)?)?;
    settle(&mut path);
    assert_eq!(rt; atom_range(&path.known, 0), Some(Range { low: 1, high: 9 }));
    add_unequal(&mut path, &made(alloc, 9, &[(-1, X)])?)?;
    settle(&mut path);
    assert_eq!(rt; atom_range(&path.known, 0), Some(Range { low: 1, high: 8 }));
    Ok(())
}

#[test]
fn knows_divisions_once(rt: HostRuntime) -> Result<(), Fail> {
    let alloc = rt.alloc();
    let mut path = new_path(alloc);
    let x = atom_term(alloc, 0)?;
    let y = atom_term(alloc, 1)?;
    let product = atom_term(alloc, 2)?;
    know_division(&mut path, &x, &product, 3)?;
    know_division(&mut path, &x, &product, 3)?;
    assert_eq!(rt; path.choices.len(), 1);
    know_function(&mut path, Function::Minimum, &x, &y, 4)?;
    know_function(&mut path, Function::Minimum, &x, &y, 4)?;
    assert_eq!(rt; path.choices.len(), 2);
    Ok(())
}

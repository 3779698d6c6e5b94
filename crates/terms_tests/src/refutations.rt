//! Bounds that contradict each other, and bounds that do not.

use crate::made::{X, Y, Z, is_refuted, made, never_has};
use f77_terms::paths::add_choice;
use f77_terms::terms::is_same_term;
use f77_terms::{add_equal, add_unequal, atom_term, combined, new_path, refuted};
use std::alloc::AllocError;
use std::cmp::Ordering;
use std::test::Fail;

#[test]
fn refutes_orders(rt: HostRuntime) -> Result<(), Fail> {
    let alloc = rt.alloc();
    let first = made(alloc, 1, &[(1, X), (-1, Y)])?;
    let second = made(alloc, 0, &[(1, Y), (-1, X)])?;
    assert!(rt; is_refuted(&new_path(alloc), &[first, second])?);
    let first = made(alloc, 0, &[(1, X), (-1, Y)])?;
    let second = made(alloc, 0, &[(1, Y), (-1, X)])?;
    assert!(rt; !is_refuted(&new_path(alloc), &[first, second])?);
    Ok(())
}

#[test]
fn refutes_halves(rt: HostRuntime) -> Result<(), Fail> {
    let alloc = rt.alloc();
    let first = made(alloc, -1, &[(2, X)])?;
    let second = made(alloc, 1, &[(-2, X)])?;
    assert!(rt; is_refuted(&new_path(alloc), &[first, second])?);
    let first = made(alloc, -2, &[(2, X)])?;
    let second = made(alloc, 2, &[(-2, X)])?;
    assert!(rt; !is_refuted(&new_path(alloc), &[first, second])?);
    let first = made(alloc, -5, &[(2, X), (4, Y)])?;
    let second = made(alloc, 5, &[(-2, X), (-4, Y)])?;
    assert!(rt; is_refuted(&new_path(alloc), &[first, second])?);
    Ok(())
}

#[test]
fn gives_up_without_work(rt: HostRuntime) -> Result<(), Fail> {
    let alloc = rt.alloc();
    let first = made(alloc, 1, &[(1, X), (-1, Y)])?;
    let second = made(alloc, 0, &[(1, Y), (-1, X)])?;
    let mut work = 0;
    assert!(rt; !refuted(&mut work, &new_path(alloc), &[first, second])?);
    Ok(())
}

#[test]
fn refutes_by_equations(rt: HostRuntime) -> Result<(), Fail> {
    let alloc = rt.alloc();
    let mut path = new_path(alloc);
    let whole = made(alloc, 0, &[(1, X), (-1, Y), (-1, Z)])?;
    add_equal(&mut path, &whole)?;
    let least = made(alloc, 1, &[(-1, Z)])?;
    let order = made(alloc, 0, &[(1, X), (-1, Y)])?;
    assert!(rt; is_refuted(&path, &[least, order])?);
    let order = made(alloc, 0, &[(1, X), (-1, Y)])?;
    assert!(rt; !is_refuted(&path, &[order])?);
    let same = made(alloc, 0, &[(2, X), (-2, Y), (-2, Z)])?;
    assert!(rt; never_has(&path, &same, Ordering::Less)?);
    assert!(rt; never_has(&path, &same, Ordering::Greater)?);
    let other = made(alloc, 1, &[(2, X), (-2, Y), (-2, Z)])?;
    assert!(rt; never_has(&path, &other, Ordering::Equal)?);
    assert!(rt; !never_has(&path, &other, Ordering::Greater)?);
    Ok(())
}

#[test]
fn refutes_what_is_unequal(rt: HostRuntime) -> Result<(), Fail> {
    let alloc = rt.alloc();
    let mut path = new_path(alloc);
    add_unequal(&mut path, &made(alloc, 0, &[(1, X), (-1, Y)])?)?;
    add_unequal(&mut path, &made(alloc, 0, &[(1, X), (-1, Z)])?)?;
    let first = made(alloc, 0, &[(1, X), (-1, Y)])?;
    let second = made(alloc, -1, &[(1, Y), (-1, X)])?;
    let third = made(alloc, 1, &[(1, Z), (-1, Y)])?;
    let fourth = made(alloc, -1, &[(1, Y), (-1, Z)])?;
    assert!(rt; is_refuted(&path, &[first, second, third, fourth])?);
    let first = made(alloc, 0, &[(1, X), (-1, Y)])?;
    let second = made(alloc, -2, &[(1, Y), (-1, X)])?;
    assert!(rt; !is_refuted(&path, &[first, second])?);
    Ok(())
}

#[test]
fn refutes_choices(rt: HostRuntime) -> Result<(), Fail> {
    let alloc = rt.alloc();
    let mut path = new_path(alloc);
    let low = vec![in alloc; made(alloc, 5, &[(1, X)])?]?;
    let high = vec![in alloc; made(alloc, 5, &[(-1, X)])?]?;
    add_choice(&mut path, low, high)?;
    let least = made(alloc, -4, &[(-1, X)])?;
    let most = made(alloc, -4, &[(1, X)])?;
    assert!(rt; is_refuted(&path, &[least, most])?);
    let least = made(alloc, -5, &[(-1, X)])?;
    let most = made(alloc, -4, &[(1, X)])?;
    assert!(rt; !is_refuted(&path, &[least, most])?);
    Ok(())
}

#[test]
fn adds_terms(rt: HostRuntime) -> Result<(), Fail> {
    let alloc = rt.alloc();
    let plus = made(alloc, 3, &[(1, X), (2, Y)])?;
    let minus = made(alloc, -3, &[(1, X), (2, Y)])?;
    let Some(twice) = combined(1, &plus, 1, &minus)? else {
        return Err(Fail::from(AllocError));
    };
    let expected = made(alloc, 0, &[(4, Y), (2, X)])?;
    assert!(rt; is_same_term(&twice, &expected));
    let large = made(alloc, 0, &[(i64::MAX, X)])?;
    assert!(rt; combined(1, &large, 1, &large)?.is_none());
    Ok(())
}

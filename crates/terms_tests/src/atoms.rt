//! Atoms, and what is known of them.

use crate::made::{X, Y, Z, is_below, made};
use f77_terms::{
    Function, Key, Range, add_below, add_range, atom_term, constant_term, interned, know_division,
    know_function, new_path, new_table,
};
use std::test::Fail;

#[test]
fn makes_an_atom_once(rt: HostRuntime) -> Result<(), Fail> {
    let alloc = rt.alloc();
    let mut table = new_table(alloc);
    assert_eq!(rt; interned(&mut table, Key::Slot(7))?, Some(0));
    let half = Key::Function(
        Function::Quotient,
        atom_term(alloc, 0)?,
        constant_term(alloc, 2),
    );
    assert_eq!(rt; interned(&mut table, half)?, Some(1));
    assert_eq!(rt; interned(&mut table, Key::Slot(7))?, Some(0));
    let half = Key::Function(
        Function::Quotient,
        atom_term(alloc, 0)?,
        constant_term(alloc, 2),
    );
    assert_eq!(rt; interned(&mut table, half)?, Some(1));
    let rest = Key::Function(
        Function::Remainder,
        atom_term(alloc, 0)?,
        constant_term(alloc, 2),
    );
    assert_eq!(rt; interned(&mut table, rest)?, Some(2));
    let later = Key::Element(3, atom_term(alloc, 9)?);
    assert_eq!(rt; interned(&mut table, later)?, None);
    Ok(())
}

#[test]
fn knows_divisions(rt: HostRuntime) -> Result<(), Fail> {
    let alloc = rt.alloc();
    let mut path = new_path(alloc);
    let dividend = atom_term(alloc, X)?;
    let divisor = constant_term(alloc, 4);
    add_range(&mut path, X, Range { low: 0, high: 100 })?;
    let product = made(alloc, 0, &[(4, Y)])?;
    know_function(&mut path, Function::Remainder, &dividend, &divisor, Z)?;
    know_division(&mut path, &dividend, &product, Z)?;
    let most = made(alloc, -3, &[(1, Z)])?;
    assert!(rt; is_below(&path, &most)?);
    let most = made(alloc, -2, &[(1, Z)])?;
    assert!(rt; !is_below(&path, &most)?);
    let least = made(alloc, 0, &[(-1, Z)])?;
    assert!(rt; is_below(&path, &least)?);
    let most = made(alloc, -25, &[(1, Y)])?;
    assert!(rt; is_below(&path, &most)?);
    Ok(())
}

#[test]
fn knows_minima(rt: HostRuntime) -> Result<(), Fail> {
    let alloc = rt.alloc();
    let mut path = new_path(alloc);
    let first = atom_term(alloc, X)?;
    let second = atom_term(alloc, Y)?;
    know_function(&mut path, Function::Minimum, &first, &second, Z)?;
    add_below(&mut path, -1, &first, 3)?;
    add_below(&mut path, -1, &second, 5)?;
    let least = made(alloc, 3, &[(-1, Z)])?;
    assert!(rt; is_below(&path, &least)?);
    let least = made(alloc, 4, &[(-1, Z)])?;
    assert!(rt; !is_below(&path, &least)?);
    Ok(())
}

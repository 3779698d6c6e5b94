//! What is known of atoms that are functions of two numbers.

use crate::made::{X, Y, Z, is_refuted, made};
use f77_terms::{
    Function, Range, add_below, add_range, atom_range, atom_term, know_function, new_path,
};
use std::alloc::{AllocError, Global};
use std::test::Fail;

/// The square of Y.
const SQUARE: usize = 3;

/// The range of an atom that is this function of X and Y, where X is from 2 to 5 and Y in a range.
fn range_of(alloc: Global, function: Function, y: Range) -> Result<Option<Range>, AllocError> {
    let mut path = new_path(alloc);
    add_range(&mut path, X, Range { low: 2, high: 5 })?;
    add_range(&mut path, Y, y)?;
    know_function(
        &mut path,
        function,
        &atom_term(alloc, X)?,
        &atom_term(alloc, Y)?,
        Z,
    )?;
    Ok(atom_range(&path.known, Z))
}

#[test]
fn ranges_functions(rt: HostRuntime) -> Result<(), Fail> {
    let alloc = rt.alloc();
    let both = Range { low: -3, high: 4 };
    let above = Range { low: 0, high: 4 };
    let below = Range { low: -3, high: 0 };
    let product = Range { low: -15, high: 20 };
    assert_eq!(rt; range_of(alloc, Function::Product, both)?, Some(product));
    let least = Range { low: -3, high: 4 };
    assert_eq!(rt; range_of(alloc, Function::Minimum, both)?, Some(least));
    let quotient = Range { low: -5, high: 5 };
    assert_eq!(rt; range_of(alloc, Function::Quotient, both)?, Some(quotient));
    let quotient = Range { low: 0, high: 5 };
    assert_eq!(rt; range_of(alloc, Function::Quotient, above)?, Some(quotient));
    let quotient = Range { low: -5, high: 0 };
    assert_eq!(rt; range_of(alloc, Function::Quotient, below)?, Some(quotient));
    let rest = Range { low: 0, high: 3 };
    assert_eq!(rt; range_of(alloc, Function::Remainder, both)?, Some(rest));
    let rest = Range { low: 0, high: 2 };
    assert_eq!(rt; range_of(alloc, Function::Remainder, below)?, Some(rest));
    Ok(())
}

#[test]
fn narrows_ranges_before(rt: HostRuntime) -> Result<(), Fail> {
    let alloc = rt.alloc();
    let mut path = new_path(alloc);
    let x = atom_term(alloc, X)?;
    let y = atom_term(alloc, Y)?;
    add_range(&mut path, X, Range { low: 2, high: 5 })?;
    add_range(&mut path, Y, Range { low: -3, high: 4 })?;
    add_below(&mut path, -1, &y, 1)?;
    know_function(&mut path, Function::Product, &x, &y, Z)?;
    let product = Range { low: 2, high: 20 };
    assert_eq!(rt; atom_range(&path.known, Z), Some(product));
    Ok(())
}

#[test]
fn bounds_squares(rt: HostRuntime) -> Result<(), Fail> {
    let alloc = rt.alloc();
    let mut path = new_path(alloc);
    let y = atom_term(alloc, Y)?;
    add_range(&mut path, Y, Range { low: -3, high: 4 })?;
    know_function(&mut path, Function::Product, &y, &y, SQUARE)?;
    let square = Range { low: 0, high: 16 };
    assert_eq!(rt; atom_range(&path.known, SQUARE), Some(square));
    let less = made(alloc, 1, &[(1, SQUARE), (1, Y)])?;
    assert!(rt; is_refuted(&path, &[less])?);
    let less = made(alloc, 0, &[(1, SQUARE), (1, Y)])?;
    assert!(rt; !is_refuted(&path, &[less])?);
    Ok(())
}

#[test]
fn bounds_sizes(rt: HostRuntime) -> Result<(), Fail> {
    let alloc = rt.alloc();
    let mut path = new_path(alloc);
    let x = made(alloc, 0, &[(1, X)])?;
    let negative = made(alloc, 7, &[(-1, X)])?;
    add_range(&mut path, X, Range { low: -9, high: 9 })?;
    know_function(&mut path, Function::Minimum, &x, &negative, Z)?;
    assert_eq!(rt;
        atom_range(&path.known, Z),
        Some(Range { low: -9, high: 3 })
    );
    Ok(())
}

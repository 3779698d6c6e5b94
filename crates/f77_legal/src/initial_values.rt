//! DATA: which names may stand there, and whether the values fit them.
//!
//! Values are taken in runs, and elements are counted with saturation: a limit on elements is tested last (C14), so
//! arrays of any size come here.

ghost use Rattle.std.specs.Prelude.{◌≡◌, ◌==◌, ◌||◌, ◌≤◌, ◌*◌, ◌++◌, false, not, []};
ghost use Rattle.std.specs.Prelude.{◌∷◌};
ghost use Rattle.std.specs.Prelude.{length, map, min, option_map, slice_get, IfOk};
ghost use Rattle.std.specs.List.{list_all, list_any};
ghost use Rattle.std.specs.Str.{bytes_eq};
ghost use Rattle.f77_tree.specs.Comparing as comparing;
ghost use Rattle.f77_tree.specs.Data.{data_group_of};
ghost use Rattle.f77_program.specs.Program.{line_of};
ghost use Rattle.f77_tree.specs.Statement.{statement_of};
ghost use Rattle.f77_legal.specs.InitialValues as initial_values;
ghost use Rattle.f77_legal.specs.{lines_where, kind_at, array_bounds, IsNameTable, product, groups_of, has_bad_data};
ghost use Rattle.f77_legal.specs.code.{dummy_at, kinds_in, kinds_left, behind_kinds, fills, misplaces, names_of_groups};
ghost use Rattle.f77_legal.specs.code.{groups_break, breaks_data, names_held};

use crate::names::Names;
use f77_program::Line;
use f77_tree::{Constant, DataGroup, Kind, Name, Shared, Stmt, Value};
use indexmap::IndexSet;
use std::alloc::{AllocError, Global};

fn constant_kind(constant: Constant) -> Kind
    ensures { result ≡ initial_values.constant_kind constant }
{
    match constant {
        Constant::Number(_) => Kind::Integer,
        Constant::Truth(_) => Kind::Logical,
    }
}

/// The number of elements that the values fill.
fn count(values: &[Value]) -> u128
    ensures exact { result ≡ length (kinds_in values.now) }
    ensures bounded { result ≤ length values.now * 4294967295 }
{
    let mut count: u128 = 0;
    for value in values {
        count += u128::from(value.times);
    }
    count
}

/// The number of elements of a name with these bounds, or `most` if there are more.
fn elements(bounds: &[u32], most: u128) -> u128
    ensures { result ≡ min (product bounds.now) most }
{
    let mut product: u128 = 1;
    for bound in bounds {
        product = product.saturating_mul(u128::from(*bound));
    }
    product.min(most)
}

/// The values of a group that are still to be given: `times` of one kind, and behind them `values`.
#[derive(Clone, Copy)]
struct Remaining<'a> {
    times: u128,
    kind: Kind,
    values: &'a [Value],
}

/// Whether the run is empty, or is of this kind.
fn may_give(rest: Remaining<'_>, kind: Kind) -> bool
    ensures { result ≡ (rest.entry.times == 0 || comparing.same_kind kind rest.entry.kind) }
{
    rest.times == 0 || kind == rest.kind
}

/// What is left behind `needed` values of this kind. None if other values stand among them, or too
/// few are there.
fn take_run(mut rest: Remaining<'_>, mut needed: u128, kind: Kind) -> Option<Remaining<'_>>
    ensures { option_map kinds_left result ≡ behind_kinds needed kind (kinds_left rest.entry) }
{
    while rest.times < needed {
        if !may_give(rest, kind) {
            return None;
        }
        needed -= rest.times;
        let (value, values) = rest.values.split_first()?;
        rest = Remaining {
            times: u128::from(value.times),
            kind: constant_kind(value.constant),
            values,
        };
    }
    if needed == 0 {
        return Some(rest);
    }
    if !may_give(rest, kind) {
        return None;
    }
    Some(Remaining {
        times: rest.times - needed,
        ..rest
    })
}

fn are_none(values: &[Value]) -> bool
    ensures { result ≡ list_all (λ value. value.times == 0) values.now }
{
    values.iter().all(|value| value.times == 0)
}

#[tactic(auto, using(crate::proofs::Runs::used_up))]
fn is_used_up(rest: Remaining<'_>) -> bool
    ensures { result ≡ (length (kinds_left rest.entry) == 0) }
{
    rest.times == 0 && are_none(rest.values)
}

/// Whether the group has as many values as its names have elements, and each is of the kind of its element.
fn is_filled(names: &Names, group: &DataGroup) -> bool
    ensures { result ≡ fills (array_bounds names.now) (kind_at names.now) (data_group_of group.now) }
{
    let most = count(&group.values) + 1;
    let mut rest = Remaining {
        times: 0,
        kind: Kind::Integer,
        values: &group.values,
    };
    for name in &group.names {
        match take_run(rest, elements(names.bounds(name), most), names.kind(name)) {
            Some(behind) => rest = behind,
            None => return false,
        }
    }
    is_used_up(rest)
}

/// Notes a name of DATA, and says whether it is a dummy argument or was noted before.
#[tactic(auto, using(crate::proofs::Misplaced::held_more))]
fn is_misplaced<'a>(
    names: &Names,
    seen: &mut IndexSet<&'a Name>,
    name: &'a Name,
) -> Result<bool, AllocError>
    ensures misplaced { IfOk result
        (λ bad. bad ≡ (dummy_at names.now name.now || list_any (bytes_eq name.now) (names_held seen.old.keys))) }
    ensures noted { IfOk result
        (λ bad. bad ≡ false → names_held seen.new.keys ≡ names_held seen.old.keys ++ name.now ∷ []) }
{
    if names.is_dummy(name) {
        return Ok(true);
    }
    let is_new = seen.insert(name)?;
    Ok(!is_new)
}

/// Notes names of DATA in order, up to the first that may not stand there. Says whether there is one.
fn are_misplaced<'a>(
    names: &Names,
    seen: &mut IndexSet<&'a Name>,
    items: &'a [Name],
) -> Result<bool, AllocError>
    ensures misplaced { IfOk result (λ bad. bad ≡ misplaces (dummy_at names.now) (names_held seen.old.keys) items.now) }
    ensures noted { IfOk result
        (λ bad. bad ≡ false → names_held seen.new.keys ≡ names_held seen.old.keys ++ items.now) }
{
    for item in items {
        if is_misplaced(names, seen, item)? {
            return Ok(true);
        }
    }
    Ok(false)
}

/// Whether groups of DATA break the clause on DATA, behind those whose names are noted. Where they do not, their own
/// names are noted.
#[tactic(auto, using(crate::proofs::Misplaced::none_noted))]
fn groups_break<'a>(
    names: &Names,
    seen: &mut IndexSet<&'a Name>,
    groups: &'a [DataGroup],
) -> Result<bool, AllocError>
    ensures breaks { IfOk result
        (λ bad. bad
        ≡ groups_break (array_bounds names.now) (kind_at names.now) (dummy_at names.now) (names_held seen.old.keys)
        (map data_group_of groups.now)) }
    ensures noted { IfOk result (λ bad. bad ≡ false → names_held seen.new.keys
        ≡ names_held seen.old.keys ++ names_of_groups (map data_group_of groups.now)) }
{
    for group in groups {
        if are_misplaced(names, seen, &group.names)? {
            return Ok(true);
        }
        if !is_filled(names, group) {
            return Ok(true);
        }
    }
    Ok(false)
}

/// The groups of a DATA statement. None for another statement.
#[tactic(auto, using(crate::proofs::Forms::no_groups))]
fn data_groups(stmt: &Stmt) -> &[DataGroup]
    ensures { map data_group_of result.now ≡ groups_of (statement_of stmt.now) }
{
    match stmt {
        Stmt::Preset { groups } => groups,
        _ => &[],
    }
}

/// The line of the first DATA statement with a name or a value that may not stand there (ANSI X3.9-1978, 9.1 and 9.2).
pub(crate) fn first_bad_data(
    alloc: Global,
    names: &Names,
    lines: &[Shared<Line>],
) -> Result<Option<u32>, AllocError>
    ensures { IsNameTable names.now (map line_of lines.now)
        → IfOk result
        (λ line. line
        ≡ slice_get
        (lines_where (has_bad_data (map line_of lines.now)) (map line_of lines.now)) 0) }
{
    let mut seen = IndexSet::new(alloc);
    for line in lines {
        if groups_break(names, &mut seen, data_groups(&line.stmt))? {
            return Ok(Some(line.line));
        }
    }
    Ok(None)
}

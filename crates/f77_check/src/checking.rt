//! The check of a program.

ghost use Rattle.std.specs.Prelude.{◌≡◌, ◌⊎◌, map, IfOk, IfErr, Some};
ghost use Rattle.f77_program.specs.Program.{line_of};
ghost use Rattle.f77_legal.specs.Legal.{IsLegal, first_fault};
ghost use Rattle.f77_legal.specs.Tables.{AreTables};
ghost use Rattle.f77_legal.specs.declared.fault.CheckFault.TheVariants.{Memory};
ghost use Rattle.f77_check.specs.{shapes};
ghost use Rattle.f77_check.specs.code.{shape_at};

use crate::checked::{Checked, Shape};
use crate::resolve::Resolver;
use crate::slots::Slots;
use f77_legal::heading::arguments;
use f77_legal::names::{Names, product};
use f77_legal::{CheckFault, Tables, judge};
use f77_program::{Line, Program};
use f77_tree::{Name, Shared};
use std::alloc::{AllocError, Global};

/// The tables of a legal program, or its first fault.
pub(crate) fn judged(alloc: Global, lines: &[Shared<Line>]) -> Result<Tables, CheckFault>
    ensures legal { IfOk result (λ tables. IsLegal (map line_of lines.now)) }
    ensures tables { IfOk result (λ tables. AreTables tables (map line_of lines.now)) }
    ensures fault { IfErr result (λ fault. (fault ≡ Memory) ⊎ (first_fault (map line_of lines.now) ≡ Some fault)) }
{
    let tables = Tables::of(alloc, lines)?;
    judge(alloc, &tables, lines)?;
    Ok(tables)
}

/// The shape of a name. An array with more than 4294967295 elements is said to have that many.
fn shape(names: &Names, name: &Name) -> Shape
    ensures { result ≡ shape_at names.now name.now }
{
    let bounds = names.bounds(name);
    let elements = product(bounds).min(4_294_967_295) as u32;
    Shape {
        kind: names.kind(name),
        elements: if bounds.is_empty() {
            None
        } else {
            Some(elements)
        },
    }
}

/// The shape of each name, in order.
fn shapes(alloc: Global, names: &Names, list: &[Name]) -> Result<Vec<Shape>, AllocError>
    ensures { IfOk result (λ shapes. shapes.items ≡ map (shape_at names.now) list.now) }
{
    let mut shapes = Vec::new(alloc);
    for name in list {
        shapes.push(shape(names, name))?;
    }
    Ok(shapes)
}

/// The legal program with these tables, with all that a run looks up.
#[tactic(auto, using(crate::proofs::SlotTables::slots_few))]
pub(crate) fn checked_by(
    alloc: Global,
    program: &Program,
    tables: Tables,
) -> Result<Checked, AllocError>
    requires legal { IsLegal (map line_of program.now) }
    requires tables { AreTables tables (map line_of program.now) }
    ensures program { IfOk result (λ checked. map line_of checked.program ≡ map line_of program.now) }
    ensures arguments { IfOk result (λ checked. checked.arguments ≡ shapes (map line_of program.now)) }
{
    let lines = program.lines();
    let arguments = shapes(alloc, &tables.names, arguments(lines))?;
    let slots = Slots::of(alloc, &tables.names)?;
    let resolver = Resolver { tables, slots };
    let statements = resolver.all(alloc, lines)?;
    let start = resolver.start(alloc, lines)?;
    Ok(Checked {
        program: program.clone()?,
        arguments: Shared::new(alloc, arguments)?,
        resolver: Shared::new(alloc, resolver)?,
        statements,
        start: Shared::new(alloc, start)?,
    })
}

/// Checks a program, and gives it with the shapes of its dummy arguments. Where the program is not legal, its first
/// fault is reported, clause by clause in the order of test.
///
/// Memory may be reported in place of any answer.
pub fn check(alloc: Global, program: &Program) -> Result<Checked, CheckFault>
    ensures legal { IfOk result (λ checked. IsLegal (map line_of program.now)) }
    ensures program { IfOk result (λ checked. map line_of checked.program ≡ map line_of program.now) }
    ensures arguments { IfOk result (λ checked. checked.arguments ≡ shapes (map line_of program.now)) }
    ensures fault { IfErr result (λ fault. (fault ≡ Memory) ⊎ (first_fault (map line_of program.now) ≡ Some fault)) }
{
    let tables = judged(alloc, program.lines())?;
    Ok(checked_by(alloc, program, tables)?)
}

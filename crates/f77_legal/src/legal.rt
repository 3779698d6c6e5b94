//! All clauses of legality, in the order of test.

ghost use Rattle.std.specs.Prelude.{◌≡◌, ◌++◌, List, [], map, slice_get, Some, Err};
ghost use Rattle.f77_program.specs.Program.{LineFields, line_of};
ghost use Rattle.f77_legal.specs.{ReportsFirstFault, name_faults, clause_faults, label_faults, expression_clauses};
ghost use Rattle.f77_legal.specs.{control_clauses, data_faults, too_large_faults, statement_faults, faults};
ghost use Rattle.f77_legal.specs.{IsLabelTable, IsNameTable, AreTables};
ghost use Rattle.f77_legal.specs.code.{first_breach, ReportsFirst};

use crate::clause::Clause;
use crate::fault::CheckFault;
use crate::heading::unit;
use crate::initial_values::first_bad_data;
use crate::names::Names;
use crate::tables::Tables;
use f77_program::Line;
use f77_tree::Shared;
use std::alloc::Global;

const MOST_STATEMENTS: usize = 500;

const MOST_NAMES: usize = 100;

const MOST_ELEMENTS: u32 = 10_000;

fn check_names(names: &Names, lines: &[Shared<Line>]) -> Result<(), CheckFault>
    ensures { IsNameTable names.now (map line_of lines.now)
        → ReportsFirst result (name_faults (map line_of lines.now)) }
{
    if let Some(name) = names.first_real() {
        return Err(CheckFault::RealName(*name));
    }
    if let Some(name) = names.first_twice(unit(lines)) {
        return Err(CheckFault::Twice(*name));
    }
    Ok(())
}

/// The first fault of a name, a statement or a label. No memory is taken for it.
fn check_statements(tables: &Tables, lines: &[Shared<Line>]) -> Result<(), CheckFault>
    ensures { AreTables tables.now (map line_of lines.now) → ReportsFirst result
        (name_faults (map line_of lines.now) ++ statement_faults (map line_of lines.now)) }
{
    check_names(&tables.names, lines)?;
    let first = tables.first_of_all(lines);
    check_expressions(first)?;
    if let Some(label) = tables.labels.first_double() {
        return Err(CheckFault::DoubleLabel(label));
    }
    match first {
        Some((clause, line)) => Err(clause.fault(line)),
        None => Ok(()),
    }
}

/// The fault of the first breach, if that is of a clause on expressions.
fn check_expressions(first: Option<(Clause, u32)>) -> Result<(), CheckFault>
    ensures { (program : List LineFields) → first ≡ first_breach program
        → ReportsFirst result (clause_faults expression_clauses program) }
{
    let Some((clause, line)) = first else {
        return Ok(());
    };
    if clause.is_on_expressions() {
        return Err(clause.fault(line));
    }
    Ok(())
}

fn check_size(names: &Names, lines: &[Shared<Line>]) -> Result<(), CheckFault>
    ensures { IsNameTable names.now (map line_of lines.now)
        → ReportsFirst result (too_large_faults (map line_of lines.now)) }
{
    if lines.len() > MOST_STATEMENTS || names.len() > MOST_NAMES || names.has_over(MOST_ELEMENTS) {
        return Err(CheckFault::TooMany);
    }
    Ok(())
}

/// The first fault of a program, clause by clause in the order of test. The tables have to be those of the program.
///
/// Memory is taken for the names in DATA alone. So a fault of a name, a statement or a label is reported however little
/// memory there is.
pub fn judge(alloc: Global, tables: &Tables, lines: &[Shared<Line>]) -> Result<(), CheckFault>
    ensures reports { AreTables tables.now (map line_of lines.now)
        → ReportsFirstFault result (faults (map line_of lines.now)) }
    ensures reported { let program = map line_of lines.now in (fault : CheckFault)
        → AreTables tables.now program
        → slice_get (name_faults program ++ statement_faults program) 0 ≡ Some fault → result ≡ Err fault }
{
    check_statements(tables, lines)?;
    if let Some(line) = first_bad_data(alloc, &tables.names, lines)? {
        return Err(CheckFault::BadData(line));
    }
    check_size(&tables.names, lines)
}

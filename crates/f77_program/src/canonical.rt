//! The canonical texts of statements. Trees have no parentheses: they are put where the levels of operands need them.

ghost use Rattle.std.specs.Prelude.{◌≡◌, ◌<◌, ◌++◌, true, OnOk, IfOk, IfErr, map, option_map};
ghost use Rattle.std.specs.Prelude.{string_bytes};
ghost use Rattle.f77_source.specs.Law.{squeezed};
ghost use Rattle.f77_tree.specs.Statement.{Statement, statement_of};
ghost use Rattle.f77_tree.specs.StatementGrammar.{SpellsStatement, IsFormed, IsUnmutated};
ghost use Rattle.f77_tree.specs.Limits.{statement_constants};
ghost use Rattle.f77_program.specs.Canonical as canonical;
ghost use Rattle.f77_tree.specs.View.{tree_of, trees};

use crate::data::print_groups;
use crate::declaration::print_declarations;
use crate::fault::SyntaxFault;
use crate::joined::{print_names, print_numbers};
use f77_tree::{Expr, Name, Stmt};
use std::alloc::{AllocError, Global};

/// Room for the characters of most statements: those of one line (ANSI X3.9-1978, 3.2.1).
const ROOM: usize = 66;

/// The level of an expression's own form, from 1 to 9.
fn own_level(expr: &Expr) -> u8
    ensures { result ≡ canonical.own_level (tree_of expr.now) }
{
    match expr {
        Expr::Signed(_, _) => 6,
        Expr::Not(_) => 4,
        Expr::Binary(op, _, _) => op.level(),
        _ => 9,
    }
}

/// Writes an operand, in parentheses where its level is below `wanted`.
#[cycle(printer)]
fn operand(out: &mut String, wanted: u8, expr: &Expr) -> Result<(), AllocError>
    ensures { OnOk result (string_bytes out.new ≡ string_bytes out.old
        ++ canonical.operand wanted (canonical.own_level (tree_of expr.now)) (canonical.text_of (tree_of expr.now))) }
{
    if own_level(expr) < wanted {
        out.push('(')?;
        form(out, expr)?;
        out.push(')')?;
        Ok(())
    } else {
        form(out, expr)
    }
}

/// Writes an expression, without parentheses around it.
#[cycle(printer)]
fn form(out: &mut String, expr: &Expr) -> Result<(), AllocError>
    ensures { OnOk result (string_bytes out.new ≡ string_bytes out.old ++ canonical.text_of (tree_of expr.now)) }
{
    match expr {
        Expr::Number(n) => write!(out, "{n}"),
        Expr::Truth(true) => out.push_str(".TRUE."),
        Expr::Truth(false) => out.push_str(".FALSE."),
        Expr::Reference(place) => {
            out.push_str(place.name.as_str())?;
            list(out, &place.subscripts)
        }
        Expr::Call(function, arguments) => {
            out.push_str(function.name())?;
            list(out, arguments)
        }
        Expr::Signed(sign, inner) => {
            out.push(char::from(sign.symbol()))?;
            operand(out, 7, inner)
        }
        Expr::Not(inner) => {
            out.push_str(".NOT.")?;
            operand(out, 5, inner)
        }
        Expr::Binary(op, left, right) => {
            operand(out, op.left_level(), left)?;
            out.push_str(op.symbol())?;
            operand(out, op.right_level(), right)
        }
        Expr::ZeroPush(inner) => {
            out.push_str("ZPUSH(")?;
            form(out, inner)?;
            out.push_str(")")
        }
    }
}

/// Writes expressions in parentheses, joined by commas. Writes nothing where there are none.
#[cycle(printer)]
fn list(out: &mut String, items: &[Expr]) -> Result<(), AllocError>
    ensures { OnOk result
        (string_bytes out.new ≡ string_bytes out.old ++ canonical.list_text (trees (map tree_of items.now))) }
{
    if items.is_empty() {
        return Ok(());
    }
    separated(out, b'(', items)?;
    out.push(')')?;
    Ok(())
}

/// Writes expressions: the character `opening` before the first, and a comma before each other.
#[cycle(printer)]
fn separated(out: &mut String, opening: u8, items: &[Expr]) -> Result<(), AllocError>
    requires { opening < 128 }
    ensures { OnOk result
        (string_bytes out.new ≡ string_bytes out.old ++ canonical.rest_text opening (trees (map tree_of items.now))) }
{
    let mut before = opening;
    for item in items {
        out.push(char::from(before))?;
        form(out, item)?;
        before = b',';
    }
    Ok(())
}

/// Writes the statement SUBROUTINE.
fn subroutine(out: &mut String, name: &Name, arguments: &[Name]) -> Result<(), AllocError>
    ensures { OnOk result (string_bytes out.new
        ≡ string_bytes out.old ++ canonical.statement_text (Statement.Subroutine name.now arguments.now)) }
{
    out.push_str("SUBROUTINE ")?;
    out.push_str(name.as_str())?;
    if arguments.is_empty() {
        return Ok(());
    }
    print_names(out, "(", arguments)?;
    out.push(')')?;
    Ok(())
}

/// Writes the third parameter of a DO, if it has one.
fn third(out: &mut String, step: &Option<Expr>) -> Result<(), AllocError>
    ensures { OnOk result
        (string_bytes out.new ≡ string_bytes out.old ++ canonical.step_text (option_map tree_of step.now)) }
{
    match step {
        None => Ok(()),
        Some(step) => {
            out.push(',')?;
            form(out, step)
        }
    }
}

/// Writes a computed GO TO.
fn computed(out: &mut String, labels: &[u32], value: &Expr) -> Result<(), AllocError>
    ensures { OnOk result (string_bytes out.new ≡ string_bytes out.old
        ++ canonical.statement_text (Statement.ComputedGoto labels.now (tree_of value.now))) }
{
    out.push_str("GO TO ")?;
    print_numbers(out, labels)?;
    out.push_str("),")?;
    form(out, value)
}

/// Writes the label, the DO variable and the parameters of a DO.
fn do_statement(
    out: &mut String,
    label: u32,
    variable: &Name,
    first: &Expr,
    last: &Expr,
    step: &Option<Expr>,
) -> Result<(), AllocError>
    ensures { OnOk result (string_bytes out.new ≡ string_bytes out.old
        ++ canonical.statement_text
        (Statement.Loop label variable.now (tree_of first.now) (tree_of last.now) (option_map tree_of step.now))) }
{
    write!(out, "DO {label} ")?;
    out.push_str(variable.as_str())?;
    out.push('=')?;
    form(out, first)?;
    out.push(',')?;
    form(out, last)?;
    third(out, step)?;
    Ok(())
}

/// Writes a keyword, a condition in parentheses, and what follows it. The parentheses are parts of `keyword` and
/// `rest`.
fn condition(
    out: &mut String,
    keyword: &str,
    condition: &Expr,
    rest: &str,
) -> Result<(), AllocError>
    ensures { OnOk result (string_bytes out.new
        ≡ string_bytes out.old ++ (keyword.now ++ (canonical.text_of (tree_of condition.now) ++ rest.now))) }
{
    out.push_str(keyword)?;
    form(out, condition)?;
    out.push_str(rest)
}

fn statement(out: &mut String, stmt: &Stmt) -> Result<(), AllocError>
    ensures { OnOk result
        (string_bytes out.new ≡ string_bytes out.old ++ canonical.statement_text (statement_of stmt.now)) }
{
    match stmt {
        Stmt::Subroutine { name, arguments } => subroutine(out, name, arguments),
        Stmt::Declare { kind, items } => {
            out.push_str(kind.keyword())?;
            out.push(' ')?;
            print_declarations(out, items)
        }
        Stmt::Dimension { items } => {
            out.push_str("DIMENSION ")?;
            print_declarations(out, items)
        }
        Stmt::Preset { groups } => {
            out.push_str("DATA ")?;
            print_groups(out, groups)
        }
        Stmt::Assign { target, value } => {
            out.push_str(target.name.as_str())?;
            list(out, &target.subscripts)?;
            out.push('=')?;
            form(out, value)
        }
        Stmt::Goto { label } => write!(out, "GO TO {label}"),
        Stmt::ComputedGoto { labels, value } => computed(out, labels, value),
        Stmt::ArithIf {
            value,
            negative,
            zero,
            positive,
        } => {
            condition(out, "IF (", value, ") ")?;
            write!(out, "{negative},{zero},{positive}")
        }
        Stmt::LogicalIf {
            condition: test,
            statement: inner,
        } => {
            condition(out, "IF (", test, ") ")?;
            statement(out, inner)
        }
        Stmt::BlockIf { condition: test } => condition(out, "IF (", test, ") THEN"),
        Stmt::ElseIf { condition: test } => condition(out, "ELSE IF (", test, ") THEN"),
        Stmt::Else => out.push_str("ELSE"),
        Stmt::EndIf => out.push_str("END IF"),
        Stmt::Loop {
            label,
            variable,
            first,
            last,
            step,
        } => do_statement(out, *label, variable, first, last, step),
        Stmt::Continue => out.push_str("CONTINUE"),
        Stmt::Return => out.push_str("RETURN"),
        Stmt::Stop => out.push_str("STOP"),
        Stmt::Trap => out.push_str("TRAP"),
        Stmt::End => out.push_str("END"),
    }
}

/// The canonical text of a statement. It has one blank behind each keyword that something follows and behind the
/// parenthesis of an IF, no other blank, and parentheses exactly where the levels of operands ask for them (ANSI
/// X3.9-1978, 6.5).
pub fn print_stmt(alloc: Global, stmt: &Stmt) -> Result<String, SyntaxFault>
    ensures text { IfOk result (λ text. string_bytes text ≡ canonical.statement_text (statement_of stmt.now)) }
    // The text without its blanks spells the statement.
    ensures back { IfOk result (λ text. IsFormed (statement_of stmt.now) → IsUnmutated (statement_of stmt.now)
        → statement_constants (statement_of stmt.now) ≡ true
        → SpellsStatement (squeezed (string_bytes text)) (statement_of stmt.now)) }
    ensures refused { IfErr result (λ fault. fault ≡ SyntaxFault.Memory) }
{
    let mut out = String::with_capacity(alloc, ROOM)?;
    statement(&mut out, stmt)?;
    Ok(out)
}

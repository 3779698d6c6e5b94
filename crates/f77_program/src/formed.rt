//! Which statements some text spells, decided from their trees alone. The operators rest on this, since they make trees
//! and never texts.

ghost use Rattle.std.specs.Prelude.{◌≡◌, true, false, map, option_map};
ghost use Rattle.f77_tree.specs.Grammar as grammar;
ghost use Rattle.f77_tree.specs.StatementGrammar.{IsFormed};
ghost use Rattle.f77_program.specs.Formed as forms;
ghost use Rattle.f77_program.specs.code.Formed as forms_code;
ghost use Rattle.f77_tree.specs.Name.{is_symbolic};
ghost use Rattle.f77_tree.specs.View.{tree_of, trees};
ghost use Rattle.f77_tree.specs.Statement.{statement_of};

use crate::data::data_formed;
use crate::declaration::declaration_formed;
use f77_tree::{Expr, Intrinsic, Name, Stmt, all_bounded, are_short};

#[tactic(auto, using(crate::proofs::Forming::some_items))]
fn is_some_list(items: &[Expr]) -> bool
    ensures { result ≡ forms_code.is_some_list (trees (map tree_of items.now)) }
{
    !items.is_empty()
}

/// Whether a name with this list behind it would be read as a call.
#[tactic(auto, using(crate::proofs::Forming::called, crate::proofs::Forming::not_called))]
fn is_call(name: &Name, items: &[Expr]) -> bool
    ensures { result ≡ grammar.is_call name.now (trees (map tree_of items.now)) }
{
    is_some_list(items) && Intrinsic::named(name.as_str().as_bytes()).is_some()
}

/// Whether the reference is one that some text spells: its name is short enough, and it is not read as a call.
#[tactic(auto, unfolding(crate::specs::code::Formed::is_reference))]
fn is_reference(name: &Name, items: &[Expr]) -> bool
    ensures { result ≡ forms_code.is_reference is_symbolic name.now (trees (map tree_of items.now)) }
{
    name.is_short() && !is_call(name, items)
}

/// Whether some text spells the expression.
#[cycle(formed)]
fn formed(expr: &Expr) -> bool
    ensures { result ≡ forms_code.formed is_symbolic (tree_of expr.now) }
{
    match expr {
        Expr::Reference(place) => is_reference(&place.name, &place.subscripts)
            && all_formed(&place.subscripts),
        Expr::Call(_, arguments) => is_some_list(arguments) && all_formed(arguments),
        Expr::Signed(_, inner) | Expr::Not(inner) | Expr::ZeroPush(inner) => formed(inner),
        Expr::Binary(_, left, right) => formed(left) && formed(right),
        _ => true,
    }
}

#[cycle(formed)]
fn all_formed(items: &[Expr]) -> bool
    ensures { result ≡ forms_code.all_formed is_symbolic (trees (map tree_of items.now)) }
{
    for item in items {
        if !formed(item) {
            return false;
        }
    }
    true
}

/// Whether some text spells the expression, where there is one.
fn value_formed(value: Option<&Expr>) -> bool
    ensures { result ≡ forms_code.value_formed is_symbolic (option_map (λ value. tree_of value.now) value.entry) }
{
    match value {
        None => true,
        Some(value) => formed(value),
    }
}

fn statement_formed(stmt: &Stmt) -> bool
    ensures { result ≡ forms_code.statement_formed is_symbolic (statement_of stmt.now) }
{
    match stmt {
        Stmt::Subroutine { name, arguments } => { name.is_short() && are_short(arguments) }
        Stmt::Declare { items, .. } => declaration_formed(items),
        Stmt::Dimension { items } => declaration_formed(items) && all_bounded(items),
        Stmt::Preset { groups } => data_formed(groups),
        Stmt::Assign { target, value } => {
            target.name.is_short() && all_formed(&target.subscripts) && formed(value)
        }
        Stmt::LogicalIf {
            condition,
            statement,
        } => formed(condition) && is_action(statement) && statement_formed(statement),
        Stmt::Loop {
            variable,
            first,
            last,
            step,
            ..
        } => { variable.is_short() && formed(first) && formed(last) && value_formed(step.as_ref()) }
        _ => stmt.has_labels() && value_formed(stmt.value()),
    }
}

/// Whether the statement may stand in a logical IF (11.5): it is executable, and no DO, no logical IF, no END and no
/// statement of a block IF.
pub fn is_action(stmt: &Stmt) -> bool
    ensures { result ≡ forms.is_action (statement_of stmt.now) }
{
    stmt.form().acts()
}

/// Whether some text spells the statement, where constants may have any size, and its names have at most six
/// characters.
#[tactic(auto, using(crate::proofs::StatementForming::formed_spelled, crate::proofs::StatementForming::not_formed))]
pub fn is_formed(stmt: &Stmt) -> bool
    ensures formed { result ≡ true → IsFormed (statement_of stmt.now) }
    ensures unformed { result ≡ false → ¬ (IsFormed (statement_of stmt.now)) }
{
    statement_formed(stmt)
}

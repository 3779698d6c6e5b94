//! Which changes of a statement keep the frame of a program: its declarations, DATA, labels, blocks and ranges of DOs.

ghost use Rattle.std.specs.Prelude.{◌≡◌, true, None};
ghost use Rattle.f77_tree.specs.Statement.{statement_of, Statement};
ghost use Rattle.f77_tree.specs.Tree.{Tree};
ghost use Rattle.f77_legal.specs.code.Frames as frames;
ghost use Rattle.f77_legal.specs.{framed};

use f77_tree::{Form, Name, Stmt};

/// Whether the frame has CONTINUE in the place of a statement of this form.
fn is_framed_out(form: Form) -> bool
    ensures { result ≡ frames.is_framed_out form }
{
    matches!(form, Form::LogicalIf) || form.acts()
}

/// Whether a program keeps its frame when the statement `new` takes the place of `old`. It does if both are actions or
/// logical IFs; if both are block IFs, ELSE IFs, ELSEs, END IFs or ENDs; or if both are DOs with the same label and the
/// same variable.
///
/// For two declarations the answer is false, even where the frame stays.
#[tactic(auto, using(crate::proofs::Frames::framed_out))]
pub fn keeps_frame(old: &Stmt, new: &Stmt) -> bool
    ensures { result ≡ true → framed (statement_of new.now) ≡ framed (statement_of old.now) }
{
    match (old, new) {
        (
            Stmt::Loop {
                label,
                variable,
                ..
            },
            Stmt::Loop {
                label: new_label,
                variable: new_variable,
                ..
            },
        ) => label == new_label && variable == new_variable,
        (Stmt::BlockIf { .. }, Stmt::BlockIf { .. })
        | (Stmt::ElseIf { .. }, Stmt::ElseIf { .. })
        | (Stmt::Else, Stmt::Else)
        | (Stmt::EndIf, Stmt::EndIf)
        | (Stmt::End, Stmt::End) => true,
        _ => is_framed_out(old.form()) && is_framed_out(new.form()),
    }
}

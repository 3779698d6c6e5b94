//! Statements as trees: what they are, their parts, copies and comparisons. One module has all of a statement (form,
//! expression, labels, copy, comparison), so a further statement is added here once.
//!
//! Copies and comparisons are written out, since derived ones say nothing of a type that contains itself.

ghost use Rattle.std.specs.Prelude.{◌≡◌, length, option_map, slice_get};
ghost use Rattle.std.specs.Cmp.{on_equiv, partial_equiv_from_equiv};
ghost use Rattle.std.specs.Ordering.{on};
ghost use Rattle.f77_tree.specs.SameTrees.{statement_equiv};
ghost use Rattle.f77_tree.specs.Statement.{form_of, has_labels, jumps_of, same_statement, statement_of, value_of};
ghost use Rattle.f77_tree.specs.View.{tree_of};

use crate::data::DataGroup;
use crate::declaration::Decl;
use crate::form::Form;
use crate::name::Name;
use crate::tree::{Expr, Kind, Ref};
use std::alloc::AllocError;

/// A statement (ANSI X3.9-1978, section 7). Labels are 1 to 99999.
#[derive(Debug, Drop)]
pub enum Stmt {
    /// SUBROUTINE with the unit's name and its dummy arguments, in order (15.6).
    Subroutine {
        name: Name,
        arguments: Vec<Name>,
    },
    /// INTEGER or LOGICAL with the names that it types, and their bounds, in order (8.4).
    Declare {
        kind: Kind,
        items: Vec<Decl>,
    },
    /// DIMENSION with array names and their bounds, in order (8.1).
    Dimension {
        items: Vec<Decl>,
    },
    /// DATA with its groups, in order (section 9).
    Preset {
        groups: Vec<DataGroup>,
    },
    /// An assignment to a variable or an array element (section 10).
    Assign {
        target: Ref,
        value: Expr,
    },
    /// An unconditional GO TO (11.1).
    Goto {
        label: u32,
    },
    /// A computed GO TO, with its labels in order, one at least (11.2).
    ComputedGoto {
        labels: Vec<u32>,
        value: Expr,
    },
    /// An arithmetic IF, with the labels for a negative, a zero and a positive value (11.4).
    ArithIf {
        value: Expr,
        negative: u32,
        zero: u32,
        positive: u32,
    },
    /// A logical IF and the statement that it may execute (11.5).
    LogicalIf {
        condition: Expr,
        statement: Box<Stmt>,
    },
    /// A block IF (11.6).
    BlockIf {
        condition: Expr,
    },
    /// ELSE IF (11.7).
    ElseIf {
        condition: Expr,
    },
    /// ELSE (11.8).
    Else,
    /// END IF (11.9).
    EndIf,
    /// DO with the label of its terminal statement, its DO variable and parameters (11.10).
    Loop {
        label: u32,
        variable: Name,
        first: Expr,
        last: Expr,
        step: Option<Expr>,
    },
    /// CONTINUE (11.11).
    Continue,
    /// RETURN (15.8).
    Return,
    /// STOP (11.12).
    Stop,
    /// TRAP, which only mutants have in place of a statement: a run that executes it is Trapped.
    Trap,
    /// END (11.14).
    End,
}

impl Stmt {
    /// The form of the statement. It takes no memory.
    pub fn form(&self) -> Form
        ensures { result ≡ form_of (statement_of self.now) }
    {
        match self {
            Stmt::Subroutine { .. } => Form::Subroutine,
            Stmt::Declare { .. } => Form::Declare,
            Stmt::Dimension { .. } => Form::Dimension,
            Stmt::Preset { .. } => Form::Preset,
            Stmt::Assign { .. } => Form::Assign,
            Stmt::Goto { .. } => Form::Goto,
            Stmt::ComputedGoto { .. } => Form::ComputedGoto,
            Stmt::ArithIf { .. } => Form::ArithIf,
            Stmt::LogicalIf { .. } => Form::LogicalIf,
            Stmt::BlockIf { .. } => Form::BlockIf,
            Stmt::ElseIf { .. } => Form::ElseIf,
            Stmt::Else => Form::Else,
            Stmt::EndIf => Form::EndIf,
            Stmt::Loop { .. } => Form::Loop,
            Stmt::Continue => Form::Continue,
            Stmt::Return => Form::Return,
            Stmt::Stop => Form::Stop,
            Stmt::Trap => Form::Trap,
            Stmt::End => Form::End,
        }
    }
    /// The expression that the statement assigns, tests or chooses by, if it has one. A DO has parameters instead.
    pub fn value(&self) -> Option<&Expr>
        ensures { option_map (λ value. tree_of value.now) result ≡ value_of (statement_of self.now) }
    {
        match self {
            Stmt::Assign { value, .. }
            | Stmt::ComputedGoto { value, .. }
            | Stmt::ArithIf { value, .. } => Some(value),
            Stmt::LogicalIf { condition, .. }
            | Stmt::BlockIf { condition }
            | Stmt::ElseIf { condition } => Some(condition),
            _ => None,
        }
    }

    /// The number of labels to which control may go from the statement (11.1, 11.2, 11.4, 11.5).
    pub fn jump_count(&self) -> usize
        ensures { result ≡ length (jumps_of (statement_of self.now)) }
    {
        match self {
            Stmt::Goto { .. } => 1,
            Stmt::ComputedGoto { labels, .. } => labels.len(),
            Stmt::ArithIf { .. } => 3,
            Stmt::LogicalIf { statement, .. } => statement.jump_count(),
            _ => 0,
        }
    }

    /// The label number `k` of those to which control may go, counted from 0. None past the last.
    pub fn jump(&self, k: usize) -> Option<u32>
        ensures { result ≡ slice_get (jumps_of (statement_of self.now)) k }
    {
        match self {
            Stmt::Goto { label } => label_at(&[*label], k),
            Stmt::ComputedGoto { labels, .. } => label_at(labels, k),
            Stmt::ArithIf {
                negative,
                zero,
                positive,
                ..
            } => label_at(&[*negative, *zero, *positive], k),
            Stmt::LogicalIf { statement, .. } => statement.jump(k),
            _ => None,
        }
    }

    /// Whether the statement is no computed GO TO without a label (11.2). Each other form has its labels in any case.
    #[tactic(auto, using(crate::proofs::Forms::has_its_labels))]
    pub fn has_labels(&self) -> bool
        ensures { result ≡ has_labels (statement_of self.now) }
    {
        match self {
            Stmt::ComputedGoto { labels, .. } => !labels.is_empty(),
            _ => true,
        }
    }
}

fn label_at(labels: &[u32], k: usize) -> Option<u32>
    ensures { result ≡ slice_get labels.now k }
{
    labels.get(k).copied()
}

impl Clone for Stmt {
    ghost is_clone = { λ source copy. statement_of copy ≡ statement_of source };

    #[tactic(auto, using(crate::proofs::Copies::same_subroutine, crate::proofs::Copies::same_declaration, crate::proofs::Copies::same_dimension, crate::proofs::Copies::same_preset))]
    fn clone(&self) -> Result<Stmt, AllocError> {
        match self {
            Stmt::Subroutine { name, arguments } => Ok(Stmt::Subroutine {
                name: *name,
                arguments: arguments.clone()?,
            }),
            Stmt::Declare { kind, items } => Ok(Stmt::Declare {
                kind: *kind,
                items: items.clone()?,
            }),
            Stmt::Dimension { items } => Ok(Stmt::Dimension {
                items: items.clone()?,
            }),
            Stmt::Preset { groups } => Ok(Stmt::Preset {
                groups: groups.clone()?,
            }),
            Stmt::Assign { target, value } => Ok(Stmt::Assign {
                target: target.clone()?,
                value: value.clone()?,
            }),
            Stmt::Goto { label } => Ok(Stmt::Goto { label: *label }),
            Stmt::ComputedGoto { labels, value } => Ok(Stmt::ComputedGoto {
                labels: labels.clone()?,
                value: value.clone()?,
            }),
            Stmt::ArithIf {
                value,
                negative,
                zero,
                positive,
            } => Ok(Stmt::ArithIf {
                value: value.clone()?,
                negative: *negative,
                zero: *zero,
                positive: *positive,
            }),
            Stmt::LogicalIf {
                condition,
                statement,
            } => Ok(Stmt::LogicalIf {
                condition: condition.clone()?,
                statement: Box::new(*Box::allocator(statement), Stmt::clone(statement)?)?,
            }),
            Stmt::BlockIf { condition } => Ok(Stmt::BlockIf {
                condition: condition.clone()?,
            }),
            Stmt::ElseIf { condition } => Ok(Stmt::ElseIf {
                condition: condition.clone()?,
            }),
            Stmt::Else => Ok(Stmt::Else),
            Stmt::EndIf => Ok(Stmt::EndIf),
            Stmt::Loop {
                label,
                variable,
                first,
                last,
                step,
            } => Ok(Stmt::Loop {
                label: *label,
                variable: *variable,
                first: first.clone()?,
                last: last.clone()?,
                step: step.clone()?,
            }),
            Stmt::Continue => Ok(Stmt::Continue),
            Stmt::Return => Ok(Stmt::Return),
            Stmt::Stop => Ok(Stmt::Stop),
            Stmt::Trap => Ok(Stmt::Trap),
            Stmt::End => Ok(Stmt::End),
        }
    }
}

impl PartialEq for Stmt {
    ghost eq = { on statement_of same_statement };

    ghost laws = { partial_equiv_from_equiv (on_equiv statement_of statement_equiv) };

    #[tactic(auto, using(crate::proofs::Comparisons::form_by_form))]
    fn eq(&self, other: &Stmt) -> bool {
        match (self, other) {
            (
                Stmt::Subroutine { name, arguments },
                Stmt::Subroutine {
                    name: other_name,
                    arguments: other_arguments,
                },
            ) => name == other_name && arguments == other_arguments,
            (
                Stmt::Declare { kind, items },
                Stmt::Declare {
                    kind: other_kind,
                    items: other_items,
                },
            ) => kind == other_kind && items == other_items,
            (Stmt::Dimension { items }, Stmt::Dimension { items: other }) => items == other,
            (Stmt::Preset { groups }, Stmt::Preset { groups: other }) => groups == other,
            (
                Stmt::Assign { target, value },
                Stmt::Assign {
                    target: other_target,
                    value: other_value,
                },
            ) => target == other_target && value == other_value,
            (Stmt::Goto { label }, Stmt::Goto { label: other }) => label == other,
            (
                Stmt::ComputedGoto { labels, value },
                Stmt::ComputedGoto {
                    labels: other_labels,
                    value: other_value,
                },
            ) => labels == other_labels && value == other_value,
            (
                Stmt::ArithIf {
                    value,
                    negative,
                    zero,
                    positive,
                },
                Stmt::ArithIf {
                    value: other_value,
                    negative: other_negative,
                    zero: other_zero,
                    positive: other_positive,
                },
            ) => value == other_value
                && negative == other_negative
                && zero == other_zero
                && positive == other_positive,
            (
                Stmt::LogicalIf {
                    condition,
                    statement,
                },
                Stmt::LogicalIf {
                    condition: other_condition,
                    statement: other_statement,
                },
            ) => condition == other_condition && Stmt::eq(statement, other_statement),
            (Stmt::BlockIf { condition }, Stmt::BlockIf { condition: other }) => condition == other,
            (Stmt::ElseIf { condition }, Stmt::ElseIf { condition: other }) => condition == other,
            (
                Stmt::Loop {
                    label,
                    variable,
                    first,
                    last,
                    step,
                },
                Stmt::Loop {
                    label: other_label,
                    variable: other_variable,
                    first: other_first,
                    last: other_last,
                    step: other_step,
                },
            ) => label == other_label
                && variable == other_variable
                && first == other_first
                && last == other_last
                && step == other_step,
            (Stmt::Else, Stmt::Else)
            | (Stmt::EndIf, Stmt::EndIf)
            | (Stmt::Continue, Stmt::Continue)
            | (Stmt::Return, Stmt::Return)
            | (Stmt::Stop, Stmt::Stop)
            | (Stmt::Trap, Stmt::Trap)
            | (Stmt::End, Stmt::End) => true,
            _ => false,
        }
    }
}

impl Eq for Stmt {
    ghost laws = { on_equiv statement_of statement_equiv };
}

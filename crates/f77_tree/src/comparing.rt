//! Comparisons of expressions and of the parts of declarations: two are equal exactly where their trees are equal.
//!
//! They are written out, since a derived `eq` says nothing of a type that contains itself.

ghost use Rattle.std.specs.Prelude.{◌≡◌, map};
ghost use Rattle.std.specs.Cmp.{on_equiv, partial_equiv_from_equiv};
ghost use Rattle.std.specs.Ordering.{on};
ghost use Rattle.f77_tree.specs.Comparing.{same_tree, same_trees, same_place, same_decl, same_group};
ghost use Rattle.f77_tree.specs.SameTrees.{tree_equiv, place_equiv, decl_equiv, group_equiv};
ghost use Rattle.f77_tree.specs.View.{trees, tree_of, reference_fields};
ghost use Rattle.f77_tree.specs.Declaration.{decl_of};
ghost use Rattle.f77_tree.specs.Data.{data_group_of};

use crate::data::DataGroup;
use crate::declaration::Decl;
use crate::tree::{Expr, Ref};

impl PartialEq for Expr {
    ghost eq = { on tree_of same_tree };

    ghost laws = { partial_equiv_from_equiv (on_equiv tree_of tree_equiv) };

    #[cycle(comparing)]
    fn eq(&self, other: &Expr) -> bool {
        match (self, other) {
            (Expr::Number(number), Expr::Number(other)) => number == other,
            (Expr::Truth(truth), Expr::Truth(other)) => truth == other,
            (Expr::Reference(place), Expr::Reference(other)) => Ref::eq(place, other),
            (Expr::Call(function, arguments), Expr::Call(other, others)) => {
                function == other && same_all(arguments, others)
            }
            (Expr::Signed(sign, operand), Expr::Signed(other, value)) => {
                sign == other && Expr::eq(operand, value)
            }
            (Expr::Not(operand), Expr::Not(other)) => Expr::eq(operand, other),
            (Expr::Binary(operator, left, right), Expr::Binary(other, first, second)) => {
                operator == other && Expr::eq(left, first) && Expr::eq(right, second)
            }
            (Expr::ZeroPush(operand), Expr::ZeroPush(other)) => Expr::eq(operand, other),
            _ => false,
        }
    }
}

impl Eq for Expr {
    ghost laws = { on_equiv tree_of tree_equiv };
}

impl PartialEq for Ref {
    ghost eq = { on reference_fields same_place };

    ghost laws = { partial_equiv_from_equiv (on_equiv reference_fields place_equiv) };

    #[cycle(comparing)]
    fn eq(&self, other: &Ref) -> bool {
        self.name == other.name && same_all(&self.subscripts, &other.subscripts)
    }
}

impl Eq for Ref {
    ghost laws = { on_equiv reference_fields place_equiv };
}

/// Compares two lists. `Vec`'s own `eq` can not be called here, since it is outside of the cycle of calls.
#[cycle(comparing)]
fn same_all(items: &[Expr], others: &[Expr]) -> bool
    ensures { result ≡ same_trees (trees (map tree_of items.now)) (trees (map tree_of others.now)) }
{
    if items.len() != others.len() {
        return false;
    }
    for (i, item) in items.iter().enumerate() {
        if !Expr::eq(item, &others[i]) {
            return false;
        }
    }
    true
}

impl PartialEq for Decl {
    ghost eq = { on decl_of same_decl };

    ghost laws = { partial_equiv_from_equiv (on_equiv decl_of decl_equiv) };

    fn eq(&self, other: &Decl) -> bool {
        self.name == other.name && self.bounds == other.bounds
    }
}

impl Eq for Decl {
    ghost laws = { on_equiv decl_of decl_equiv };
}

impl PartialEq for DataGroup {
    ghost eq = { on data_group_of same_group };

    ghost laws = { partial_equiv_from_equiv (on_equiv data_group_of group_equiv) };

    fn eq(&self, other: &DataGroup) -> bool {
        self.names == other.names && self.values == other.values
    }
}

impl Eq for DataGroup {
    ghost laws = { on_equiv data_group_of group_equiv };
}

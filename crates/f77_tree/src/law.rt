//! Laws of expressions and statements.

ghost use Rattle.std.specs.Prelude.{◌≡◌, ◌↔◌, ℕ, true, List, map};
ghost use Rattle.f77_tree.specs.Statement.{same_statement, Statement};
ghost use Rattle.f77_tree.specs.{same_tree, same_place, same_decl, same_group, nodes_of, node_at, sites};
ghost use Rattle.f77_tree.specs.Tree.{Tree, DeclFields, GroupFields};

/// Two expressions, or two references, are equal by `==` exactly where their trees are equal.
#[tactic(auto, using(crate::specs::SameTrees::tree_decides, crate::specs::SameTrees::place_decides))]
pub fn equal_expressions_are_one()
    ensures expressions { (t u : Tree) → (same_tree t u ≡ true) ↔ (t ≡ u) }
    ensures references { (p q : List ℕ × List Tree) → (same_place p q ≡ true) ↔ (p ≡ q) }
{}

/// Two statements, declared names or groups of DATA are equal by `==` exactly where their views are equal.
#[tactic(auto, using(crate::specs::SameTrees::statement_decides, crate::specs::SameTrees::decl_decides, crate::specs::SameTrees::group_decides))]
pub fn equal_statements_are_one()
    ensures statements { (s t : Statement) → (same_statement s t ≡ true) ↔ (s ≡ t) }
    ensures declared { (d e : DeclFields) → (same_decl d e ≡ true) ↔ (d ≡ e) }
    ensures groups { (g h : GroupFields) → (same_group g h ≡ true) ↔ (g ≡ h) }
{}

/// The sites of a statement stand in the order of its nodes, so there is one numbering.
pub fn sites_are_numbered_as_nodes()
    ensures { (s : Statement) → map node_at (sites s) ≡ nodes_of s }
{}

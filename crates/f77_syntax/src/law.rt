//! Laws of the grammar and of programs.

ghost use Rattle.std.specs.Prelude.{◌≡◌, ℕ, List, length, map, None};
ghost use Rattle.f77_source.specs.Card.{CardFields};
ghost use Rattle.f77_tree.specs.Grammar.{Spells};
ghost use Rattle.f77_tree.specs.StatementGrammar.{SpellsStatement};
ghost use Rattle.f77_program.specs.Program.{LineFields, IsProgram};
ghost use Rattle.f77_program.specs.Group.{group_of, AreInOrder};
ghost use Rattle.f77_tree.specs.Tree.{Tree};
ghost use Rattle.f77_tree.specs.Statement.{Statement};
ghost use Rattle.f77_tree.specs.Node.{nodes_of};
ghost use Rattle.f77_tree.specs.Limits.{statement_nodes};
ghost use Rattle.f77_program.specs.declared.fault.SyntaxFault.{SyntaxFault};
ghost use Rattle.f77_syntax.specs.{class_of, statement_class, AreLines, HasLinesOrFault, IsFirstSyntaxFault};

/// A text spells at most one expression.
#[tactic(auto, using(crate::proofs::Complete::one_tree))]
pub fn one_tree()
    ensures { (text : List ℕ) (t u : Tree) → Spells 1 text t → Spells 1 text u → t ≡ u }
{}

/// A text spells at most one statement, though no word is reserved (ANSI X3.9-1978, 2.3).
#[tactic(auto, using(crate::proofs::StatementComplete::one_statement))]
pub fn one_statement()
    ensures { (text : List ℕ) (s t : Statement) → SpellsStatement text s → SpellsStatement text t → s ≡ t }
{}

/// What stands outside parentheses decides the class of the statement that a text spells (ANSI X3.9-1978, 2.3 and 3.3).
#[tactic(auto, using(crate::proofs::StatementComplete::class_agrees))]
pub fn one_class()
    ensures { (text : List ℕ) (s : Statement) → SpellsStatement text s → class_of text ≡ statement_class s }
{}

/// Cards are one program, or have one first fault, and never both.
pub fn one_program()
    ensures some { (cards : List CardFields) → HasLinesOrFault None cards }
    ensures lines { (cards : List CardFields) (lines others : List LineFields)
        → AreLines None cards lines → AreLines None cards others
        → lines ≡ others }
    ensures fault { (cards : List CardFields) (fault other : SyntaxFault)
        → IsFirstSyntaxFault None cards fault → IsFirstSyntaxFault None cards other
        → fault ≡ other }
    ensures either { (cards : List CardFields) (lines : List LineFields) (fault : SyntaxFault)
        → AreLines None cards lines
        → ¬ (IsFirstSyntaxFault None cards fault) }
{}

/// In a program SUBROUTINE stands first, then declarations, DATA and executable statements, and END last (ANSI
/// X3.9-1978, 3.5).
#[tactic(auto, using(crate::proofs::InOrder::are_in_order))]
pub fn statements_are_in_order()
    ensures { (program : List LineFields)
        → IsProgram None program → AreInOrder (map (λ line. group_of line.stmt) program) }
{}

/// The limit on nodes counts the nodes that the operators number.
pub fn nodes_are_counted()
    ensures { (s : Statement) → length (nodes_of s) ≡ statement_nodes s }
{}

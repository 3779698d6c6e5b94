//! The first clause that a statement breaks. One walk looks at names, kinds and bounds together, with one look-up for
//! each name; then labels, nesting, jumps and the variable that is set are tested.
//!
//! The walk does not stop at the first flaw: a flaw of a clause that is tested earlier may follow.

ghost use Rattle.std.specs.Prelude.{◌≡◌, ◌==◌, true, length, map, not, option_map};
ghost use Rattle.std.specs.List.{find};
ghost use Rattle.f77_program.specs.Program.{line_of};
ghost use Rattle.f77_tree.specs.Comparing as comparing;
ghost use Rattle.f77_tree.specs.Statement.{statement_of};
ghost use Rattle.f77_tree.specs.View.{tree_of, trees};
ghost use Rattle.f77_legal.specs.Legal as legal;
ghost use Rattle.f77_legal.specs.code.Broken as broken;
ghost use Rattle.f77_tree.specs.declared.tree.Kind.TheVariants.{Integer};
ghost use Rattle.f77_legal.specs.{clause_found, has_known_names, breaks, all_fit, dimensions_fit, fits_bounds};
ghost use Rattle.f77_legal.specs.{value_fits, are_integer, is_of_kind, is_of_kind_if_given, kinds_agree, array_bounds};
ghost use Rattle.f77_legal.specs.{has_name, kind_at, items_pass, names_pass, tree_passes, value_passes, AreTables};
ghost use Rattle.f77_legal.specs.{Serve};
ghost use Rattle.f77_legal.specs.code.{Adds, first_breach};

use crate::clause::Clause;
use crate::dimensions::{are_shapes, takes};
use crate::kinds::{operand_kind, result_kind};
use crate::labels::{ends_badly, jumps_badly, names_no_label};
use crate::loops::sets_variable;
use crate::names::Names;
use crate::tables::Tables;
use f77_program::Line;
use f77_tree::{Expr, Kind, Name, Shared, Stmt};

/// What is found of a statement by itself.
#[derive(Clone, Copy, Debug, PartialEq, Eq)]
pub enum Broken {
    /// It breaks no clause.
    Nothing,
    /// It breaks this clause, and none that is tested before it.
    First(Clause),
    /// The statement has a name that is not in the table. The whole program has to be judged.
    UnknownName,
}

/// What is wrong with the part of a statement that was walked over.
#[derive(Clone, Copy)]
pub(crate) struct Flaws {
    /// A name is not in the table.
    names: bool,
    /// The kinds do not agree.
    kinds: bool,
    /// Bounds, subscripts or arguments have a wrong number or size.
    bounds: bool,
}

impl Flaws {
    /// A part of the kind `own` stands where the kind `required` is needed.
    fn check_kind(&mut self, own: Kind, required: Kind)
        ensures { Adds self.old self.new true (comparing.same_kind own required) true }
    {
        self.kinds |= own != required;
    }

    /// Notes whether bounds, or numbers of subscripts or arguments, are right.
    fn check_bounds(&mut self, are_right: bool)
        ensures { Adds self.old self.new true true are_right }
    {
        self.bounds |= !are_right;
    }

    /// Checks a name with so many subscripts, and gives its kind: INTEGER where the name is not in the table.
    fn check_name(&mut self, names: &Names, name: &Name, subscripts: usize) -> Kind
        ensures kind { result ≡ kind_at names.now name.now }
        ensures flaws { Adds self.old self.new (has_name names.now name.now) true
            (subscripts == length (array_bounds names.now name.now)) }
    {
        match names.said_of(name) {
            Some(facts) => {
                self.check_bounds(subscripts == facts.bounds.len());
                facts.kind
            }
            None => {
                self.names = true;
                self.check_bounds(subscripts == 0);
                Kind::Integer
            }
        }
    }

    /// Checks an expression that has to be of this kind.
    #[cycle(flaws)]
    #[tactic(auto, using(crate::proofs::Counts::count_trees))]
    fn check_tree(&mut self, names: &Names, kind: Kind, expr: &Expr)
        ensures { Adds self.old self.new (tree_passes (has_name names.now) (tree_of expr.now))
            (is_of_kind (kind_at names.now) kind (tree_of expr.now))
            (fits_bounds (array_bounds names.now) (tree_of expr.now)) }
    {
        match expr {
            Expr::Number(_) => self.check_kind(Kind::Integer, kind),
            Expr::Truth(_) => self.check_kind(Kind::Logical, kind),
            Expr::Reference(place) => {
                let own = self.check_name(names, &place.name, place.subscripts.len());
                self.check_kind(own, kind);
                self.check_items(names, &place.subscripts);
            }
            Expr::Call(function, arguments) => {
                self.check_kind(Kind::Integer, kind);
                self.check_bounds(takes(*function, arguments.len()));
                self.check_items(names, arguments);
            }
            Expr::Signed(_, inner) | Expr::ZeroPush(inner) => {
                self.check_kind(Kind::Integer, kind);
                self.check_tree(names, Kind::Integer, inner);
            }
            Expr::Not(inner) => {
                self.check_kind(Kind::Logical, kind);
                self.check_tree(names, Kind::Logical, inner);
            }
            Expr::Binary(operator, left, right) => {
                let operands = operand_kind(*operator);
                self.check_kind(result_kind(*operator), kind);
                self.check_tree(names, operands, left);
                self.check_tree(names, operands, right);
            }
        }
    }

    /// Checks subscripts or arguments. Each has to be INTEGER.
    #[cycle(flaws)]
    fn check_items(&mut self, names: &Names, items: &[Expr])
        ensures { Adds self.old self.new (items_pass (has_name names.now) (trees (map tree_of items.now)))
            (are_integer (kind_at names.now) (trees (map tree_of items.now)))
            (all_fit (array_bounds names.now) (trees (map tree_of items.now))) }
    {
        for item in items {
            self.check_tree(names, Kind::Integer, item);
        }
    }

    /// Checks an expression, if there is one, that has to be INTEGER.
    fn check_value(&mut self, names: &Names, value: Option<&Expr>)
        ensures { let tree = option_map (λ value. tree_of value.now) value.entry in
            Adds self.old self.new (value_passes (has_name names.now) tree)
            (is_of_kind_if_given (kind_at names.now) Integer tree) (value_fits (array_bounds names.now) tree) }
    {
        if let Some(value) = value {
            self.check_tree(names, Kind::Integer, value);
        }
    }

    /// Checks the expressions of a statement, and its target or DO variable (5.1, 5.4, 10.1, 10.2, 11.4 to 11.10,
    /// 15.10).
    #[tactic(auto, using(crate::proofs::Counts::count_trees))]
    fn check_statement(&mut self, names: &Names, stmt: &Stmt)
        ensures { Adds self.old self.new (names_pass (has_name names.now) (statement_of stmt.now))
            (kinds_agree (kind_at names.now) (statement_of stmt.now))
            (dimensions_fit (array_bounds names.now) (statement_of stmt.now)) }
    {
        match stmt {
            Stmt::Declare { items, .. } | Stmt::Dimension { items } => {
                self.check_bounds(are_shapes(items));
            }
            Stmt::Assign { target, value } => {
                let kind = self.check_name(names, &target.name, target.subscripts.len());
                self.check_items(names, &target.subscripts);
                self.check_tree(names, kind, value);
            }
            Stmt::LogicalIf {
                condition,
                statement,
            } => {
                self.check_tree(names, Kind::Logical, condition);
                self.check_statement(names, statement);
            }
            Stmt::BlockIf { condition } | Stmt::ElseIf { condition } => {
                self.check_tree(names, Kind::Logical, condition);
            }
            Stmt::Loop {
                variable,
                first,
                last,
                step,
                ..
            } => {
                let own = self.check_name(names, variable, 0);
                self.check_kind(own, Kind::Integer);
                self.check_tree(names, Kind::Integer, first);
                self.check_tree(names, Kind::Integer, last);
                self.check_value(names, step.as_ref());
            }
            _ => self.check_value(names, stmt.value()),
        }
    }

    /// What is wrong with the names, kinds and bounds of the statement.
    fn of(names: &Names, stmt: &Stmt) -> Flaws
        ensures names { result.names ≡ not (names_pass (has_name names.now) (statement_of stmt.now)) }
        ensures kinds { result.kinds ≡ not (kinds_agree (kind_at names.now) (statement_of stmt.now)) }
        ensures bounds { result.bounds ≡ not (dimensions_fit (array_bounds names.now) (statement_of stmt.now)) }
    {
        let mut flaws = Flaws {
            names: false,
            kinds: false,
            bounds: false,
        };
        flaws.check_statement(names, stmt);
        flaws
    }
}

/// The breach that was found first; or this clause on this line, if it is tested before that one.
fn earlier(first: Option<(Clause, u32)>, clause: Option<Clause>, line: u32) -> Option<(Clause, u32)>
    ensures { result ≡ broken.earlier first clause line }
{
    let Some(clause) = clause else {
        return first;
    };
    if first.is_some_and(|(other, _)| other.rank() <= clause.rank()) {
        return first;
    }
    Some((clause, line))
}

impl Tables {
    /// The first clause, in the order of test, that the statement breaks. `flaws` is what was found of its expressions.
    fn first_clause(
        &self,
        flaws: Flaws,
        lines: &[Shared<Line>],
        i: usize,
        stmt: &Stmt,
    ) -> Option<Clause>
        requires kinds { flaws.kinds ≡ not (kinds_agree (kind_at self.now.names) (statement_of stmt.now)) }
        requires bounds { flaws.bounds ≡ not (dimensions_fit (array_bounds self.now.names) (statement_of stmt.now)) }
        ensures { let program = map line_of lines.now in
            Serve self.now program → result ≡ legal.first_clause program i (statement_of stmt.now) }
    {
        if flaws.kinds {
            return Some(Clause::Kinds);
        }
        if flaws.bounds {
            return Some(Clause::Bounds);
        }
        if names_no_label(&self.labels, stmt) {
            return Some(Clause::NamedLabels);
        }
        if jumps_badly(&self.labels, lines, stmt) {
            return Some(Clause::Targets);
        }
        if ends_badly(&self.labels, lines, stmt) {
            return Some(Clause::Terminals);
        }
        if self.blocks.breaks(lines, i) || self.ranges.breaks_range(i) {
            return Some(Clause::Nests);
        }
        if self.jumps_in(i, stmt) {
            return Some(Clause::Jumps);
        }
        if sets_variable(&self.ranges, lines, i, stmt) {
            return Some(Clause::Variables);
        }
        None
    }

    /// The first clause, in the order of test, that `stmt` breaks if it stands in the place of statement `i`, counted
    /// from 0. UnknownName where a name of it is not in the table. It takes no memory.
    pub fn first_broken(&self, lines: &[Shared<Line>], i: usize, stmt: &Stmt) -> Broken
        ensures names { names_pass (has_name self.now.names) (statement_of stmt.now) ≡ has_known_names result }
        ensures first { let program = map line_of lines.now in Serve self.now program → has_known_names result ≡ true
            → clause_found result ≡ legal.first_clause program i (statement_of stmt.now) }
    {
        let flaws = Flaws::of(&self.names, stmt);
        if flaws.names {
            return Broken::UnknownName;
        }
        match self.first_clause(flaws, lines, i, stmt) {
            Some(clause) => Broken::First(clause),
            None => Broken::Nothing,
        }
    }

    /// The first of all clauses, in the order of test, that some statement breaks, with the line of the first that
    /// breaks it.
    #[tactic(auto, using(crate::proofs::Served::own_tables_serve))]
    pub(crate) fn first_of_all(&self, lines: &[Shared<Line>]) -> Option<(Clause, u32)>
        ensures { AreTables self.now (map line_of lines.now) → result ≡ first_breach (map line_of lines.now) }
    {
        let mut first: Option<(Clause, u32)> = None;
        for i in 0..lines.len() {
            let line = &lines[i];
            let flaws = Flaws::of(&self.names, &line.stmt);
            let clause = self.first_clause(flaws, lines, i, &line.stmt);
            first = earlier(first, clause, line.line);
        }
        first
    }
}

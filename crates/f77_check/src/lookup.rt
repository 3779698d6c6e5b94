//! Looking up the names in expressions of a legal program.

ghost use Rattle.std.specs.Prelude.{◌≡◌, ◌<◌, length, map, option_map, IfOk, IfSome};
ghost use Rattle.std.specs.List.{All};
ghost use Rattle.f77_tree.specs.Tree.{Tree};
ghost use Rattle.f77_tree.specs.View.{tree_of, trees};
ghost use Rattle.f77_tree.specs.declared.tree.Kind.{Kind};
ghost use Rattle.f77_tree.specs.declared.tree.Kind.TheVariants.{Integer, Logical};
ghost use Rattle.f77_check.specs.{IsIncrementation, IsElement, IsNumber, IsChosen, IsCondition};
ghost use Rattle.f77_check.specs.code.{HoldsNumber, IsReadyTree, by_tables};

use crate::resolve::Resolver;
use f77_actions::{Arithmetic, Condition, Connective, Element, Number, Relation};
use f77_tree::{Expr, Intrinsic, Name, Sign};
use std::alloc::{AllocError, Global};

impl Resolver {
    /// A variable or an array element, from its name and its subscripts.
    #[cycle(numbers)]
    #[tactic(auto, using(f77_legal::proofs::Counts::count_trees, crate::proofs::Items::one_item, crate::proofs::Items::two_items))]
    pub(crate) fn element(
        &self,
        alloc: Global,
        name: &Name,
        subscripts: &[Expr],
    ) -> Result<Element, AllocError>
        requires { (kind : Kind)
            × IsReadyTree self.now kind (Tree.Reference name.now (trees (map tree_of subscripts.now))) }
        ensures { IfOk result (by_tables self.now IsElement name.now (trees (map tree_of subscripts.now))) }
    {
        let names = &self.tables.names;
        let first = self.slots.first(names, name);
        // It has as many bounds as subscripts, so those of a variable need not be looked up.
        if subscripts.is_empty() {
            return Ok(Element::Variable(first));
        }
        match (names.bounds(name), subscripts) {
            ([bound], [subscript]) => Ok(Element::Vector {
                first,
                bound: *bound,
                subscript: self.boxed(alloc, subscript)?,
            }),
            ([rows, columns], [row, column]) => Ok(Element::Matrix {
                first,
                rows: *rows,
                columns: *columns,
                row: self.boxed(alloc, row)?,
                column: self.boxed(alloc, column)?,
            }),
            _ => unreachable!(),
        }
    }

    /// An INTEGER expression. A constant above 2147483647 is TooLarge.
    #[cycle(numbers)]
    #[tactic(auto, using(crate::proofs::Operands::arithmetic_takes))]
    pub(crate) fn number(&self, alloc: Global, expr: &Expr) -> Result<Number, AllocError>
        requires { IsReadyTree self.now Integer (tree_of expr.now) }
        ensures { IfOk result (by_tables self.now IsNumber (tree_of expr.now)) }
    {
        match expr {
            Expr::Number(value) => match i32::try_from(*value) {
                Ok(value) => Ok(Number::Constant(value)),
                Err(_) => Ok(Number::TooLarge),
            },
            Expr::Reference(place) => {
                Ok(Number::Element(self.element(alloc, &place.name, &place.subscripts)?))
            }
            Expr::Call(function, arguments) => self.call(alloc, *function, arguments),
            Expr::Signed(sign, operand) => match sign {
                Sign::Plus => self.number(alloc, operand),
                Sign::Minus => Ok(Number::Negated(self.boxed(alloc, operand)?)),
            },
            Expr::Binary(operator, left, right) => Ok(Number::Binary(
                Arithmetic::of(*operator).unwrap(),
                self.boxed(alloc, left)?,
                self.boxed(alloc, right)?,
            )),
            Expr::ZeroPush(operand) => Ok(Number::ZeroPush(self.boxed(alloc, operand)?)),
            _ => unreachable!(),
        }
    }

    /// An INTEGER expression, on the heap.
    #[cycle(numbers)]
    #[tactic(auto, unfolding(crate::specs::code::Boxed::HoldsNumber))]
    fn boxed(&self, alloc: Global, expr: &Expr) -> Result<Box<Number>, AllocError>
        requires { IsReadyTree self.now Integer (tree_of expr.now) }
        ensures { IfOk result (by_tables self.now HoldsNumber (tree_of expr.now)) }
    {
        Ok(Box::new(alloc, self.number(alloc, expr)?)?)
    }

    /// A call of an intrinsic function (15.10).
    #[cycle(numbers)]
    #[tactic(auto, using(f77_legal::proofs::Counts::count_trees, crate::proofs::Items::one_item, crate::proofs::Items::two_items))]
    fn call(
        &self,
        alloc: Global,
        function: Intrinsic,
        arguments: &[Expr],
    ) -> Result<Number, AllocError>
        requires { IsReadyTree self.now Integer (Tree.Call function (trees (map tree_of arguments.now))) }
        ensures { IfOk result
            (by_tables self.now IsNumber (Tree.Call function (trees (map tree_of arguments.now)))) }
    {
        match (function, arguments) {
            (Intrinsic::Mod, [left, right]) => Ok(Number::Binary(
                Arithmetic::Modulus,
                self.boxed(alloc, left)?,
                self.boxed(alloc, right)?,
            )),
            (Intrinsic::Iabs, [operand]) => Ok(Number::Absolute(self.boxed(alloc, operand)?)),
            (Intrinsic::Min0, _) => self.chosen(alloc, Arithmetic::Least, arguments),
            (Intrinsic::Max0, _) => self.chosen(alloc, Arithmetic::Greatest, arguments),
            _ => unreachable!(),
        }
    }

    /// MIN0 or MAX0 of some numbers, as operations on two numbers each.
    #[cycle(numbers)]
    fn chosen(
        &self,
        alloc: Global,
        operation: Arithmetic,
        items: &[Expr],
    ) -> Result<Number, AllocError>
        requires some { 0 < length items.now }
        requires ready { All (λ item. IsReadyTree self.now Integer (tree_of item)) items.now }
        ensures { IfOk result (by_tables self.now IsChosen operation (trees (map tree_of items.now))) }
    {
        let last = items.len() - 1;
        let mut chosen = self.number(alloc, &items[last])?;
        for i in (0..last).rev() {
            let number = self.boxed(alloc, &items[i])?;
            chosen = Number::Binary(operation, number, Box::new(alloc, chosen)?);
        }
        Ok(chosen)
    }

    /// A LOGICAL expression.
    #[tactic(auto, using(crate::proofs::Operands::connective_takes))]
    pub(crate) fn condition(&self, alloc: Global, expr: &Expr) -> Result<Condition, AllocError>
        requires { IsReadyTree self.now Logical (tree_of expr.now) }
        ensures { IfOk result (by_tables self.now IsCondition (tree_of expr.now)) }
    {
        match expr {
            Expr::Truth(value) => Ok(Condition::Constant(*value)),
            Expr::Reference(place) => {
                Ok(Condition::Element(self.element(alloc, &place.name, &place.subscripts)?))
            }
            Expr::Not(operand) => {
                Ok(Condition::Not(Box::new(alloc, self.condition(alloc, operand)?)?))
            }
            Expr::Binary(operator, left, right) => match Relation::of(*operator) {
                Some(relation) => Ok(Condition::Related(
                    relation,
                    self.number(alloc, left)?,
                    self.number(alloc, right)?,
                )),
                None => Ok(Condition::Connected(
                    Connective::of(*operator).unwrap(),
                    Box::new(alloc, self.condition(alloc, left)?)?,
                    Box::new(alloc, self.condition(alloc, right)?)?,
                )),
            },
            _ => unreachable!(),
        }
    }

    /// The incrementation parameter of a DO: 1 where none is written (11.10).
    pub(crate) fn step(&self, alloc: Global, step: &Option<Expr>) -> Result<Number, AllocError>
        requires { IfSome step.now (λ step. IsReadyTree self.now Integer (tree_of step)) }
        ensures { IfOk result (by_tables self.now IsIncrementation (option_map tree_of step.now)) }
    {
        match step {
            None => Ok(Number::Constant(1)),
            Some(step) => self.number(alloc, step),
        }
    }
}

//! What holds between any two steps of an exchange. Other crates cite it through the trait here and not by the rule: a
//! clause that names the rule alone does not see the bound of the exchange.

ghost use Rattle.std.specs.Prelude.{ℕ, List};
ghost use Rattle.mothra_exchange.specs.declared.view.View.{View as ViewModel};
ghost use Rattle.mothra_exchange.specs.Table.{BetweenStepsOf};

use crate::rule::Bound;
use crate::table::TableExchange;
use crate::view::View;
use atomic_table::TableRule;

/// An exchange that changes in single steps, and what its type keeps between any two of them.
pub trait Stepwise {
    // A property of the words and of the views that holds between any two steps of this exchange.
    ghost between: { Self → (List ℕ → List ViewModel → Type 0) → Type 0 };
}

impl<const C: u32> Stepwise for TableExchange<C> {
    ghost between = { λ e P. BetweenStepsOf ⟦<Bound<C> as TableRule<(), View, [u32; 22]>>⟧.holds e P };
}

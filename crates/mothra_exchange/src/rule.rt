//! The rule that words and views keep between any two steps, and what a step of each kind shows the pass that makes
//! it. An operator is named by its place, 0 to 21, since a step of `atomic_table` knows the place of its word.
//!
//! A load changes no word. An offer, a take or a close that wins changes the word of one operator and adds one event.
//! A compare-exchange that loses changes what the pass has seen and nothing else. A split shares out one view, and a
//! join unites two.

use crate::view::View;
use atomic_table::{Join, Play, Split, TableRule};

/// The rule of an exchange in which `C` tickets of an operator may wait.
pub struct Bound<const C: u32>;

impl<const C: u32> TableRule<(), View, [u32; 22]> for Bound<C> {
    ghost use Rattle.mothra_exchange.specs.code.Rule.{HoldsRule};
    ghost use Rattle.mothra_exchange.specs.View.{whole_view};

    ghost holds = { HoldsRule C };

    ghost first = { whole_view };
}

/// What a load of a word shows.
pub(crate) struct LoadPlay<const C: u32>;

impl<const C: u32> Play<(), View> for LoadPlay<C> {
    ghost use Rattle.mothra_exchange.specs.code.Rule.{Looks};

    ghost then = { Looks C };
}

/// What the load that ends a merge shows.
pub(crate) struct SettlePlay<const C: u32>;

impl<const C: u32> Play<(), View> for SettlePlay<C> {
    ghost use Rattle.mothra_exchange.specs.code.Rule.{Settles};

    ghost then = { Settles C };
}

/// How views are split and joined.
pub(crate) struct Sharing;

impl Split<View> for Sharing {
    ghost use Rattle.mothra_exchange.specs.View.{view_after_split, split_off_view};

    ghost left = { view_after_split };

    ghost right = { split_off_view };
}

impl Join<View> for Sharing {
    ghost use Rattle.mothra_exchange.specs.code.View.{merging_view};
    ghost use Rattle.mothra_exchange.specs.View.{spent_view};

    ghost both = { merging_view };

    ghost spent = { spent_view };
}

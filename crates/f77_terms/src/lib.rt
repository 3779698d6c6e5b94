//! Terms over atoms, path conditions on them, and whether a path is refuted.
//!
//! A term is a polynomial over atoms. A valuation gives each atom a whole number, and it is never extended: what a
//! clause says of a path it says of each valuation. An atom's key says which number is meant, by terms over earlier
//! atoms. Read `paths::refuted` first: where it answers true, no valuation fits the path.
#![tactic(auto)]

mod assignment;
pub mod atoms;
pub mod bounds;
mod elimination;
mod functions;
pub mod items;
pub mod knowing;
mod near;
pub mod numbers;
pub mod paths;
pub mod ranges;
mod splitting;
pub mod terms;

pub use atoms::{Function, Key, Table, interned, law_of_atoms, new_table};
pub use bounds::{is_refuted, sign_bounds};
pub use items::item_at;
pub use knowing::{is_ranged_off, know_division, know_function};
pub use numbers::common_divisor;
pub use paths::{
    Path, add_below, add_equal, add_range, add_unequal, copied_path, new_path, refuted, settle,
};
pub use ranges::{Range, atom_range, hull, is_empty, is_within, term_range};
pub use terms::{Part, Term, atom_term, combined, constant_of, constant_term, copy};

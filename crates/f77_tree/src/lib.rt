//! The statements of the FORTRAN 77 subset as trees; their nodes in order, the limits that are
//! counted over them, and one node swapped; and the grammar: which texts spell them.
#![tactic(auto)]

pub mod characters;
mod comparing;
mod copying;
mod data;
mod declaration;
mod form;
mod intrinsic;
pub mod law;
mod limits;
mod name;
mod node;
mod node_list;
mod operator;
mod replacement;
mod shared;
mod statement;
mod swapping;
mod swapping_data;
mod swapping_expression;
mod swapping_node;
mod tree;

pub use data::{Constant, DataGroup, Value};
pub use declaration::{Decl, all_bounded};
pub use form::Form;
pub use intrinsic::Intrinsic;
pub use limits::{LARGEST_INTEGER, are_small};
pub use name::{LONGEST_NAME, Name, are_short};
pub use node::Node;
pub use node_list::nodes;
pub use operator::{Operator, Sign};
pub use replacement::Replacement;
pub use shared::Shared;
pub use statement::Stmt;
pub use swapping::swap_node;
pub use tree::{Expr, Kind, Ref};

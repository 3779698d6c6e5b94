//! Programs of statements: which statements some text spells, their canonical
//! texts, programs with one statement changed, and how programs are printed.
#![tactic(auto)]

mod canonical;
mod data;
mod declaration;
mod fault;
mod formed;
mod group;
mod joined;
pub mod law;
mod patching;
mod printing;
mod program;

pub use canonical::print_stmt;
pub use fault::SyntaxFault;
pub use formed::{is_action, is_formed};
pub use group::{Group, group_of, is_end};
pub use joined::print_enclosed;
pub use printing::print;
pub use program::{Line, Program};

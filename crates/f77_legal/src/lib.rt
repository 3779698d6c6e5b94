//! Which programs are legal: what a program says of its names,
//! labels, blocks and loops, and the first clause that it breaks.
#![tactic(auto)]

pub mod blocks;
mod broken;
mod clause;
mod dimensions;
mod enclosing;
mod fault;
pub mod heading;
mod initial_values;
mod kinds;
mod labels;
pub mod law;
mod legal;
mod loops;
pub mod names;
mod patches;
mod tables;
mod uses;

pub use blocks::Blocks;
pub use broken::Broken;
pub use clause::Clause;
pub use enclosing::Ranges;
pub use fault::CheckFault;
pub use kinds::result_kind;
pub use labels::{Labels, is_terminal};
pub use legal::judge;
pub use names::Names;
pub use patches::keeps_frame;
pub use tables::Tables;

//! What each operator puts in the place of a node.
#![tactic(auto)]

mod expressions;
mod fault;
mod operands;
mod pools;
mod replacing;

pub use fault::OpsFault;
pub use operands::Operand;
pub use pools::Pools;
pub use replacing::gives;

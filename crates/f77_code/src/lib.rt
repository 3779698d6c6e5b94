//! Statements over slots, and the same as instructions over registers.
#![tactic(auto)]

mod assignment;
mod blocks;
mod branching;
mod code;
mod compile;
mod compiling;
mod constants;
mod control;
mod ending;
mod evaluate;
mod instruction;
mod instructions;
mod kept_step;
mod law;
mod looping;
mod noting;
mod operation;
mod operators;
mod places;
mod registers;
mod replacing;
mod term;
mod watched;

pub use blocks::{Stand, block};
pub use code::{Code, compiled};
pub use constants::Constants;
pub use control::{Place, Turn};
pub use ending::{ENDS, RETURNED, STOPPED, finish_at};
pub use instruction::{Instruction, Operation, Parameters};
pub use kept_step::{KeptStep, first_step};
pub use law::{codes_go_together, comes_back, more_registers, moves_simulated, twins_do_the_same};
pub use noting::{Passed, follow};
pub use places::Places;
pub use replacing::ChangedCode;
pub use term::{Pair, Term};
pub use watched::block_to;

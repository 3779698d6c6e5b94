//! Whether a program with one statement changed is equivalent, by symbolic execution of both.
//!
//! The program is walked alone from its start, and from each place to which control comes on more than one way, to the
//! next such place, where what is known then has to be allowed. Wherever it comes to the changed statement, both are
//! walked together, as a product program, until they meet: at one place, where all slots hold the same, with as much
//! room for steps as at first.
//! What slots hold are terms over what they held where the walk starts, and what is known is a path condition on these.
//! Read `equivalent::Tours::steps_to_spare` first, then `specs/Walk.antt`, which says why the walk suffices.
#![tactic(auto)]

mod arithmetic;
mod arriving;
mod asking;
mod change;
pub mod cuts;
pub mod equivalent;
mod evaluate;
mod evaluator;
mod halt;
pub mod law;
mod looping;
mod meeting;
mod memory;
mod mending;
pub mod rows;
mod samples;
mod sides;
mod stepping;
pub mod visiting;
mod walking;
pub mod work;

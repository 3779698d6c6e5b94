//! What tests share: the rows of their tables, programs from texts of statements, programs checked and changed, texts
//! that are compared, and the values of dummy arguments written as words.
#![tactic(auto)]

mod originals;
mod patches;
mod programs;
mod rows;
mod sources;
mod suites;
mod texts;
mod words;

pub use originals::{ADD, LOOP};
pub use patches::{changed, enclosed, enclosing, number_and_text, patched};
pub use programs::checked;
pub use rows::parts;
pub use sources::{program, read, repeated, source};
pub use suites::suite;
pub use texts::expect;
pub use words::arguments;

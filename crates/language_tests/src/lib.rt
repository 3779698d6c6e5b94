//! Tests of the public calls on lines, statements and programs, of checked programs and of the operators' mutants: what
//! no command shows. A row of a table is an input, ` => ` and what it gives.
#![tactic(auto)]

#[cfg(test)]
mod cards;
#[cfg(test)]
mod checked;
#[cfg(test)]
mod copies;
#[cfg(test)]
mod edits;
#[cfg(test)]
mod equality;
#[cfg(test)]
mod fault_texts;
#[cfg(test)]
mod lists;
#[cfg(test)]
mod nodes;
#[cfg(test)]
mod patch_memory;
#[cfg(test)]
mod patches;
#[cfg(test)]
mod plans;
#[cfg(test)]
mod program_of;
#[cfg(test)]
mod resolved;
#[cfg(test)]
mod resolved_texts;
#[cfg(test)]
mod shown;
#[cfg(test)]
mod trees;

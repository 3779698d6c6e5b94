//! Tests of what is refuted: a body that always gives up keeps each contract.
#![tactic(auto)]

#[cfg(test)]
mod atoms;
#[cfg(test)]
mod functions;
#[cfg(test)]
mod knowing;
#[cfg(test)]
mod made;
#[cfg(test)]
mod refutations;

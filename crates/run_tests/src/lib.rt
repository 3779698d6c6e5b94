//! Tests of the public calls that run programs, and a plain model of runs to which `run` is held. The model is the
//! definitions of `f77_meaning` as a slow interpreter: it looks up names and labels in the statements at each step, and
//! has no slots and no code. The comment at each case names the definition that it follows, and the section of ANSI
//! X3.9-1978.
#![tactic(auto)]

#[cfg(test)]
mod arithmetic;
#[cfg(test)]
mod chance;
#[cfg(test)]
mod changed;
#[cfg(test)]
mod changes;
#[cfg(test)]
mod comparing;
#[cfg(test)]
mod control;
#[cfg(test)]
mod expressions;
#[cfg(test)]
mod generated;
#[cfg(test)]
mod generating;
#[cfg(test)]
mod grammar;
#[cfg(test)]
mod known;
#[cfg(test)]
mod model;
#[cfg(test)]
mod runs;
#[cfg(test)]
mod statements;
#[cfg(test)]
mod store;
#[cfg(test)]
mod tally;
#[cfg(test)]
mod unit;

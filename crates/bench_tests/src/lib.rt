//! Tests of benches, matrices, scores, workers and feeders, as their callers see them.
#![tactic(auto)]

#[cfg(test)]
mod benches;
#[cfg(test)]
mod collected;
#[cfg(test)]
mod refused_memory;
#[cfg(test)]
mod scores;
#[cfg(test)]
mod tricked;
#[cfg(test)]
mod tricky;
#[cfg(test)]
mod workers;

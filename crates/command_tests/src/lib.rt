//! Tests of the commands for what no row of `rows` can show: streams that fail, memory that is refused, words with
//! blanks, bytes that are no text, and jobs that are long.
#![tactic(auto)]

#[cfg(test)]
mod answers;
#[cfg(test)]
mod calls;
#[cfg(test)]
mod damaged_jobs;
#[cfg(test)]
mod failing_streams;
#[cfg(test)]
mod fault_texts;
#[cfg(test)]
mod long_jobs;
#[cfg(test)]
mod long_programs;
#[cfg(test)]
mod refused_memory;
#[cfg(test)]
mod streams;
#[cfg(test)]
mod words;

//! The exchange through which feeders hand the tickets of mutants to workers: for each operator a
//! line of numbers from 1, offered in order, taken in order, each once, and closed once.
//!
//! There are two forms, which give the same answers. `LockedExchange` is one lock around a log. In
//! `TableExchange` each operator is one packed word, and each call is one load and at most one
//! compare-exchange.
#![tactic(auto)]

mod answer;
mod calls;
mod exchange;
mod fault;
mod gate;
pub mod law;
mod locked;
mod log;
#[cfg(test)]
mod lost_races;
mod rule;
mod sharing;
mod state;
mod stepwise;
mod table;
mod table_gate;
mod tally;
mod view;
mod word;

pub use answer::{Close, Offer, Take};
pub use fault::ExchangeFault;
pub use gate::Gate;
pub use locked::{LockedExchange, LockedPass};
pub use log::Event;
pub use mothra_codes::Ticket;
pub use state::State;
pub use stepwise::Stepwise;
pub use table::{Pass, TableExchange};
pub use tally::Tally;

//! The kill matrix, the mutation score and the report; feeders and workers that come to it by many threads.
#![tactic(auto)]

mod analysis;
mod closing;
mod collecting;
mod counts;
mod driving;
mod entries;
mod feeding;
pub mod law;
mod matrix;
mod plan_exchange;
mod report;
mod results;
mod row_map;
mod threads;
mod working;

pub use analysis::analyse;
pub use collecting::collect;
pub use driving::drive;
pub use feeding::feed;
pub use matrix::{Entry, Matrix};
pub use mothra_verdicts::{Bench, BenchFault, Row, Verdicts, verdict_of};
pub use plan_exchange::{MOST_WAITING, exchange_of};
pub use report::render;
pub use working::work;

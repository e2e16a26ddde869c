//! Dates of a search engine, as nanoseconds since 1970.
#![tactic(auto)]

mod date_time;
mod serialized;

pub use date_time::{DateTime, DateTimePrecision};

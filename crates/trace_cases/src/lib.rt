//! Traces as tests: each is carried out in the way that its lines choose, and compared with the expectations in its
//! comments. One with a poke is audited; the steps after `start` are made in each order; any other trace is replayed.
#![tactic(auto)]

mod audited;
mod checking;
mod found;
mod kinds;
pub mod laws;
mod race_notes;
mod raced;
mod races;
mod ways;

pub use checking::{check, record};

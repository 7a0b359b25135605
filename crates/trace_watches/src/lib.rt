//! Watches: `#! owner_of FRAME REPLY` before `boot` says how the query must be answered after each step of a trace, in any order in which
//! the steps after `start` may be made. A watch is met by what is recorded for the query behind the step.
#![tactic(auto)]

mod answering;
mod asking;
mod checking;
pub mod laws;
mod listing;
mod telling;
mod words;

pub use checking::check;
pub use listing::WatchLine;

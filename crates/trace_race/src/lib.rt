//! Races: a trace is read whole, the steps before `start` are made in order, and those after it by a thread for each
//! CPU.
#![tactic(auto)]

mod booting;
mod buffered;
mod course;
mod fault;
mod judged;
pub mod laws;
mod making;
mod ordering;
mod race_end;
mod racing;
mod reading;
mod telling;
mod workers;

pub use buffered::{Halted, race_buffered};
pub use course::{Asked, Course};
pub use fault::RaceFault;
pub use racing::race;

//! How the lines of a trace are read, and how a run ends.
#![tactic(auto)]

mod ahead;
mod counting;
mod outcome;
mod progress;
mod reading;
mod source;
mod status;
mod whole;

pub use ahead::ReadAhead;
pub use counting::Counting;
pub use outcome::{EngineFault, Outcome};
pub use progress::{Progress, Silent};
pub use reading::{MOST_BYTES, read_line};
pub use source::{Failed, Source};
pub use status::exit_status;
pub use whole::lines;

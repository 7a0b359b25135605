//! All replies that the steps made at once in a trace may get, in any order of the CPUs' steps: each outcome, with an
//! order that gives it; and whether the replies of a report are one of these.
#![tactic(auto)]

mod booting;
mod finding;
pub mod laws;
mod making;
mod observed;
mod reading;
mod telling;
mod writing;

pub use finding::{Found, Outcomes, find_outcomes};
pub use reading::{Read, read_trace};
pub use telling::{Told, report_order, report_outcomes};
pub use writing::{add_kinds, add_places, is_among, kinds_at, text_at};

//! Traces with expectations: a comment right after a line has the report that the line must give.
#![tactic(auto)]

mod carrying;
mod checking;
mod comment;
mod expecting;
pub mod laws;
mod missing;
mod recording;
pub mod shown;
mod writing;

pub use carrying::{Carried, Watch, carry_out, lines_of_report, report_of_fault};
pub use checking::{Checked, check, check_missed, check_reported};
pub use comment::expectation;
pub use expecting::count_expected;
pub use missing::{Miss, misses};
pub use recording::{add_recorded, add_rest, record, record_reported, text_of_lines};

//! Traces as text: what their lines say, and the reports of their runs.
#![tactic(auto)]

mod at_end;
mod buffered;
mod by_place;
mod bytes_read;
mod bytes_replayed;
mod bytes_written;
mod fault;
pub mod laws;
mod oracle;
mod player;
mod report;
mod session;
mod sink;
mod trace;

pub use at_end::{replay_at_end, replay_at_end_buffered};
pub use buffered::{Stopped, finish, play_buffered, replay_buffered};
pub use by_place::line_run;
pub use bytes_read::Bytes;
pub use bytes_replayed::{Replayed, replay_bytes};
pub use bytes_written::Collected;
pub use fault::Fault;
pub use oracle::{GhostOracle, NoOracle, Oracle, Verdict};
pub use player::{MOST_LINES, Player, play_trace};
pub use report::ReportLine;
pub use session::{Reported, Session, Stop, boot_line, told_memory};
pub use sink::Sink;
pub use trace::{
    faulted, replay, replay_with, report_answer, report_audited, report_end, report_illegal, tell,
};
pub use trace_reader::{Counting, EngineFault, Failed, Outcome, Source};

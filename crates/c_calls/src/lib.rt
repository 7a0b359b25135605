//! Calls for a hypervisor that is tested: the state at boot, the lines of a trace that records a run, and a call that may come next.
#![tactic(auto)]

mod boot_state;
pub mod laws;
mod lines;
mod step;
mod suggest;
mod text;

pub use boot_state::{Unbooted, boot_lists};
pub use lines::{Unwritten, write_call, write_start};
pub use step::step_to_c;
pub use suggest::{Suggested, Unsuggested, suggested_call};

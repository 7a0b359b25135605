//! The parts that calls use, their logs, and the changes that they offer in words of the reference state.
#![tactic(auto)]

mod cpu;
mod log;
mod parts;
mod shared;

pub use log::Log;
pub use parts::{CpuState, GuestPart, SharedPart, VmPart};
pub use shared::{SharedNeed, SharedPlan};

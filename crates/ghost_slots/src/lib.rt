//! Whether slots, loads, tickets, guests and hands of a state on lists agree.
#![tactic(auto)]

mod cpus;
mod fault;
pub mod laws;
mod places;
mod slots;

pub use fault::{SlotFault, first_slot_fault};

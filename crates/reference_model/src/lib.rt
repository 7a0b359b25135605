//! The reference model: the state that all parts of the hypervisor's memory core make up, the answer and the changes of
//! each call, and the laws of states and runs.
#![tactic(auto)]

mod changes;
pub mod laws;
pub mod rows;

pub use changes::{
    Changes, CpuChange, GuestChange, Loaded, MapChange, SlotChange, Stage, Ticket, Update,
};

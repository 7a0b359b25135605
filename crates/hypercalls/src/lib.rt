//! The step by its kind of use, and on all parts: the parts that it uses, and the execution of a decision.
#![tactic(auto)]

mod carry;
pub mod laws;
mod parts;
mod rows;
mod step;
mod used_parts;

pub use parts::Parts;
pub use step::{reply_of, step_alone, step_on_both, step_on_guest, step_on_shared, step_on_vms};
pub use used_parts::{UsedParts, uses, uses_shared, uses_vms};

//! The content of a Guest part: the guest's tree and maplets, its pool, phase, generation and kind, and the changes
//! that calls make of it.
#![tactic(auto)]

mod body;
mod changes;
mod guest;
mod hand;
mod reads;

pub use body::{Body, Phase};
pub use guest::{Guest, GuestPlan};

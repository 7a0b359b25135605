//! What traces have tried: how often each call was made, how often each refusal of it came, and in which conditions of a frame.
#![tactic(auto)]

mod condition;
mod counting;
mod kinds;
pub mod laws;
mod looking;
mod rows;
mod steps;
mod telling;

pub use condition::Condition;
pub use rows::Row;
pub use steps::{Seen, add_steps};
pub use telling::{Covered, cover};

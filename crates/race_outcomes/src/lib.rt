//! The replies that CPUs may get which make their steps at once: all that some order of the steps gives, by the model.
#![tactic(auto)]

mod answer;
mod finding;
mod kept;
pub mod laws;
mod layer;
mod node;
mod same;

pub use finding::{Outcome, OutcomesFault, explained, first_steps, outcomes};
pub use node::Turn;

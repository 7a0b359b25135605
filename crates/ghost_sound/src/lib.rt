//! Whether a state is sound: one owner and one borrower of each frame, and none borrowed that isn't shared.
#![tactic(auto)]

mod finding;
pub mod laws;
mod leaves;
mod pairs;
mod share;
mod sound;
mod text;

pub use finding::{Place, Unsound};
pub use sound::unsound;

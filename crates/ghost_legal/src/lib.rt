//! Whether a state is legal: whether each frame is in one condition, and all parts agree.
#![tactic(auto)]

mod any_lists;
mod apart;
mod condition;
mod finding;
mod frames;
mod guests;
mod held;
pub mod laws;
mod places;
mod state;
mod text;
mod trees;

pub use any_lists::illegal_lists;
pub use apart::have_first_blocks;
pub use finding::{Facts, Holder, Illegal, TreeBlock, Unlawful};
pub use state::{illegal, illegal_but_for_trees};

//! The trees of roots that anyone handed in: pages of tables are followed by frame numbers, each tree by its root's profile, levels
//! and pages, without the pages that are left out.
#![tactic(auto)]

mod entries;
mod first;
mod kept;
pub mod laws;
mod root;
mod skips;
mod tested;
mod tree;
mod trees;

pub use root::{PlainRange, PlainRoot, RootFault};
pub use trees::{TreeFault, trees_of};

//! Trees of tables that lie in pages of memory: a table word leads on to the page of its frame, as hardware follows it.
#![tactic(auto)]

mod first;
mod follow;
pub mod laws;
mod reached;
mod runs;
mod trees;
mod walk;

pub use follow::{PlainPage, PlainRoot};
pub use reached::{Reached, Stopped};
pub use trees::{TreeFault, trees_of};
pub use walk::walked;

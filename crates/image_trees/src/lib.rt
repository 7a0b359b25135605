//! Trees whose tables lie in an image of memory: what each page has, by the words that the image's pages have.
#![tactic(auto)]

mod kept;
mod records;
mod root;
mod walk;

pub use records::{Records, denied_frame, with_states};
pub use root::{Root, Tree, Unwalked};
pub use walk::walk_tree;

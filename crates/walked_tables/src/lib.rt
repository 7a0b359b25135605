//! A tree whose tables lie in pages of memory, walked by frame numbers, its words read by a profile: what each page has,
//! as the coarsest list of runs, and the tables that the walk reached.
#![tactic(auto)]

mod follow;
pub mod laws;
mod reached;
mod roots;
mod runs;
mod said;
mod walk;

pub use follow::TablePage;
pub use reached::{Reached, Stopped};
pub use roots::{are_whole, root_pages};
pub use said::Said;
pub use walk::walked;

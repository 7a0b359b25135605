//! The dump of a memory image: its trees as runs, and what isn't sound in them, as text.
#![tactic(auto)]

mod collect;
mod dump;
mod image;
pub mod laws;
mod line;
mod looks;
mod picture;
mod places;
mod records;
mod skip;
mod texts;

pub use dump::{Dumped, NotDumped, Shape, dump_trees};
pub use image::{Form, dump_image, dump_status};
pub use line::DumpLine;
pub use skip::Skip;

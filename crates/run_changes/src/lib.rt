//! The differences of two lists of runs, page by page.
#![tactic(auto)]

mod change;
mod finding;

pub use change::Change;
pub use finding::{changes, until};

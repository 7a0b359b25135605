//! A change of a range of a tree, all or nothing, with reserved tables. `walk_plan` finds the number of tables that it
//! needs.
#![tactic(auto)]

mod change;
mod open;
mod walk;

pub use change::{set, set_with};
pub use walk_plan::{Spare, need, release, reserve, reserve_tables};

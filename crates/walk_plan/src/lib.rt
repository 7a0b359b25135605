//! The number of tables that a change of a range of a tree needs, and the tables reserved for it.
#![tactic(auto)]

mod change;
pub mod laws;
mod needs;
mod spare;

pub use change::Change;
pub use needs::{need, need_of_new};
pub use spare::{Spare, drain, release, reserve, reserve_tables};

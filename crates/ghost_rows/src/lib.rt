//! The owner row of each memory frame from scratch: by the maps, the tables, the pools and the hands of a state on lists.
#![tactic(auto)]

mod rows;

pub use rows::{are_from_scratch, rows_from_scratch};

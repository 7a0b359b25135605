//! Where in a line of a trace a fault is: what was found there, and what was expected.
#![tactic(auto)]

mod beside;
mod blame;
mod column;
mod form;
pub mod laws;
mod line;
mod names;
mod placing;
mod saying;
mod wanted;

pub use beside::{add_file_line, fault_reported, text_beside};
pub use placing::add_place;

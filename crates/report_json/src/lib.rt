//! The lines of reports as JSON: an object a line, by tables of the forms that a report's lines have.
//!
//! The tables are in docs/JSON.md, for those who read the objects.
#![tactic(auto)]

mod cutting;
mod forms;
pub mod laws;
mod objects;
mod tables;
mod values;
mod writing;

pub use forms::{Field, Form, Kind};
pub use objects::json_of;
pub use tables::{CHECKS, DUMPS, EXPLANATIONS, OUTCOMES, REPORTS};
pub use writing::JsonLines;

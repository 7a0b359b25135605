//! A kept state compared with trees that were found: their maps and tables, and the owner rows that follow from them.
#![tactic(auto)]

mod audit;
mod finding;
pub mod laws;
mod tables;
mod text;
mod walked;

pub use audit::audited;
pub use finding::Finding;
pub use text::write_finding;

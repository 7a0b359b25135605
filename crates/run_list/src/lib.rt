//! A finite map from pages to values that advance along a run, kept as its coarsest list of runs.
#![tactic(auto)]

mod advance;
pub mod laws;
mod list;
mod places;
mod run;
mod values;

pub use advance::Advance;
pub use list::RunList;
pub use places::push_run;
pub use run::Run;

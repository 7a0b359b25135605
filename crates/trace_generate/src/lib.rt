//! Traces of random calls, made by walking the plain program of the rules.
#![tactic(auto)]

mod chance;
mod choice;
pub mod laws;
mod line;
mod made;
mod options;
mod refusal;
mod seen;
mod suggest;
mod walk;
mod wanting;

pub use line::StepLine;
pub use made::generate;
pub use options::{GenerateFault, Options};
pub use suggest::suggested;

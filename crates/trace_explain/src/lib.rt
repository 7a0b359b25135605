//! A trace, line by line, with what each step looked at, all that it changed, and why it was refused.
#![tactic(auto)]

mod causes;
mod explaining;
pub mod laws;
mod looking;
mod place;
mod places;
mod words;

pub use causes::cause_of;
pub use explaining::{Explained, explain};
pub use place::Place;

//! The blocks at which a tree on lists isn't the coarsest tree of its map.
#![tactic(auto)]

mod lacking;
mod misfit;
mod runs;
mod tables;

pub use misfit::{Misfit, first_misfit};
pub use tables::first_outside;

//! What isn't sound in trees that were found in an image of memory.
#![tactic(auto)]

mod claim;
mod clashes;
mod denial;
mod finding;
pub mod laws;
mod tables;
mod unborrowed;
mod words;

pub use claim::{Claim, add_claims};
pub use clashes::add_clashes;
pub use denial::denied;
pub use finding::Finding;
pub use tables::{add_mapped, add_met_twice};
pub use unborrowed::{add_unborrowed, add_unshared};
pub use words::add_words;

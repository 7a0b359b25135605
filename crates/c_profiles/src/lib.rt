//! The words of Linux' tables for C: the profiles by their numbers, and what a word says by one, in numbers.
#![tactic(auto)]

mod beyond;
pub mod laws;
mod number;
mod word;

pub use beyond::{PlainBeyond, beyond_to_c};
pub use number::profile_of;
pub use word::desc_as;

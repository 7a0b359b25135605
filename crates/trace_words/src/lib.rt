//! The words of a line, and the numbers that they write.
#![tactic(auto)]

mod numbers;
mod words;

pub use numbers::{decimal, number};
pub use words::{Words, has_stray_byte, is_name};

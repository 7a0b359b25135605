//! What the words of the program ask for.
#![tactic(auto)]

mod asked;
mod forms;
mod heap_size;
mod words;

pub use words::{Dump, Invocation, Looks, Output, UsageFault, command};

//! The changes from one state to another, as text: a line for each thing that differs, and none for any other.
#![tactic(auto)]

mod heads;
pub mod laws;
mod lines;
mod maps;
mod own;
mod told;
mod words;

pub use heads::{phase_word, stand_word};
pub use told::add_changes;
pub use words::{cpu_text, hand_text, loaded_text, ticket_text};

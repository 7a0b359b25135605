//! The words of the command that dumps an image.
#![tactic(auto)]

mod cut;
mod given;
mod profiles;
mod roots;
mod trees;

pub use given::{BadWord, Given, NotGiven, read_words};
pub use profiles::profile_word;
pub use roots::{RootWord, guest_word, root_word};
pub use trees::{skip_word, tree_word};

//! Elements of a picture, and how they are written as SVG.
#![tactic(auto)]

mod colours;
mod item;
mod svg;

pub use colours::{Colour, of_owner, of_slot};
pub use item::{Area, Head, Item, Label, Paint, Rectangle, Size, Style};
pub use svg::{opening, write_filled, write_patterns, write_titled, write_words, written};

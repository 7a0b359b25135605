//! Pictures of who owns what along a trace: as SVG, and as text of the end.
#![tactic(auto)]

mod bands;
mod cells;
mod columns;
mod course;
pub mod laws;
mod picture;
mod places;
mod snapshot;

pub use course::Ended;
pub use picture::{Drawing, draw};
pub use snapshot::{TextDrawing, draw_text};

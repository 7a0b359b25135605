//! A call judged by states as plain lists, up to the freedoms of the layout.
#![tactic(auto)]

mod exact;
mod found;
mod free;
mod judge;
pub mod laws;
mod ready;
mod reply;
mod text;
mod wanted;

pub use found::{Found, Unfound};
pub use judge::judged_by;
pub use text::write_found;
pub use wanted::FreedomsFault;

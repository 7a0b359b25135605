//! An image of physical memory: an ELF core, or raw bytes, whose pages are read as they are needed.
#![tactic(auto)]

mod bytes;
mod core_file;
mod header;
mod pages;
mod refused;
mod segment;

pub use bytes::{ImageBytes, Unread};
pub use core_file::{core_segments, raw_segments};
pub use pages::{page_buffer, read_page};
pub use refused::{Fault, Refused, Why};
pub use segment::Segment;

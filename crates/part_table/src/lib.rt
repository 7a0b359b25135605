//! The parts of a world under one table of words: a CPU takes the parts of a call, makes its step on them, and puts them home.
#![tactic(auto)]

pub mod exchanges;
pub mod gate;
pub mod laws;
pub mod maker;
pub mod pass;
mod room;
pub mod rule;
mod slot;
mod step;
pub mod table_of_parts;
pub mod tries;
pub mod whole;

pub use gate::{Gate, Open, TryGate};
pub use maker::{Maker, Plain};
pub use pass::CpuPass;
pub use slot::Slot;
pub use step::{alone, both, idle};
pub use table_of_parts::PartTable;

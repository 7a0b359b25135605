//! Stage 2 tables as trees: looking, and editing with tables from a stock (Arm DDI 0487, D8.2).
#![tactic(auto)]

mod chain;
mod look;
mod path;
mod poke;
mod raw;
mod spares;
mod stock;
mod table;
mod tree;
pub mod word;

pub use chain::Chain;
pub use raw::{PathFault, RawTree};
pub use spares::Spares;
pub use stock::Stock;
pub use table::{Reads, Slot, Table};
pub use tree::Tree;

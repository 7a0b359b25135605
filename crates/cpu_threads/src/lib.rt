//! Threads: one machine, and a pass for each of its CPUs. Whatever the CPUs do at once, there is one legal history of their calls.
#![tactic(auto)]

mod init;
mod judged;
pub mod laws;
mod machine;
mod machine_boot;
mod passes_back;
mod rooms;
mod shutdown;

pub use init::InitStage;
pub use judged::Judge;
pub use machine::Machine;
pub use part_table::{CpuPass, Gate, Open};
pub use shutdown::ShutdownFault;

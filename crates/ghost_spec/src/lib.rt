//! The definitions of the model as a program: plain and slow, on maps as lists of runs.
#![tactic(auto)]

mod answer;
pub mod cpu;
mod decide;
pub mod filled;
mod found;
mod guest;
mod guest_rules;
mod leaves;
pub mod lists;
mod pair;
pub mod parts;
pub mod rows;
mod rules;
pub mod shared;
pub mod shared_at_boot;
pub mod start;
pub mod state;
mod step_uses;
mod used;
mod vm_rules;
mod vms;

//! The host's map, with all that a host may or may not have mapped there: its own pages that it hasn't touched, and the kind of
//! devices' pages.
#![tactic(auto)]

pub mod devices;
mod over;
pub mod touched;

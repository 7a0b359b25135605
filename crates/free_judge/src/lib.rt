//! A judge that leaves a hypervisor its freedoms: own tables and free frames, a lazy host, any kind of a device's page, refusals by
//! other names.
#![tactic(auto)]

pub mod ample;
mod asked;
mod bare;
pub mod judge;
pub mod laws;
mod same;
mod view;

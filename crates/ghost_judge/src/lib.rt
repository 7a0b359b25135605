//! How two states on lists compare: the audit of a kept state by one found from scratch, and the judgement of a call by
//! the model.
#![tactic(auto)]

pub mod audit;
mod difference;
pub mod disagreement;
pub mod judge;
pub mod laws;
mod pools;
mod rows;
mod same;
pub mod text;

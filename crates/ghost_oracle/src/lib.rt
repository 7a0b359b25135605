//! The run-time oracle: it lists the kept state, and the state that a walk of every descriptor finds from scratch, in
//! one type. `ghost_judge` compares two such lists; this crate re-exports its `audit` and `judge`.
#![tactic(auto)]

pub mod compared;
mod eight;
mod found;
pub mod kept;
mod kept_and_walked;
pub mod laws;
mod parts;
mod pending;
pub mod pokes;
pub mod raw;
pub mod raw_kept;
pub mod record;
mod trees;
pub mod walk;

pub use ghost_judge::audit::audit;
pub use ghost_judge::disagreement::Disagreement;
pub use ghost_judge::judge::judge;
pub use parts::stand_from;
pub use trees::phase_from;

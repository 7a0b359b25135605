//! Audits: a trace is carried out, its pokes too, and then the kept state is compared with what a walk of all words finds.
#![tactic(auto)]

mod auditing;
mod buffered;
pub mod laws;
mod path;
mod poked;

pub use auditing::audit;
pub use buffered::audit_buffered;
pub use poked::Audit;

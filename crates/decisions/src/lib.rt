//! The decision of each call on the parts that it uses: the refusal of the first of its tests that fails, or all its
//! changes.
#![tactic(auto)]

mod calls;
mod pages;

pub use calls::{decide_guest, decide_shared, decide_vms, decide_with_guest, refusal_of_none};
pub use pages::{HOST, HYPERVISOR, hyp_page, leaf};

//! What a judge may leave to a hypervisor: its own tables and free frames, a lazy host, any kind of a device's page,
//! refusals by other names. Each freedom is a relation of states or of replies; laws give the judgement that a program
//! computes for it.
#![tactic(auto)]

pub mod laws;

/// The choices of a hypervisor apart from its tables and free frames.
#[derive(Clone, Copy, PartialEq)]
pub struct Freedoms {
    /// Which of the host's own pages are mapped.
    pub lazy_host: bool,
    /// Of which kind a device's page is in the host's map.
    pub any_kind: bool,
    /// The name of the refusal, if a test of a rule refuses.
    pub any_refusal: bool,
}

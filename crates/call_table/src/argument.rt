//! The arguments of calls, and their forms.
use crate::{VmId, VmKind};
use page_state::Prot;

/// The form of an argument of a call: how traces read and write it. A call has each form at most once.
#[derive(Clone, Copy)]
pub enum Form {
    /// A frame of memory.
    Frame,
    /// A page of the host, the hypervisor or a guest.
    Page,
    /// The number of frames from the first on.
    Count,
    /// The number of frames as the last argument: 1 if it is missing.
    LastCount,
    /// A number of vCPUs.
    Vcpus,
    /// The number of a vCPU.
    Vcpu,
    /// A VM: its slot and its generation.
    Vm,
    /// A kind of VMs.
    Kind,
    Rights,
}

/// The arguments of a call, each in the field of its form. The fields that the call doesn't take are as in
/// `Arguments::BLANK`.
#[derive(Clone, Copy)]
pub struct Arguments {
    pub frame: u64,
    pub page: u64,
    pub count: u64,
    pub vcpus: u64,
    pub vcpu: u64,
    pub vm: VmId,
    pub kind: VmKind,
    pub rights: Prot,
}

impl Arguments {
    /// The arguments of a call that takes none.
    pub const BLANK: Arguments = Arguments {
        frame: 0,
        page: 0,
        count: 0,
        vcpus: 0,
        vcpu: 0,
        vm: VmId {
            slot: 0,
            generation: 0,
        },
        kind: VmKind::Protected,
        rights: Prot::R,
    };
}

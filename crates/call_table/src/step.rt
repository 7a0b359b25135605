//! Steps: the calls of one CPU.
use page_state::Prot;

/// A slot of the VM part and its generation.
#[derive(Clone, Copy, PartialEq)]
pub struct VmId {
    /// The slot: below 64 if there is such a VM.
    pub slot: u64,
    /// The slot's generation, 1 at boot, one more each time the slot is released.
    pub generation: u64,
}

/// Whether the host can reach a VM's memory.
#[derive(Clone, Copy, PartialEq)]
pub enum VmKind {
    /// The host can't reach what it donates to the VM.
    Protected,
    /// The host shares its memory with the VM.
    Plain,
}

/// A call of one CPU. Its numbers are as the caller gave them, and may be no page, no frame and no slot (profile).
#[derive(Clone, Copy, PartialEq)]
pub enum Step {
    /// The host shares the frame `pfn` with the hypervisor.
    ShareHyp {
        pfn: u64,
    },
    /// The host takes back the frame `pfn`, which it shares with the hypervisor.
    UnshareHyp {
        pfn: u64,
    },
    /// The host gives `n` frames from `pfn` on to the hypervisor; 1 to 512.
    DonateHyp {
        pfn: u64,
        n: u64,
    },
    /// The hypervisor gives `n` frames from `pfn` on back to the host; 1 to 512.
    HypDonateHost {
        pfn: u64,
        n: u64,
    },
    /// The host touched `page`, and gets it mapped if it may have it.
    HostAbort {
        page: u64,
    },
    /// Asks for the host's entry of `page`.
    HostTranslate {
        page: u64,
    },
    /// Asks for the hypervisor's entry of `page`.
    HypTranslate {
        page: u64,
    },
    /// Asks for the owner row of the frame `pfn`.
    OwnerOf {
        pfn: u64,
    },
    /// The host gives `n` frames from `pfn` on into the CPU's hand; 1 to 512.
    Fund {
        pfn: u64,
        n: u64,
    },
    /// The CPU's hand goes back to the host.
    Unfund,
    /// The host shares `n` frames from `pfn` on with the guest of the loaded vCPU, at its pages from `gfn` on and with these
    /// rights; 1 to 512.
    ShareGuest {
        pfn: u64,
        gfn: u64,
        prot: Prot,
        n: u64,
    },
    /// The host takes back the frame that it shares with the VM's guest at `gfn`.
    UnshareGuest {
        vm: VmId,
        gfn: u64,
    },
    /// The host gives `n` frames from `pfn` on to the guest of the loaded vCPU, at its pages from `gfn` on; 1 to 512.
    DonateGuest {
        pfn: u64,
        gfn: u64,
        n: u64,
    },
    /// The guest of the loaded vCPU shares its page `gfn` with the host.
    GuestShareHost {
        gfn: u64,
    },
    /// The guest of the loaded vCPU takes back its page `gfn`, which it shares with the host.
    GuestUnshareHost {
        gfn: u64,
    },
    /// The VM of the CPU's Booked ticket gets the CPU's hand as its root and its pool.
    Install,
    /// The VM's pool gets the CPU's hand.
    Topup {
        vm: VmId,
    },
    /// The host gets the frame at page `gfn` of a Dying VM back.
    ReclaimPage {
        vm: VmId,
        gfn: u64,
    },
    /// The host gets the lowest free frame of a Dying VM's pool back.
    ReclaimPool {
        vm: VmId,
    },
    /// The host gets the root of the VM of the CPU's Dying ticket back, and its guest is Empty.
    FinishGuest,
    /// The guest of the loaded vCPU gets these rights too at `gfn`, a page that it borrows.
    GuestRelax {
        gfn: u64,
        prot: Prot,
    },
    /// Asks for the entry of the VM's page `gfn`.
    GuestTranslate {
        vm: VmId,
        gfn: u64,
    },
    /// The guest of the CPU's Closing ticket becomes Dying.
    MarkDying,
    /// The lowest Empty slot is reserved for a VM with `vcpus` vCPUs, 1 to 8.
    VmReserve {
        kind: VmKind,
        vcpus: u64,
    },
    /// The VM of the CPU's Installed ticket opens.
    VmOpen,
    /// The CPU loads the vCPU of this number, 0 to 7.
    VcpuLoad {
        vm: VmId,
        vcpu: u64,
    },
    /// The CPU puts its loaded vCPU back.
    VcpuPut,
    /// The Open VM begins to close.
    Teardown {
        vm: VmId,
    },
    /// The slot of the CPU's Booked or Finished ticket becomes Empty, with the next generation.
    VmRelease,
}

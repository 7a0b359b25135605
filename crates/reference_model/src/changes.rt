//! The changes of a call that returns Ok, as data.
use call_table::{Value, VmId, VmKind};
use page_state::{Entry, PageRange};

/// A change of a map: the pages of a range get an entry, which advances along the range.
#[derive(Clone, Copy)]
pub struct MapChange {
    /// The pages.
    pub range: PageRange,
    /// The entry of the first page.
    pub entry: Entry,
}

/// The new value of a field.
#[derive(Clone, Copy)]
pub enum Update<T> {
    /// The old value.
    Keep,
    /// This value.
    Becomes(T),
}

/// The changes of the Guest part that a call uses, apart from its map.
#[derive(Clone, Copy)]
pub enum GuestChange {
    /// Nothing.
    Keep,
    /// It becomes Live, with the hand's first frame as its root and the others as its pool.
    Install {
        kind: VmKind,
        generation: u64,
        hand: PageRange,
    },
    /// Its pool gets the frames of the range.
    Gain(PageRange),
    /// Its pool loses its lowest frame.
    LoseLowest,
    /// It becomes Dying.
    Die,
    /// It becomes Empty.
    Empty,
}

/// The changes of the slots of the VM part.
#[derive(Clone, Copy)]
pub enum SlotChange {
    /// Nothing.
    Keep,
    /// The slot becomes Reserved for a VM of the kind with `vcpus` vCPUs.
    Reserve { slot: u64, kind: VmKind, vcpus: u64 },
    /// The slot becomes Open.
    Open { slot: u64 },
    /// The slot becomes Closing.
    Close { slot: u64 },
    /// The slot becomes Empty, with the generation after the VM's.
    Release { vm: VmId },
    /// The CPU has the vCPU loaded.
    Load { slot: u64, vcpu: u64, cpu: u64 },
    /// No CPU has the vCPU loaded.
    Unload { slot: u64, vcpu: u64 },
}

/// How far a ticket has come.
#[derive(Clone, Copy, PartialEq)]
pub enum Stage {
    /// The slot is reserved.
    Booked,
    /// The guest is Live.
    Installed,
    /// The slot is Closing.
    Closing,
    /// The guest is Dying.
    Dying,
    /// The guest is Empty again.
    Finished,
}

/// A CPU's ticket: the VM that it is making or ending.
#[derive(Clone, Copy, PartialEq)]
pub struct Ticket {
    /// The VM.
    pub vm: VmId,
    /// Its kind.
    pub kind: VmKind,
    /// How far it has come.
    pub stage: Stage,
}

/// A vCPU that a CPU has loaded.
#[derive(Clone, Copy, PartialEq)]
pub struct Loaded {
    /// Its VM.
    pub vm: VmId,
    /// Its number there.
    pub vcpu: u64,
}

/// The changes of the CPU's own state.
#[derive(Clone, Copy)]
pub struct CpuChange {
    /// The vCPU that it has loaded.
    pub loaded: Update<Option<Loaded>>,
    /// Its hand: a range of funded frames.
    pub hand: Update<Option<PageRange>>,
    /// Its ticket.
    pub ticket: Update<Option<Ticket>>,
}

/// All changes of a call that returns Ok, and its value.
#[derive(Clone, Copy)]
pub struct Changes {
    /// The host's map.
    pub host: Option<MapChange>,
    /// The hypervisor's map.
    pub hyp: Option<MapChange>,
    /// The guest's map.
    pub guest: Option<MapChange>,
    /// The other changes of the guest.
    pub part: GuestChange,
    /// The slots of the VM part.
    pub slot: SlotChange,
    /// The CPU's own state.
    pub cpu: CpuChange,
    /// The frames that change use while the host's map stays.
    pub moved: Option<PageRange>,
    /// The value of Ok.
    pub value: Value,
}

impl CpuChange {
    /// The CPU's own state stays.
    pub const NONE: CpuChange = CpuChange {
        loaded: Update::Keep,
        hand: Update::Keep,
        ticket: Update::Keep,
    };
}

impl Changes {
    /// Nothing changes, and Ok has no value.
    pub const NONE: Changes = Changes {
        host: None,
        hyp: None,
        guest: None,
        part: GuestChange::Keep,
        slot: SlotChange::Keep,
        cpu: CpuChange::NONE,
        moved: None,
        value: Value::Nothing,
    };
}

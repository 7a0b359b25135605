//! The part of a word's meaning that the model has, and the part that it hasn't.
ghost use Rattle.std.specs.Prelude.{◌≡◌};
ghost use Rattle.table_words.specs.Entries.{prot_of, kind_of, entry_of, beyond_of, nothing_beyond};

use crate::word::{Access, Decoded, Execute, Guest, Mapping, Memory};
use descriptor::{Desc, Kind, Prot, State};

fn prot_in(access: Access, execute: Execute) -> Option<Prot>
    ensures { result ≡ prot_of access execute }
{
    let executes = match execute {
        Execute::Nobody => false,
        Execute::Everybody | Execute::UnprivilegedAlone | Execute::PrivilegedAlone => true,
    };
    match (access, executes) {
        (Access::ReadOnly, false) => Some(Prot::R),
        (Access::ReadOnly, true) => Some(Prot::RX),
        (Access::ReadWrite, false) => Some(Prot::RW),
        (Access::ReadWrite, true) => Some(Prot::RWX),
        (Access::Neither | Access::WriteOnly, _) => None,
    }
}

fn kind_in(memory: Memory) -> Kind
    ensures { result ≡ kind_of memory }
{
    match memory {
        Memory::WriteBack | Memory::Uncached | Memory::FromStage1 => Kind::Normal,
        Memory::Registers => Kind::Device,
    }
}

/// The model's descriptor for a decoded word, with `state` if words say none. None for a guest's annotation, which the
/// model says by a slot, and for a leaf that can't be read.
pub fn entry(decoded: &Decoded, state: State) -> Option<Desc>
    ensures { result ≡ entry_of decoded.now state }
{
    match *decoded {
        Decoded::Malformed => Some(Desc::Malformed),
        Decoded::Unmapped | Decoded::Poisoned | Decoded::Locked | Decoded::Cleared(_) => {
            Some(Desc::Unmapped)
        }
        Decoded::Annotated { owner, guest } => match guest {
            None => Some(Desc::Annotated(owner)),
            Some(_) => None,
        },
        Decoded::Leaf(mapping) => match prot_in(mapping.access, mapping.execute) {
            Some(prot) => Some(Desc::Leaf {
                frame: mapping.frame,
                prot,
                kind: kind_in(mapping.memory),
                state: mapping.state.unwrap_or(state),
            }),
            None => None,
        },
        Decoded::Table(frame) => Some(Desc::Table(frame)),
    }
}

/// What a word says that the model's descriptor doesn't.
#[derive(Clone, Copy, PartialEq, Eq)]
pub struct Beyond {
    /// The guest that an annotation names, and its page.
    pub guest: Option<Guest>,
    /// The page was taken from its guest by force.
    pub poisoned: bool,
    /// The entry is being changed.
    pub locked: bool,
    /// The leaf whose valid bit was cleared.
    pub cleared: Option<Mapping>,
    /// Reads are refused.
    pub unreadable: bool,
    /// Only EL0, or only the level above it, may execute.
    pub alone: Option<Execute>,
    /// Normal memory that isn't cacheable, or is as stage 1 says.
    pub memory: Option<Memory>,
    /// Branches must land on landing pads (BTI).
    pub guarded: bool,
    /// The access flag is clear.
    pub aged: bool,
}

fn nothing() -> Beyond
    ensures { result ≡ nothing_beyond }
{
    Beyond {
        guest: None,
        poisoned: false,
        locked: false,
        cleared: None,
        unreadable: false,
        alone: None,
        memory: None,
        guarded: false,
        aged: false,
    }
}

/// What a word says that the model's descriptor doesn't.
pub fn beyond_model(decoded: &Decoded) -> Beyond
    ensures { result ≡ beyond_of decoded.now }
{
    match *decoded {
        Decoded::Malformed | Decoded::Unmapped | Decoded::Table(_) => nothing(),
        Decoded::Annotated { owner: _, guest } => Beyond { guest, ..nothing() },
        Decoded::Poisoned => Beyond {
            poisoned: true,
            ..nothing()
        },
        Decoded::Locked => Beyond {
            locked: true,
            ..nothing()
        },
        Decoded::Cleared(mapping) => Beyond {
            cleared: Some(mapping),
            ..nothing()
        },
        Decoded::Leaf(mapping) => Beyond {
            unreadable: match mapping.access {
                Access::Neither | Access::WriteOnly => true,
                Access::ReadOnly | Access::ReadWrite => false,
            },
            alone: match mapping.execute {
                Execute::Nobody | Execute::Everybody => None,
                Execute::UnprivilegedAlone | Execute::PrivilegedAlone => Some(mapping.execute),
            },
            memory: match mapping.memory {
                Memory::WriteBack | Memory::Registers => None,
                Memory::Uncached | Memory::FromStage1 => Some(mapping.memory),
            },
            guarded: mapping.guarded,
            aged: mapping.aged,
            ..nothing()
        },
    }
}

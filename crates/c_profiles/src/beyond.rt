//! What a word says beyond the model's descriptor, in numbers.
ghost use Rattle.std.specs.Prelude.{◌≡◌, ◌≤◌};
ghost use Rattle.table_words.specs.Entries.{is_unreadable, kind_of};
ghost use Rattle.c_profiles.specs.Beyond.{access_written, alone_written, beyond_written, execute_written, leaf_beyond, mapping_written, memory_written, nothing_written, one_if, option_state_written, stateless};

use c_words::{PlainWord, kind_number, state_number};
use descriptor::{Kind, State};
use table_words::{Access, Decoded, Execute, Mapping, Memory};

/// What a word says that the model's descriptor doesn't. What isn't said is 0.
#[repr(C)]
#[derive(Clone, Copy, PartialEq)]
pub struct PlainBeyond {
    /// 1 if an annotation names a guest by its handle, and a page of the guest.
    pub has_guest: u64,
    pub handle: u64,
    pub guest_page: u64,
    /// 1 if the page was taken from its guest by force.
    pub is_poisoned: u64,
    /// 1 if the entry is being changed.
    pub is_locked: u64,
    /// 1 if a leaf's valid bit was cleared. What else is said is of the leaf.
    pub is_cleared: u64,
    /// 1 if a leaf refuses reads.
    pub is_unreadable: u64,
    /// 1 if branches must land on landing pads (BTI).
    pub is_guarded: u64,
    /// 1 if the access flag is clear.
    pub is_aged: u64,
    /// 1 if a leaf says no state.
    pub is_stateless: u64,
    /// 1 if EL0 alone may execute, 2 if the level above it alone may.
    pub alone: u64,
    /// 1 Normal memory that isn't cacheable, 2 memory as stage 1 says.
    pub memory: u64,
    /// A leaf that was cleared, or that refuses reads.
    pub leaf: PlainWord,
}

/// A word of zeros.
const BLANK: PlainWord = PlainWord {
    says: 0,
    frame: 0,
    owner: 0,
    rights: 0,
    kind: 0,
    state: 0,
};

/// Nothing.
const NOTHING: PlainBeyond = PlainBeyond {
    has_guest: 0,
    handle: 0,
    guest_page: 0,
    is_poisoned: 0,
    is_locked: 0,
    is_cleared: 0,
    is_unreadable: 0,
    is_guarded: 0,
    is_aged: 0,
    is_stateless: 0,
    alone: 0,
    memory: 0,
    leaf: BLANK,
};

fn one(set: bool) -> u64
    ensures { result ≡ one_if set }
{
    if set { 1 } else { 0 }
}

fn access_number(access: Access) -> u64
    ensures number { result ≡ access_written access }
    ensures low { result ≤ 6 }
{
    match access {
        Access::Neither => 0,
        Access::ReadOnly => 4,
        Access::WriteOnly => 2,
        Access::ReadWrite => 6,
    }
}

fn execute_number(execute: Execute) -> u64
    ensures number { result ≡ execute_written execute }
    ensures low { result ≤ 1 }
{
    match execute {
        Execute::Nobody => 0,
        Execute::Everybody | Execute::UnprivilegedAlone | Execute::PrivilegedAlone => 1,
    }
}

fn alone_number(execute: Execute) -> u64
    ensures { result ≡ alone_written execute }
{
    match execute {
        Execute::UnprivilegedAlone => 1,
        Execute::PrivilegedAlone => 2,
        Execute::Nobody | Execute::Everybody => 0,
    }
}

fn memory_number(memory: Memory) -> u64
    ensures { result ≡ memory_written memory }
{
    match memory {
        Memory::Uncached => 1,
        Memory::FromStage1 => 2,
        Memory::WriteBack | Memory::Registers => 0,
    }
}

fn kind_in(memory: Memory) -> Kind
    ensures { result ≡ kind_of memory }
{
    match memory {
        Memory::WriteBack | Memory::Uncached | Memory::FromStage1 => Kind::Normal,
        Memory::Registers => Kind::Device,
    }
}

fn option_state_number(state: Option<State>) -> u64
    ensures { result ≡ option_state_written state }
{
    match state {
        Some(state) => state_number(state),
        None => 0,
    }
}

fn refuses_reads(access: Access) -> bool
    ensures { result ≡ is_unreadable access }
{
    match access {
        Access::Neither | Access::WriteOnly => true,
        Access::ReadOnly | Access::ReadWrite => false,
    }
}

/// A leaf in numbers.
fn mapping_to_c(m: &Mapping) -> PlainWord
    ensures { result ≡ mapping_written m.now }
{
    PlainWord {
        says: 3,
        frame: m.frame.0,
        owner: 0,
        rights: access_number(m.access) + execute_number(m.execute),
        kind: kind_number(kind_in(m.memory)),
        state: option_state_number(m.state),
    }
}

/// What a leaf says.
fn leaf_to_c(m: &Mapping) -> PlainBeyond
    ensures { result ≡ leaf_beyond m.now }
{
    let unreadable = refuses_reads(m.access);
    PlainBeyond {
        is_unreadable: one(unreadable),
        is_guarded: one(m.guarded),
        is_aged: one(m.aged),
        is_stateless: one(m.state.is_none()),
        alone: alone_number(m.execute),
        memory: memory_number(m.memory),
        leaf: if unreadable { mapping_to_c(m) } else { BLANK },
        ..NOTHING
    }
}

/// What a word says that the model's descriptor doesn't, in numbers.
pub fn beyond_to_c(decoded: &Decoded) -> PlainBeyond
    ensures { result ≡ beyond_written decoded.now }
{
    match *decoded {
        Decoded::Malformed | Decoded::Unmapped | Decoded::Table(_) => NOTHING,
        Decoded::Annotated { owner: _, guest } => match guest {
            None => NOTHING,
            Some(guest) => PlainBeyond {
                has_guest: 1,
                handle: guest.handle,
                guest_page: guest.gfn,
                ..NOTHING
            },
        },
        Decoded::Poisoned => PlainBeyond {
            is_poisoned: 1,
            ..NOTHING
        },
        Decoded::Locked => PlainBeyond {
            is_locked: 1,
            ..NOTHING
        },
        Decoded::Cleared(mapping) => PlainBeyond {
            is_cleared: 1,
            leaf: mapping_to_c(&mapping),
            ..leaf_to_c(&mapping)
        },
        Decoded::Leaf(mapping) => leaf_to_c(&mapping),
    }
}

//! Pages of frames, leaves, and tests of entries.
ghost use Rattle.std.specs.Prelude.{◌≡◌, ◌+◌, ◌<◌, ◌^◌};
ghost use Rattle.page_state.specs.EntryTests.{
  is_free_page as is_free_entry,
  device_leaf as device_leaf_of,
  entry_frame as frame_of_entry,
  is_in as is_entry_in,
  is_mapped as is_mapped_entry,
  join as join_of,
  leaf as leaf_of,
  with_rights as with_rights_of,
  with_state as with_state_of,
};

use page_state::{Entry, Frame, Kind, Owner, Page, Prot, State};

/// The host's owner number (profile).
pub const HOST: Owner = Owner(0);

/// The hypervisor's owner number (profile).
pub const HYPERVISOR: Owner = Owner(1);

/// The hypervisor's page of a frame (profile).
pub fn hyp_page(frame: u64) -> Page
    requires { frame < 2 ^ 36 }
    ensures { result.0 ≡ frame + 0x4000000 }
{
    Page(frame + 0x400_0000)
}

/// A leaf of normal memory.
pub fn leaf(frame: u64, prot: Prot, state: State) -> Entry
    ensures { result ≡ leaf_of prot frame state }
{
    Entry::Leaf {
        frame: Frame(frame),
        prot,
        kind: Kind::Normal,
        state,
    }
}

/// A leaf of a device, which the host owns.
pub(crate) fn device_leaf(frame: u64) -> Entry
    ensures { result ≡ device_leaf_of frame }
{
    Entry::Leaf {
        frame: Frame(frame),
        prot: Prot::RW,
        kind: Kind::Device,
        state: State::Owned,
    }
}

/// Whether an entry is a leaf in a state.
pub(crate) fn is_in(state: State, entry: Entry) -> bool
    ensures { result ≡ is_entry_in state entry }
{
    match entry {
        Entry::Leaf {
            state: its_state,
            ..
        } => its_state == state,
        _ => false,
    }
}

/// Whether a host page is free to give: unmapped, or the host's own.
pub fn is_free_page(entry: Entry) -> bool
    ensures { result ≡ is_free_entry entry }
{
    matches!(
        entry,
        Entry::Unmapped
            | Entry::Leaf {
                state: State::Owned,
                ..
            }
    )
}

/// Whether a page's entry is anything but Unmapped.
pub fn is_mapped(entry: Entry) -> bool
    ensures { result ≡ is_mapped_entry entry }
{
    !matches!(entry, Entry::Unmapped)
}

/// The frame of a leaf, or 0 for any other entry.
pub(crate) fn entry_frame(entry: Entry) -> u64
    ensures { result ≡ frame_of_entry entry }
{
    match entry {
        Entry::Leaf { frame, .. } => frame.0,
        _ => 0,
    }
}

/// A leaf with another state; any other entry stays.
pub(crate) fn with_state(state: State, entry: Entry) -> Entry
    ensures { result ≡ with_state_of state entry }
{
    match entry {
        Entry::Leaf {
            frame,
            prot,
            kind,
            ..
        } => Entry::Leaf {
            frame,
            prot,
            kind,
            state,
        },
        other => other,
    }
}

/// The rights of both.
fn join(a: Prot, b: Prot) -> Prot
    ensures { result ≡ join_of a b }
{
    match (a, b) {
        (Prot::R, q) => q,
        (p, Prot::R) => p,
        (Prot::RW, Prot::RW) => Prot::RW,
        (Prot::RX, Prot::RX) => Prot::RX,
        _ => Prot::RWX,
    }
}

/// A leaf with more rights; any other entry stays.
pub(crate) fn with_rights(prot: Prot, entry: Entry) -> Entry
    ensures { result ≡ with_rights_of prot entry }
{
    match entry {
        Entry::Leaf {
            frame,
            prot: old,
            kind,
            state,
        } => Entry::Leaf {
            frame,
            prot: join(old, prot),
            kind,
            state,
        },
        other => other,
    }
}

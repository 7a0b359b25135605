//! Entries that rules test and write.
ghost use Rattle.std.specs.Prelude.{◌≡◌, ◌+◌, ◌<◌, ◌^◌};
ghost use Rattle.page_state.specs.EntryTests.{annotation as annotation_of, device_leaf as device_leaf_of, is_annotated as is_annotated_of, is_free_page as is_free_page_of, is_in as is_in_of, is_mapped as is_mapped_of, is_unmapped as is_unmapped_of, leaf as leaf_of};
ghost use Rattle.page_state.specs.Layouts.{hyp_page as hyp_page_of};

use page_state::{Entry, Frame, Kind, Owner, Prot, State};

/// The hypervisor's page of frame 0 (profile).
const HYP_OFFSET: u64 = 0x400_0000;

/// The hypervisor's page of a frame.
pub(crate) fn hyp_page(frame: u64) -> u64
    requires { frame < 2 ^ 63 }
    ensures { result ≡ hyp_page_of frame }
{
    frame + HYP_OFFSET
}

/// Whether nothing is mapped.
pub(crate) fn is_unmapped(entry: Entry) -> bool
    ensures { result ≡ is_unmapped_of entry }
{
    match entry {
        Entry::Unmapped => true,
        _ => false,
    }
}

/// Whether the page is mapped or annotated.
pub(crate) fn is_mapped(entry: Entry) -> bool
    ensures { result ≡ is_mapped_of entry }
{
    !is_unmapped(entry)
}

/// Whether the page is annotated.
pub(crate) fn is_annotated(entry: Entry) -> bool
    ensures { result ≡ is_annotated_of entry }
{
    match entry {
        Entry::Annotated(_) => true,
        _ => false,
    }
}

/// Whether it is a leaf in the state.
pub(crate) fn is_in(state: State, entry: Entry) -> bool
    ensures { result ≡ is_in_of state entry }
{
    match entry {
        Entry::Leaf { state: own, .. } => own == state,
        _ => false,
    }
}

/// Whether a host page is free: Unmapped, or a leaf in state Owned.
pub(crate) fn is_free_page(entry: Entry) -> bool
    ensures { result ≡ is_free_page_of entry }
{
    is_unmapped(entry) || is_in(State::Owned, entry)
}

/// A leaf of memory.
pub(crate) fn leaf(prot: Prot, frame: u64, state: State) -> Entry
    ensures { result ≡ leaf_of prot frame state }
{
    Entry::Leaf {
        frame: Frame(frame),
        prot,
        kind: Kind::Normal,
        state,
    }
}

/// A leaf of a device.
pub(crate) fn device_leaf(frame: u64) -> Entry
    ensures { result ≡ device_leaf_of frame }
{
    Entry::Leaf {
        frame: Frame(frame),
        prot: Prot::RW,
        kind: Kind::Device,
        state: State::Owned,
    }
}

/// The annotation of an owner's number.
pub(crate) fn annotation(owner: u64) -> Entry
    ensures { result ≡ annotation_of owner }
{
    Entry::Annotated(Owner(owner))
}

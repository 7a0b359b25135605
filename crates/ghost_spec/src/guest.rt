//! The effect of a change on a guest.
ghost use Rattle.std.specs.Prelude.{◌≡◌, ◌≤◌, ◌^◌, IfOk, OnOk, length, nat_lt};
ghost use Rattle.page_state.specs.Regions.{end_of};
ghost use Rattle.page_state.specs.Tables.{all_given};
ghost use Rattle.reference_model.specs.model.Changes.{frames_in, guest_by, rest as rest_of};
ghost use Rattle.reference_model.specs.declared.changes.GuestChange.TheVariants.{Install};
ghost use Rattle.reference_model.specs.model.State.{no_guest};
ghost use Rattle.reference_model.specs.model.Step.{guest_after, guest_need};
ghost use Rattle.ghost_spec.specs.Changed.{mapped_guest};
ghost use Rattle.ghost_spec.specs.Kept.{IsKeptGuest, IsSmallChange, IsSmallPart};
ghost use Rattle.ghost_spec.specs.States.{guest_in};

use crate::parts::{GhostGuest, GhostPhase};
use crate::shared::{behind, edit, needed};
use crate::shared_at_boot::{frames_from, root_tree};
use call_table::VmKind;
use ghost_trees::pool::give_all;
use page_state::PageRange;
use reference_model::{Changes, GuestChange, MapChange};
use std::alloc::{AllocError, Global};

/// A guest's map changes: new tables get the lowest frames of its own pool, and freed frames come back to it.
fn change_map(
    alloc: Global,
    depth: u64,
    guest: &mut GhostGuest,
    change: Option<MapChange>,
) -> Result<(), AllocError>
    requires depth { depth ≤ 3 }
    requires kept { IsKeptGuest guest.old }
    requires small { IsSmallChange change }
    ensures after { OnOk result (guest_in guest.new ≡ mapped_guest depth change (guest_in guest.old)) }
    ensures kept { OnOk result (IsKeptGuest guest.new) }
{
    let free = guest.free.as_slice();
    let edited = edit(alloc, depth, &mut guest.tree, change, free)?;
    let mut left = Vec::from_slice(alloc, behind(free, edited.need))?;
    give_all(&mut left, edited.returned.as_slice())?;
    guest.free = left;
    Ok(())
}

/// A Live guest with the hand's first frame as its root and the others as its pool.
fn installed(
    alloc: Global,
    depth: u64,
    kind: VmKind,
    generation: u64,
    hand: PageRange,
) -> Result<GhostGuest, AllocError>
    requires depth { depth ≤ 3 }
    requires hand { end_of hand ≤ 2 ^ 62 }
    ensures guest { IfOk result (λ g. guest_in g ≡ guest_by depth (Install kind generation hand) no_guest) }
    ensures kept { IfOk result IsKeptGuest }
{
    let frames = frames_from(alloc, hand.first.0, hand.count)?;
    Ok(GhostGuest {
        phase: GhostPhase::Live,
        generation,
        kind,
        tree: root_tree(alloc, depth, hand.first.0)?,
        free: Vec::from_slice(alloc, behind(frames.as_slice(), 1))?,
    })
}

/// A guest's pool gets the frames of a range.
fn gain(alloc: Global, guest: &mut GhostGuest, range: PageRange) -> Result<(), AllocError>
    requires kept { IsKeptGuest guest.old }
    requires range { end_of range ≤ 2 ^ 62 }
    ensures after { OnOk result
        (guest_in guest.new
        ≡ record (guest_in guest.old)
        { free = all_given (frames_in range) (guest_in guest.old).free }) }
    ensures kept { OnOk result (IsKeptGuest guest.new) }
{
    let frames = frames_from(alloc, range.first.0, range.count)?;
    give_all(&mut guest.free, frames.as_slice())?;
    Ok(())
}

/// A guest's pool loses its lowest frame.
fn lose_lowest(alloc: Global, guest: &mut GhostGuest) -> Result<(), AllocError>
    requires kept { IsKeptGuest guest.old }
    ensures after { OnOk result
        (guest_in guest.new
        ≡ record (guest_in guest.old) { free = rest_of (guest_in guest.old).free }) }
    ensures kept { OnOk result (IsKeptGuest guest.new) }
{
    guest.free = Vec::from_slice(alloc, behind(guest.free.as_slice(), 1))?;
    Ok(())
}

/// Makes the changes of a guest apart from its map.
fn change_part(
    alloc: Global,
    depth: u64,
    guest: &mut GhostGuest,
    change: GuestChange,
) -> Result<(), AllocError>
    requires depth { depth ≤ 3 }
    requires kept { IsKeptGuest guest.old }
    requires small { IsSmallPart change }
    ensures after { OnOk result (guest_in guest.new ≡ guest_by depth change (guest_in guest.old)) }
    ensures kept { OnOk result (IsKeptGuest guest.new) }
{
    match change {
        GuestChange::Keep => Ok(()),
        GuestChange::Install {
            kind,
            generation,
            hand,
        } => {
            *guest = installed(alloc, depth, kind, generation, hand)?;
            Ok(())
        }
        GuestChange::Gain(range) => gain(alloc, guest, range),
        GuestChange::LoseLowest => lose_lowest(alloc, guest),
        GuestChange::Die => {
            guest.phase = GhostPhase::Dying;
            Ok(())
        }
        GuestChange::Empty => {
            *guest = GhostGuest::none(alloc);
            Ok(())
        }
    }
}

/// A guest after changes.
pub(crate) fn change(
    alloc: Global,
    depth: u64,
    guest: &mut GhostGuest,
    changes: &Changes,
) -> Result<(), AllocError>
    requires depth { depth ≤ 3 }
    requires kept { IsKeptGuest guest.old }
    requires map { IsSmallChange changes.now.guest }
    requires part { IsSmallPart changes.now.part }
    ensures after { OnOk result (guest_in guest.new ≡ guest_after depth changes.now (guest_in guest.old)) }
    ensures kept { OnOk result (IsKeptGuest guest.new) }
{
    change_map(alloc, depth, guest, changes.guest)?;
    change_part(alloc, depth, guest, changes.part)
}

/// Whether a guest's pool has too few frames for the change of its map.
pub(crate) fn is_short(
    alloc: Global,
    depth: u64,
    guest: &GhostGuest,
    changes: &Changes,
) -> Result<bool, AllocError>
    requires depth { depth ≤ 3 }
    requires kept { IsKeptGuest guest.now }
    requires map { IsSmallChange changes.now.guest }
    ensures { IfOk result
        (λ b. b
        ≡ nat_lt (length guest.now.free.items)
        (guest_need depth changes.now (guest_in guest.now))) }
{
    let need = needed(alloc, depth, &guest.tree, changes.guest)?;
    Ok(guest.free.len() < need)
}

//! States without tables, and with free frames that no memory has.
ghost use Rattle.std.specs.Prelude.{◌≡◌, IfOk, [], false, map, true};
ghost use Rattle.page_state.specs.LayoutView.{layout_of};
ghost use Rattle.freedoms.specs.OwnTables.{bare_guest as bare_guest_of, bare_shared as bare_shared_of, without_tables};
ghost use Rattle.ghost_spec.specs.Kept.{IsKeptGuest, IsKeptShared};
ghost use Rattle.ghost_spec.specs.States.{contents_in, guest_in, AreKeptGuests};
ghost use Rattle.ghost_spec.specs.Views.{shared_in_lists};
ghost use Rattle.free_judge.specs.Asked.{filled_by, filled_guest, filled_shared, AreOutside};

use ghost_spec::parts::GhostGuest;
use ghost_spec::shared::Shared;
use ghost_spec::state::Ghost;
use ghost_trees::tree::Tree;
use std::alloc::{AllocError, Global};

/// The guest without tables, and with these free frames.
fn bare_guest(alloc: Global, guest: &GhostGuest, frames: &[u64]) -> Result<GhostGuest, AllocError>
    requires guest { IsKeptGuest guest.now }
    requires frames { AreOutside frames.now }
    ensures same { IfOk result (λ g. guest_in g ≡ filled_guest false frames.now 0 (guest_in guest.now)) }
    ensures kept { IfOk result IsKeptGuest }
{
    Ok(GhostGuest {
        phase: guest.phase,
        generation: guest.generation,
        kind: guest.kind,
        tree: Tree {
            runs: Vec::from_slice(alloc, guest.tree.runs.as_slice())?,
            tables: Vec::new(alloc),
        },
        free: Vec::from_slice(alloc, frames)?,
    })
}

/// The guests without tables, and with these free frames.
fn bare_guests(
    alloc: Global,
    guests: &[GhostGuest],
    frames: &[u64],
) -> Result<Vec<GhostGuest>, AllocError>
    requires guests { AreKeptGuests guests.now }
    requires frames { AreOutside frames.now }
    ensures same { IfOk result
        (λ v. map guest_in v.items
        ≡ map (λ g. filled_guest false frames.now 0 (guest_in g)) guests.now) }
    ensures kept { IfOk result (λ v. AreKeptGuests v.items) }
{
    let mut copies = Vec::with_capacity(alloc, guests.len())?;
    for guest in guests {
        copies.push(bare_guest(alloc, guest, frames)?)?;
    }
    Ok(copies)
}

/// The Shared part loses its tables, and has these free frames.
fn strip(alloc: Global, shared: &mut Shared, frames: Vec<u64>)
    requires { IsKeptShared shared.old }
    ensures same { shared_in_lists shared.new ≡ filled_shared frames.items (shared_in_lists shared.old) }
    ensures kept { IsKeptShared shared.new }
{
    shared.host.tables = Vec::new(alloc);
    shared.hyp.tables = Vec::new(alloc);
    shared.free = frames;
}

/// The state without tables of the host and the hypervisor, and with these free frames in the shared pool.
pub(crate) fn with_frames(alloc: Global, state: &Ghost, frames: &[u64]) -> Result<Ghost, AllocError>
    ensures contents { IfOk result (λ g. contents_in g ≡ filled_by true frames.now (contents_in state.now)) }
    ensures layout { IfOk result (λ g. layout_of g.layout ≡ layout_of state.now.layout) }
{
    let free = Vec::from_slice(alloc, frames)?;
    let mut lists = state.copied(alloc)?.into_lists();
    strip(alloc, &mut lists.shared, free);
    Ok(Ghost::of_kept(lists))
}

/// The state without tables, and with these free frames in each pool.
pub(crate) fn bare(alloc: Global, state: &Ghost, frames: &[u64]) -> Result<Ghost, AllocError>
    requires { AreOutside frames.now }
    ensures contents { IfOk result (λ g. contents_in g ≡ filled_by false frames.now (contents_in state.now)) }
    ensures layout { IfOk result (λ g. layout_of g.layout ≡ layout_of state.now.layout) }
{
    let guests = bare_guests(alloc, state.lists().guests.as_slice(), frames)?;
    let mut lists = with_frames(alloc, state, frames)?.into_lists();
    lists.guests = guests;
    Ok(Ghost::of_kept(lists))
}

/// The state without tables and free frames.
pub(crate) fn without(alloc: Global, state: &Ghost) -> Result<Ghost, AllocError>
    ensures contents { IfOk result (λ g. contents_in g ≡ without_tables (contents_in state.now)) }
    ensures layout { IfOk result (λ g. layout_of g.layout ≡ layout_of state.now.layout) }
{
    let made = bare(alloc, state, &[])?;
    Ok(made)
}

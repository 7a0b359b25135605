//! The state at boot.
ghost use Rattle.std.specs.Prelude.{◌≡◌, ◌<◌, ◌↔◌, All, IfOk, IfSome, IsSome, length};
ghost use Rattle.page_state.specs.LayoutView.{layout_of};
ghost use Rattle.reference_model.specs.model.Boot.{boot as boot_of, booted, IsCarveEnough};
ghost use Rattle.reference_model.specs.model.State.{no_cpu};
ghost use Rattle.ghost_spec.specs.Kept.{IsKeptShared};
ghost use Rattle.ghost_spec.specs.States.{ghost_state, AreKeptCpus};
ghost use Rattle.ghost_spec.specs.Views.{cpu_in, shared_in_lists};

use crate::answer::depth;
use crate::cpu::GhostCpu;
use crate::lists::{GhostLists, GhostRooms};
use crate::pair::both;
use crate::parts::{empty_guests, empty_slots};
use crate::rows::find_all;
use crate::shared::Shared;
use crate::shared_at_boot;
use crate::state::Ghost;
use page_state::{Config, Layout};
use std::alloc::{AllocError, Global};

/// `count` CPUs with no vCPU loaded, no hand and no ticket.
pub fn idle_cpus(alloc: Global, count: u64) -> Result<Vec<GhostCpu>, AllocError>
    ensures count { IfOk result (λ v. length v.items ≡ count) }
    ensures idle { IfOk result (λ v. All (λ k. cpu_in k ≡ no_cpu) v.items) }
    ensures kept { IfOk result (λ v. AreKeptCpus v.items) }
{
    let mut cpus = Vec::new(alloc);
    for _ in 0..count {
        cpus.push(GhostCpu::NONE)?;
    }
    Ok(cpus)
}

/// The rooms of `count` logs, all `room`.
pub fn equal_rooms(alloc: Global, count: u64, room: u64) -> Result<Vec<u64>, AllocError>
    ensures count { IfOk result (λ v. length v.items ≡ count) }
    ensures rooms { IfOk result (λ v. All (λ n. n ≡ room) v.items) }
{
    let mut rooms = Vec::new(alloc);
    for _ in 0..count {
        rooms.push(room)?;
    }
    Ok(rooms)
}

/// The rooms of logs in which no call is stored.
fn unused_rooms(alloc: Global, config: Config) -> Result<GhostRooms, AllocError>
    ensures vms { IfOk result (λ r. r.vms ≡ config.log) }
    ensures shared { IfOk result (λ r. r.shared ≡ config.log) }
    ensures guests { IfOk result (λ r. All (λ n. n ≡ config.log) r.guests.items) }
    ensures guests_count { IfOk result (λ r. length r.guests.items ≡ 64) }
    ensures cpus { IfOk result (λ r. All (λ n. n ≡ config.log) r.cpus.items) }
    ensures cpus_count { IfOk result (λ r. length r.cpus.items ≡ config.cpus) }
{
    let log = config.log;
    Ok(GhostRooms {
        vms: log,
        shared: log,
        guests: equal_rooms(alloc, 64, log)?,
        cpus: equal_rooms(alloc, config.cpus, log)?,
    })
}

/// The Shared part at boot. None if the carve-out has fewer frames than boot needs tables. The row of each memory frame
/// is found by a search of all lists.
fn shared_at_boot(alloc: Global, layout: &Layout) -> Result<Option<Shared>, AllocError>
    requires { 0 < layout.now.config.cpus }
    ensures enough { IfOk result (λ o. IsSome o ↔ IsCarveEnough (layout_of layout.now)) }
    ensures shared { IfOk result
        (λ o. IfSome o (λ s. shared_in_lists s ≡ (booted (layout_of layout.now)).shared)) }
    ensures kept { IfOk result (λ o. IfSome o IsKeptShared) }
{
    let Some(mut shared) = shared_at_boot::boot(alloc, &layout.map, layout.config, depth(layout))?
    else {
        return Ok(None);
    };
    let Ok(()) = find_all(alloc, layout, &mut shared) else {
        drop(shared);
        return Err(AllocError);
    };
    Ok(Some(shared))
}

/// The state at boot. None if the carve-out has fewer frames than boot needs tables. The row of each memory frame is
/// found by a search of all lists.
pub fn start(alloc: Global, layout: Layout) -> Result<Option<Ghost>, AllocError>
    requires { 0 < layout.config.cpus }
    ensures enough { IfOk result (λ o. IsSome o ↔ IsCarveEnough (layout_of layout)) }
    ensures state { IfOk result (λ o. IfSome o (λ g. ghost_state g ≡ boot_of (layout_of layout))) }
    ensures layout { IfOk result (λ o. IfSome o (λ g. g.layout ≡ layout)) }
{
    let Some(shared) = shared_at_boot(alloc, &layout)? else {
        return Ok(None);
    };
    let rooms = unused_rooms(alloc, layout.config);
    let cpus = idle_cpus(alloc, layout.config.cpus);
    let vms = empty_slots(alloc, 64);
    let guests = empty_guests(alloc, 64);
    let small = both(both(rooms, cpus), Ok(layout));
    let large = both(both(vms, guests), Ok(shared));
    let (((rooms, cpus), layout), ((vms, guests), shared)) = both(small, large)?;
    Ok(Some(Ghost::of_kept(GhostLists {
        layout,
        vms,
        shared,
        guests,
        cpus,
        rooms,
    })))
}

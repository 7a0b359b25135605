//! Changes of parts are carried out, for all calls in one place.
ghost use Rattle.std.specs.Prelude.{◌≡◌, ◌<◌, ◌^◌, ◌↔◌, Err, Some, unwrap_or};
ghost use Rattle.guest_component.specs.Wants.{WantsNoMemory};
ghost use Rattle.part_types.specs.Lent.{SharedSuits};
ghost use Rattle.part_types.specs.View.{cpu_of, shared_of};
ghost use Rattle.hypercalls.specs.Carried.{CanChangeGuest, CanChangeShared, Ends, IsEitherShort, IsGuestChanged, IsGuestShort, IsSharedChanged, IsSharedShort, with_rows_touched};
ghost use Rattle.part_types.specs.Roomy.{IsRoomy};
ghost use Rattle.page_state.specs.LayoutView.{layout_of};
ghost use Rattle.reference_model.specs.help.ChangeLaws.{TouchedFits};

use crate::rows::{first_row, touched};
use call_table::{Refusal, Reply};
use hyp_pool::PoolFault;
use page_state::Layout;
use part_types::{CpuState, GuestPart, SharedPart};
use reference_model::Changes;
use std::alloc::Allocator;

/// Gives the touched frames their row, if they are memory.
fn write_rows<A: Allocator>(
    layout: &Layout,
    id: u64,
    slot: Option<u64>,
    changes: &Changes,
    shared: &mut SharedPart<A>,
)
    requires slot { unwrap_or slot 0 < 2 ^ 32 }
    requires touched { TouchedFits (layout_of layout.now) id slot changes.now }
    requires suits { SharedSuits (layout_of layout.now) shared.old }
    ensures told { shared_of shared.new
        ≡ with_rows_touched (layout_of layout.now) id slot changes.now (shared_of shared.old) }
    ensures suits { SharedSuits (layout_of layout.now) shared.new }
    ensures log { shared.new.log ≡ shared.old.log }
{
    if let Some(frames) = touched(changes) {
        if layout.map.is_memory(frames.first) {
            shared.give_rows(frames, first_row(id, slot, changes));
        }
    }
}

/// Makes the changes of the Shared part and gives the touched frames their row, or does nothing.
pub(crate) fn change_shared<A: Allocator + Copy>(
    alloc: A,
    layout: &Layout,
    id: u64,
    slot: Option<u64>,
    changes: &Changes,
    shared: &mut SharedPart<A>,
) -> Result<(), PoolFault>
    requires slot { unwrap_or slot 0 < 2 ^ 32 }
    requires can { CanChangeShared (layout_of layout.now) changes.now id slot shared.old }
    ensures shared { IsSharedChanged (layout_of layout.now) changes.now id slot result shared.old shared.new }
    ensures no_pool { (result ≡ Err PoolFault.NoPool)
        ↔ IsSharedShort (layout_of layout.now) changes.now shared.old }
    ensures no_memory { result ≡ Err PoolFault.NoMemory → IsRoomy changes.now shared.old → ⊥ }
{
    shared.change(alloc, changes)?;
    write_rows(layout, id, slot, changes, shared);
    Ok(())
}

/// Makes the changes of a guest, or does nothing.
pub(crate) fn change_guest<A: Allocator + Copy>(
    alloc: A,
    layout: &Layout,
    changes: &Changes,
    part: &mut GuestPart<A>,
) -> Result<(), PoolFault>
    requires { CanChangeGuest (layout_of layout.now) changes.now part.old }
    ensures guest { IsGuestChanged (layout_of layout.now) changes.now result part.old part.new }
    ensures no_pool { (result ≡ Err PoolFault.NoPool) ↔ IsGuestShort (layout_of layout.now) changes.now part.old }
    ensures no_memory { result ≡ Err PoolFault.NoMemory → WantsNoMemory changes.now part.old.guest → ⊥ }
{
    part.guest.change(alloc, changes)
}

/// Makes the changes of the Shared part, with its rows, and of the guest of a slot, or none of them. It counts what
/// both need, then reserves all of it, and then changes both.
pub(crate) fn change_both<A: Allocator + Copy>(
    alloc: A,
    layout: &Layout,
    id: u64,
    slot: u64,
    changes: &Changes,
    shared: &mut SharedPart<A>,
    part: &mut GuestPart<A>,
) -> Result<(), PoolFault>
    requires slot { slot < 64 }
    requires can { CanChangeShared (layout_of layout.now) changes.now id (Some slot) shared.old }
    requires can_guest { CanChangeGuest (layout_of layout.now) changes.now part.old }
    ensures shared { IsSharedChanged (layout_of layout.now) changes.now id
        (Some slot) result shared.old shared.new }
    ensures guest { IsGuestChanged (layout_of layout.now) changes.now result part.old part.new }
    ensures no_pool { (result ≡ Err PoolFault.NoPool)
        ↔ IsEitherShort (layout_of layout.now) changes.now shared.old part.old }
    ensures no_memory { result ≡ Err PoolFault.NoMemory
        → IsRoomy changes.now shared.old
        → WantsNoMemory changes.now part.old.guest
        → ⊥ }
{
    let need = shared.need(changes);
    if shared.is_short(need) {
        return Err(PoolFault::NoPool);
    }
    let guest_plan = part.guest.reserve(alloc, changes)?;
    match shared.reserve(alloc, changes, need) {
        Ok(plan) => {
            shared.commit(plan);
            write_rows(layout, id, Some(slot), changes, shared);
            part.guest.commit(changes, guest_plan);
            Ok(())
        }
        Err(fault) => {
            part.guest.release(guest_plan);
            Err(fault)
        }
    }
}

/// The reply of a call whose parts were changed, in which case the CPU's own state changes too, or weren't, for lack of
/// free frames or of memory.
pub(crate) fn ended(made: Result<(), PoolFault>, changes: &Changes, cpu: &mut CpuState) -> Reply
    ensures ends { Ends made changes.now (cpu_of cpu.old) result (cpu_of cpu.new) }
    ensures log { cpu.new.log ≡ cpu.old.log }
    ensures id { cpu.new.id ≡ cpu.old.id }
{
    match made {
        Ok(()) => {
            cpu.change(&changes.cpu);
            Reply::Done(changes.value)
        }
        Err(PoolFault::NoPool) => Reply::Refused(Refusal::NoPool),
        Err(PoolFault::NoMemory) => Reply::Refused(Refusal::NoMemory),
    }
}

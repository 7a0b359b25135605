//! The exchanges: a part is taken, goes home as it is recorded, or goes home with a call stored.
ghost use Rattle.std.specs.Prelude.{◌≡◌, ◌<◌, ◌∷◌, [], true, None, Some, IfSome, IfNone};
ghost use Rattle.part_table.specs.Parts.{parts};
ghost use Rattle.part_table.specs.Rule.{Extends, IsInHand, IsInSlot, IsInSlotAsHeld, held_at, known_of, releasing, missing, storing, tail};
ghost use Rattle.part_table.specs.Trying.{CanStore, HasTaken};

use crate::rule::{Deed, Enter, Law, Opening, Return, Store, Take, View};
use crate::slot::Slot;
use atomic_table::{Seat, Table};
use call_table::Call;
use part_types::CpuState;
use std::alloc::{Allocator, Global};
use std::marker::Brand;

/// The parts' words, and the parts that are at home.
pub type SlotTable<A> = Table<Option<Slot<A>>, View<A>, Opening<A>, Law, Global>;

/// The right to step on the table, with the pass's knowledge.
pub type PartSeat<A> = Seat<Option<Slot<A>>, View<A>>;

/// Takes a part, unless another pass has it.
pub fn take<A: Allocator>(table: &SlotTable<A>, seat: &mut PartSeat<A>, k: usize) -> Option<Slot<A>>
    requires table { (seat.old.table_id ≡ table.now.shared.table_id) × (table.now.shared.table_id.words ≡ parts) }
    requires on { seat.old.me.0.on ≡ true }
    requires part { k < parts }
    ensures table { seat.new.table_id ≡ seat.old.table_id }
    ensures taken { IfSome result (λ x. HasTaken k x seat.old.me seat.new.me) }
    ensures missed { IfNone result (seat.new.me ≡ (missing seat.old.me.0 k, seat.old.me.1)) }
{
    if table.shared.swap::<Take>(seat, k, 1) != 0 {
        return None;
    }
    table.shared.exchange(seat, k, None)
}

/// Puts a part home that lies in its slot, as it is recorded.
pub fn release<A: Allocator>(table: &SlotTable<A>, seat: &mut PartSeat<A>, k: usize)
    requires table { (seat.old.table_id ≡ table.now.shared.table_id) × (table.now.shared.table_id.words ≡ parts) }
    requires on { seat.old.me.0.on ≡ true }
    requires part { k < parts }
    requires held { IsInSlotAsHeld seat.old.me k }
    ensures table { seat.new.table_id ≡ seat.old.table_id }
    ensures home { seat.new.me ≡ (releasing seat.old.me.0 k, tail seat.old.me.1) }
{
    table.shared.swap::<Return>(seat, k, 0);
}

/// Puts a part into its slot, the one that was taken last. No other pass sees it there before a play sends it home.
fn put<A: Allocator>(table: &SlotTable<A>, seat: &mut PartSeat<A>, k: usize, part: Slot<A>)
    requires table { seat.old.table_id ≡ table.now.shared.table_id }
    requires hand { IsInHand seat.old.me.1 k }
    ensures table { seat.new.table_id ≡ seat.old.table_id }
    ensures in_slot { seat.new.me ≡ (seat.old.me.0, (k, Some part) ∷ tail seat.old.me.1) }
{
    // It was empty.
    drop(table.shared.exchange(seat, k, Some(part)));
}

/// Puts a part home as it was taken.
pub fn put_back<A: Allocator>(table: &SlotTable<A>, seat: &mut PartSeat<A>, k: usize, part: Slot<A>)
    requires table { (seat.old.table_id ≡ table.now.shared.table_id) × (table.now.shared.table_id.words ≡ parts) }
    requires on { seat.old.me.0.on ≡ true }
    requires part { k < parts }
    requires hand { IsInHand seat.old.me.1 k }
    requires held { held_at seat.old.me.0.held k ≡ Some part }
    ensures table { seat.new.table_id ≡ seat.old.table_id }
    ensures home { seat.new.me ≡ (releasing seat.old.me.0 k, tail seat.old.me.1) }
{
    put(table, seat, k, part);
    release(table, seat, k);
}

/// The part that lies in the slot taken last goes home with the call stored.
fn store<A: Allocator, J: Deed>(
    table: &SlotTable<A>,
    seat: &mut PartSeat<A>,
    k: usize,
    call: &Call,
    own: &CpuState,
)
    requires table { (seat.old.table_id ≡ table.now.shared.table_id) × (table.now.shared.table_id.words ≡ parts) }
    requires on { seat.old.me.0.on ≡ true }
    requires part { k < parts }
    requires in_slot { IsInSlot seat.old.me.1 k }
    requires call { CanStore J.call J.own seat.old.me.0 seat.old.me.1 }
    ensures table { seat.new.table_id ≡ seat.old.table_id }
    ensures history { Extends J.call (known_of seat.new.me.0) }
    ensures home { seat.new.me ≡ (storing J.own seat.old.me.1 seat.old.me.0 k, tail seat.old.me.1) }
{
    table.shared.swap::<Store<J>>(seat, k, 0);
}

/// Puts the one part of a call home with the call stored: the commit.
pub fn commit<A: Allocator>(
    table: &SlotTable<A>,
    seat: &mut PartSeat<A>,
    k: usize,
    part: Slot<A>,
    call: &Call,
    own: &CpuState,
)
    requires table { (seat.old.table_id ≡ table.now.shared.table_id) × (table.now.shared.table_id.words ≡ parts) }
    requires on { seat.old.me.0.on ≡ true }
    requires part { k < parts }
    requires hand { seat.old.me.1 ≡ (k, None) ∷ [] }
    requires call { CanStore call.now own.now seat.old.me.0 ((k, Some part) ∷ []) }
    ensures table { seat.new.table_id ≡ seat.old.table_id }
    ensures history { Extends call.now (known_of seat.new.me.0) }
    ensures home { seat.new.me ≡ (storing own.now ((k, Some part) ∷ []) seat.old.me.0 k, []) }
{
    put(table, seat, k, part);
    store::<A, Brand>(table, seat, k, call, own);
}

/// Puts a guest home with the call stored, the commit of both parts. The Shared part lies in its slot, and stays in hand.
pub fn commit_first<A: Allocator>(
    table: &SlotTable<A>,
    seat: &mut PartSeat<A>,
    guest: usize,
    part: Slot<A>,
    shared: Slot<A>,
    call: &Call,
    own: &CpuState,
)
    requires table { (seat.old.table_id ≡ table.now.shared.table_id) × (table.now.shared.table_id.words ≡ parts) }
    requires on { seat.old.me.0.on ≡ true }
    requires part { guest < parts }
    requires hand { seat.old.me.1 ≡ (guest, None) ∷ (1, None) ∷ [] }
    requires call { CanStore call.now own.now seat.old.me.0 ((guest, Some part) ∷ (1, Some shared) ∷ []) }
    ensures table { seat.new.table_id ≡ seat.old.table_id }
    ensures history { Extends call.now (known_of seat.new.me.0) }
    ensures home { seat.new.me
        ≡ (
          storing own.now ((guest, Some part) ∷ (1, Some shared) ∷ []) seat.old.me.0 guest,
          (1, Some shared)
              ∷ [],
        ) }
{
    put(table, seat, guest, part);
    seat.turn();
    put(table, seat, 1, shared);
    seat.turn();
    store::<A, Brand>(table, seat, guest, call, own);
}

/// A load that enters the call.
fn load_entry<A: Allocator, J: Deed>(
    table: &SlotTable<A>,
    seat: &mut PartSeat<A>,
    call: &Call,
    own: &CpuState,
)
    requires table { (seat.old.table_id ≡ table.now.shared.table_id) × (table.now.shared.table_id.words ≡ parts) }
    requires on { seat.old.me.0.on ≡ true }
    requires call { CanStore J.call J.own seat.old.me.0 [] }
    ensures table { seat.new.table_id ≡ seat.old.table_id }
    ensures history { Extends J.call (known_of seat.new.me.0) }
    ensures entered { seat.new.me ≡ (storing J.own [] seat.old.me.0 0, seat.old.me.1) }
{
    table.shared.load::<Enter<J>>(seat, 0);
}

/// Enters a call that used no part in the pass's own list.
pub fn enter<A: Allocator>(
    table: &SlotTable<A>,
    seat: &mut PartSeat<A>,
    call: &Call,
    own: &CpuState,
)
    requires table { (seat.old.table_id ≡ table.now.shared.table_id) × (table.now.shared.table_id.words ≡ parts) }
    requires on { seat.old.me.0.on ≡ true }
    requires call { CanStore call.now own.now seat.old.me.0 [] }
    ensures table { seat.new.table_id ≡ seat.old.table_id }
    ensures history { Extends call.now (known_of seat.new.me.0) }
    ensures entered { seat.new.me ≡ (storing own.now [] seat.old.me.0 0, seat.old.me.1) }
{
    load_entry::<A, Brand>(table, seat, call, own);
}

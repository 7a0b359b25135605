//! Owner rows from scratch.
ghost use Rattle.std.specs.Prelude.{◌≡◌, ◌+◌, ◌<◌, ◌≤◌, ◌^◌, IfOk, OnOk, Some, None};
ghost use Rattle.page_state.specs.declared.entry.PageRange.{PageRange as PageRangeOf};
ghost use Rattle.page_state.specs.Layouts.{is_memory};
ghost use Rattle.page_state.specs.LayoutView.{layout_of};
ghost use Rattle.page_state.specs.Regions.{end_of};
ghost use Rattle.page_state.specs.Rows.{advance_row, HasLentBelow, HasPageBelow};
ghost use Rattle.reference_model.specs.model.State.{no_cpu, no_guest};
ghost use Rattle.run_list.specs.Runs.{InReach, AreInReach, IsCoarsest};
ghost use Rattle.ghost_spec.specs.Kept.{IsKeptGuest, IsKeptShared, IsLowSlot};
ghost use Rattle.ghost_spec.specs.RowChanges.{AreFoundAfter, AreFoundIn, AreFoundWhere, IsFoundAt, IsFrameSet, IsRangeSet};
ghost use Rattle.ghost_spec.specs.RowsFound.{guest_lent as guest_lent_of, lender_found as lender_found_of, lent_found as lent_found_of, owner_or as owner_or_of, pool_found as pool_found_of, row_found as row_found_of, sharer_found as sharer_found_of, usage_found as usage_found_of};
ghost use Rattle.ghost_spec.specs.States.{guest_in};
ghost use Rattle.ghost_spec.specs.Views.{cpu_in, row_in, shared_in_lists};

use crate::cpu::GhostCpu;
use crate::found::{is_free, is_in_hand, is_table_frame, page_of};
use crate::parts::GhostGuest;
use crate::shared::Shared;
use ghost_trees::runs::at;
use page_state::{Entry, Layout, Lent, Owner, Page, PageRange, Row, State, Usage};
use run_list::{Run, RunList};
use std::alloc::{AllocError, Global};

/// The row of a frame that no run has: the host owns it, shares it with nobody, and has it in no use.
const PLAIN_ROW: Row = Row {
    owner: Owner(0),
    lent: None,
    usage: Usage::Plain,
};

/// The row of a frame as it is kept.
pub(crate) fn row_at(shared: &Shared, frame: u64) -> Row
    ensures { result ≡ row_in shared.now.rows.runs frame }
{
    match shared.rows.at(Page(frame)) {
        Some(row) => row,
        None => PLAIN_ROW,
    }
}

/// The owner by the host's entry of the frame's page: the number of its annotation, and else this one.
fn owner_or(other: u64, entry: Entry) -> Owner
    ensures { result.0 ≡ owner_or_of other entry }
{
    match entry {
        Entry::Annotated(owner) => owner,
        _ => Owner(other),
    }
}

/// The number of the guest of a slot.
fn number_of(slot: Option<u64>) -> u64
    requires { IsLowSlot slot }
    ensures { result ≡ elim slot [ Some v ↦ 2 + v | None ↦ 0 ] }
{
    match slot {
        Some(v) => 2 + v,
        None => 0,
    }
}

/// The number of the guest that shares a frame, or else the host's.
fn sharer(
    layout: &Layout,
    shared: &Shared,
    slot: Option<u64>,
    guest: &GhostGuest,
    frame: u64,
) -> u64
    requires slot { IsLowSlot slot }
    requires guest { IsKeptGuest guest.now }
    ensures { result
        ≡ sharer_found_of (layout_of layout.now) (shared_in_lists shared.now) slot
        (guest_in guest.now) frame }
{
    match page_of(layout, &guest.tree, State::SharedOwned, frame) {
        Some(_) => number_of(slot),
        None => 0,
    }
}

/// The owner of a frame that isn't annotated: its sharer if the host borrows it, else the host.
fn lender(
    layout: &Layout,
    shared: &Shared,
    slot: Option<u64>,
    guest: &GhostGuest,
    frame: u64,
) -> u64
    requires kept { IsKeptShared shared.now }
    requires slot { IsLowSlot slot }
    requires guest { IsKeptGuest guest.now }
    ensures { result
        ≡ lender_found_of (layout_of layout.now) (shared_in_lists shared.now) slot
        (guest_in guest.now) frame }
{
    match page_of(layout, &shared.host, State::SharedBorrowed, frame) {
        Some(_) => sharer(layout, shared, slot, guest, frame),
        None => 0,
    }
}

/// The loan of a frame to the guest, if the guest borrows it.
fn guest_lent(
    layout: &Layout,
    shared: &Shared,
    slot: Option<u64>,
    guest: &GhostGuest,
    frame: u64,
) -> Option<Lent>
    requires slot { IsLowSlot slot }
    requires guest { IsKeptGuest guest.now }
    ensures value { result
        ≡ guest_lent_of (layout_of layout.now) (shared_in_lists shared.now) slot
        (guest_in guest.now) frame }
    ensures low { HasLentBelow result 1 }
{
    match slot {
        Some(v) => match page_of(layout, &guest.tree, State::SharedBorrowed, frame) {
            Some(page) => Some(Lent {
                owner: Owner(2 + v),
                page,
            }),
            None => None,
        },
        None => None,
    }
}

/// To whom a frame is lent: the first of host, hypervisor and guest that borrows it.
fn lent_to(
    layout: &Layout,
    shared: &Shared,
    slot: Option<u64>,
    guest: &GhostGuest,
    frame: u64,
) -> Option<Lent>
    requires kept { IsKeptShared shared.now }
    requires slot { IsLowSlot slot }
    requires guest { IsKeptGuest guest.now }
    ensures value { result
        ≡ lent_found_of (layout_of layout.now) (shared_in_lists shared.now) slot
        (guest_in guest.now) frame }
    ensures low { HasLentBelow result 1 }
{
    match page_of(layout, &shared.host, State::SharedBorrowed, frame) {
        Some(page) => Some(Lent {
            owner: Owner(0),
            page,
        }),
        None => match page_of(layout, &shared.hyp, State::SharedBorrowed, frame) {
            Some(page) => Some(Lent {
                owner: Owner(1),
                page,
            }),
            None => guest_lent(layout, shared, slot, guest, frame),
        },
    }
}

/// The guest's slot, if a frame is free in its pool or a table of its tree.
fn pool_of(
    layout: &Layout,
    shared: &Shared,
    slot: Option<u64>,
    guest: &GhostGuest,
    frame: u64,
) -> Option<u64>
    ensures { result
        ≡ pool_found_of (layout_of layout.now) (shared_in_lists shared.now) slot
        (guest_in guest.now) frame }
{
    if is_free(guest.free.as_slice(), frame) || is_table_frame(layout, &guest.tree, frame) {
        slot
    } else {
        None
    }
}

/// The holder of a frame: the shared pool, the guest's, the CPU's hand, or none.
fn usage_of(
    layout: &Layout,
    shared: &Shared,
    slot: Option<u64>,
    guest: &GhostGuest,
    frame: u64,
    cpu: u64,
    own: &GhostCpu,
) -> Usage
    ensures { result
        ≡ usage_found_of (layout_of layout.now) (shared_in_lists shared.now) slot
        (guest_in guest.now) frame cpu (cpu_in own.now) }
{
    if is_free(shared.free.as_slice(), frame)
        || is_table_frame(layout, &shared.host, frame)
        || is_table_frame(layout, &shared.hyp, frame)
    {
        return Usage::SharedPool;
    }
    match pool_of(layout, shared, slot, guest, frame) {
        Some(v) => Usage::VmPool(v),
        None => {
            if is_in_hand(own.hand, frame) {
                Usage::InHand(cpu)
            } else {
                Usage::Plain
            }
        }
    }
}

/// The row of a frame, found only from the maps, the pools, the tables and the CPU's hand.
fn row_found(
    layout: &Layout,
    shared: &Shared,
    slot: Option<u64>,
    guest: &GhostGuest,
    frame: u64,
    cpu: u64,
    own: &GhostCpu,
) -> Row
    requires kept { IsKeptShared shared.now }
    requires slot { IsLowSlot slot }
    requires guest { IsKeptGuest guest.now }
    ensures value { result
        ≡ row_found_of (layout_of layout.now) (shared_in_lists shared.now) slot
        (guest_in guest.now) frame cpu (cpu_in own.now) }
    ensures small { HasPageBelow result 1 }
{
    let other = lender(layout, shared, slot, guest, frame);
    Row {
        owner: owner_or(other, at(shared.host.runs.as_slice(), Page(frame))),
        lent: lent_to(layout, shared, slot, guest, frame),
        usage: usage_of(layout, shared, slot, guest, frame, cpu, own),
    }
}

/// A frame gets a row.
fn set_row(rows: &mut RunList<Row>, frame: u64, row: Row) -> Result<(), AllocError>
    requires frame { frame < 2 ^ 63 }
    requires small { HasPageBelow row 1 }
    requires reach { AreInReach HasPageBelow rows.old.runs }
    ensures row { OnOk result (IsFrameSet rows.old.runs rows.new.runs frame row) }
    ensures reach { AreInReach HasPageBelow rows.new.runs }
{
    let pages = PageRange {
        first: Page(frame),
        count: 1,
    };
    set_run(rows, Run { pages, value: row })
}

/// The frames of a run get its rows.
fn set_run(rows: &mut RunList<Row>, run: Run<Row>) -> Result<(), AllocError>
    requires run { InReach HasPageBelow run }
    requires reach { AreInReach HasPageBelow rows.old.runs }
    ensures map { OnOk result (IsRangeSet rows.old.runs rows.new.runs run.pages (Some run.value)) }
    ensures reach { AreInReach HasPageBelow rows.new.runs }
{
    rows.reserve(2)?;
    rows.set(run.pages, Some(run.value));
    Ok(())
}

/// Finds the row of a frame again, if it is a memory frame.
fn find_row(
    layout: &Layout,
    shared: &mut Shared,
    slot: Option<u64>,
    guest: &GhostGuest,
    frame: u64,
    cpu: u64,
    own: &GhostCpu,
) -> Result<(), AllocError>
    requires kept { IsKeptShared shared.old }
    requires slot { IsLowSlot slot }
    requires guest { IsKeptGuest guest.now }
    ensures rows { OnOk result
        (IsFoundAt layout.now shared.old shared.new frame slot (guest_in guest.now) cpu
        (cpu_in own.now)) }
    ensures host { shared.new.host ≡ shared.old.host }
    ensures hyp { shared.new.hyp ≡ shared.old.hyp }
    ensures free { shared.new.free ≡ shared.old.free }
    ensures kept { IsKeptShared shared.new }
{
    if !layout.map.is_memory(Page(frame)) {
        return Ok(());
    }
    let row = row_found(layout, shared, slot, guest, frame, cpu, own);
    set_row(&mut shared.rows, frame, row)?;
    Ok(())
}

/// The rows of the memory frames of a range are found again.
pub(crate) fn find_range(
    layout: &Layout,
    shared: &mut Shared,
    slot: Option<u64>,
    guest: &GhostGuest,
    range: PageRange,
    cpu: u64,
    own: &GhostCpu,
) -> Result<(), AllocError>
    requires kept { IsKeptShared shared.old }
    requires slot { IsLowSlot slot }
    requires guest { IsKeptGuest guest.now }
    requires range { end_of range ≤ 2 ^ 63 }
    ensures rows { OnOk result
        (AreFoundIn layout.now shared.old shared.new range slot (guest_in guest.now) cpu
        (cpu_in own.now)) }
    ensures host { shared.new.host ≡ shared.old.host }
    ensures hyp { shared.new.hyp ≡ shared.old.hyp }
    ensures free { shared.new.free ≡ shared.old.free }
    ensures kept { IsKeptShared shared.new }
{
    for i in 0..range.count {
        let frame = range.first.0 + i;
        find_row(layout, shared, slot, guest, frame, cpu, own)?;
    }
    Ok(())
}

/// The rows of the touched memory frames are found again.
pub(crate) fn find_rows(
    layout: &Layout,
    shared: &mut Shared,
    slot: Option<u64>,
    guest: &GhostGuest,
    touched: Option<PageRange>,
    cpu: u64,
    own: &GhostCpu,
) -> Result<(), AllocError>
    requires kept { IsKeptShared shared.old }
    requires slot { IsLowSlot slot }
    requires guest { IsKeptGuest guest.now }
    requires touched { (range : PageRangeOf) → touched ≡ Some range → end_of range ≤ 2 ^ 63 }
    ensures found { OnOk result
        (AreFoundAfter layout.now shared.old shared.new touched slot (guest_in guest.now) cpu
        (cpu_in own.now)) }
    ensures kept { IsKeptShared shared.new }
{
    match touched {
        Some(range) => find_range(layout, shared, slot, guest, range, cpu, own),
        None => Ok(()),
    }
}

/// The number of additional runs for which `copied_rows` takes room: most steps add no more, and a list that grows is
/// copied again.
const MORE_ROWS: usize = 16;

/// Rows of these runs.
pub fn copied_rows(alloc: Global, runs: &[Run<Row>]) -> Result<RunList<Row>, AllocError>
    requires coarsest { IsCoarsest advance_row runs.now }
    requires reach { AreInReach HasPageBelow runs.now }
    ensures { IfOk result (λ r. r.runs ≡ runs.now) }
{
    let mut rows = Vec::with_capacity(alloc, runs.len().saturating_add(MORE_ROWS))?;
    rows.extend_from_slice(runs)?;
    Ok(RunList::of(rows))
}

/// Finds the rows of the memory frames of a range, if there is no guest and no frame is in a hand.
fn find_first(
    alloc: Global,
    layout: &Layout,
    shared: &mut Shared,
    range: PageRange,
) -> Result<(), AllocError>
    requires kept { IsKeptShared shared.old }
    requires range { end_of range ≤ 2 ^ 63 }
    ensures rows { OnOk result (AreFoundIn layout.now shared.old shared.new range None no_guest 0 no_cpu) }
    ensures host { shared.new.host ≡ shared.old.host }
    ensures hyp { shared.new.hyp ≡ shared.old.hyp }
    ensures free { shared.new.free ≡ shared.old.free }
    ensures kept { IsKeptShared shared.new }
{
    let none = GhostGuest::none(alloc);
    find_range(layout, shared, None, &none, range, 0, &GhostCpu::NONE)?;
    Ok(())
}

/// Finds the rows of all memory frames, if there is no guest and no frame is in a hand.
pub(crate) fn find_all(
    alloc: Global,
    layout: &Layout,
    shared: &mut Shared,
) -> Result<(), AllocError>
    requires kept { IsKeptShared shared.old }
    ensures rows { OnOk result
        (AreFoundWhere layout.now shared.old shared.new
        (is_memory (layout_of layout.now)) None no_guest 0 no_cpu) }
    ensures host { shared.new.host ≡ shared.old.host }
    ensures hyp { shared.new.hyp ≡ shared.old.hyp }
    ensures free { shared.new.free ≡ shared.old.free }
    ensures kept { IsKeptShared shared.new }
{
    let regions = layout.map.regions();
    for i in 0..regions.len() {
        find_first(alloc, layout, shared, regions[i].pages)?;
    }
    Ok(())
}

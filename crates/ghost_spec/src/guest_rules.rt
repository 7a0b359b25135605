//! The rules of the calls on a guest, alone or with the Shared part: the refusal of the first of a call's tests that
//! fails, or all its changes.
ghost use Rattle.std.specs.Prelude.{◌≡◌, ℕ, ◌+◌, ◌<◌, ◌≤◌, ◌^◌, ◌&&◌, Option, Some, IfOk, IsTrue, ◌||◌, nat_le, not, unwrap_or};
ghost use Rattle.call_table.specs.declared.step.Step.TheVariants.{ShareGuest, UnshareGuest, DonateGuest, GuestShareHost, GuestUnshareHost, Install, Topup, ReclaimPage, ReclaimPool, FinishGuest, GuestRelax, GuestTranslate, MarkDying};
ghost use Rattle.page_state.specs.EntryTests.{entry_frame as entry_frame_of, is_unmapped as is_unmapped_of, join as join_of, with_rights as with_rights_of, with_state as with_state_of};
ghost use Rattle.page_state.specs.Layouts.{Layout as ReferenceLayout, is_good_page as is_good_page_of};
ghost use Rattle.page_state.specs.LayoutView.{layout_of};
ghost use Rattle.page_state.specs.Runs.{map_of};
ghost use Rattle.page_state.specs.Search.{all_below};
ghost use Rattle.reference_model.specs.declared.changes.Update.TheVariants.{Becomes};
ghost use Rattle.reference_model.specs.model.Decides.{decides};
ghost use Rattle.reference_model.specs.model.GuestRules.{are_good_pages as are_good_pages_of, guest_table_count as guest_table_count_of, is_guest as is_guest_of, is_protected as is_protected_of, least as least_of, moved_on as moved_on_of, two_pages as two_pages_of, two_ranges as two_ranges_of};
ghost use Rattle.reference_model.specs.model.SharedRules.{to_host as to_host_of};
ghost use Rattle.reference_model.specs.model.State.{live, dying};
ghost use Rattle.ghost_spec.specs.Kept.{AreSmallChanges, IsKeptCpu, IsKeptGuest, IsKeptShared, IsLowSlot};
ghost use Rattle.ghost_trees.specs.KeptTrees.{IsKeptTree};
ghost use Rattle.ghost_trees.specs.Small.{HasLowFrames};
ghost use Rattle.ghost_spec.specs.States.{guest_in};
ghost use Rattle.ghost_trees.specs.Trees.{table_of, tree_in_lists};
ghost use Rattle.ghost_spec.specs.Used.{IsKeptUsed, may_give_frame as may_give_frame_of, reclaimed as reclaimed_of, used_in};
ghost use Rattle.ghost_spec.specs.Views.{cpu_in, shared_in_lists};

use crate::answer::depth;
use crate::cpu::GhostCpu;
use crate::found::{has_place, pages};
use crate::leaves::{annotation, hyp_page, is_free_page, is_in, is_unmapped, leaf};
use crate::parts::{GhostGuest, GhostPhase};
use crate::rules::{change, host_entry};
use crate::shared::Shared;
use crate::step_uses::{ticket_kind, ticket_vm};
use crate::used::GhostUsed;
use call_table::{Refusal, Value, VmId, VmKind};
use ghost_trees::runs::at;
use ghost_trees::tree::{Tree, table_at};
use page_state::{Entry, Frame, Layout, Page, Prot, State};
use reference_model::{Changes, CpuChange, GuestChange, Stage, Ticket, Update};

/// The slots of VMs (profile).
const SLOTS: u64 = 64;

/// The most frames of a guest, tables among them (profile).
const MOST_FRAMES: u64 = 512;

/// Whether it is one of the input pages.
fn is_good_page(layout: &Layout, page: u64) -> bool
    ensures value { result ≡ is_good_page_of (layout_of layout.now) page }
{
    page < pages(layout)
}

/// Whether the pages of a range are input pages.
fn are_good_pages(layout: &Layout, page: u64, n: u64) -> bool
    requires { 1 ≤ n }
    ensures value { result ≡ are_good_pages_of (layout_of layout.now) page n }
    ensures low { IsTrue result → page + n ≤ 2 ^ 62 }
{
    let last = pages(layout);
    n <= last && page <= last - n
}

/// The guest's entry of a page.
fn guest_entry(guest: &GhostGuest, page: u64) -> Entry
    requires { IsKeptGuest guest.now }
    ensures value { result ≡ map_of guest.now.tree.runs.items page }
    ensures low { HasLowFrames result 1 }
{
    at(guest.tree.runs.as_slice(), Page(page))
}

/// Whether the host can't reach the guest's memory.
fn is_protected(kind: VmKind) -> bool
    ensures { result ≡ is_protected_of kind }
{
    match kind {
        VmKind::Protected => true,
        VmKind::Plain => false,
    }
}

/// Whether the guest is Live, with the generation of the name.
fn is_live(vm: VmId, guest: &GhostGuest) -> bool
    ensures { result ≡ is_guest_of live vm (guest_in guest.now) }
{
    matches!(guest.phase, GhostPhase::Live) && guest.generation == vm.generation
}

/// Whether the guest is Dying, with the generation of the name.
fn is_dying(vm: VmId, guest: &GhostGuest) -> bool
    ensures { result ≡ is_guest_of dying vm (guest_in guest.now) }
{
    matches!(guest.phase, GhostPhase::Dying) && guest.generation == vm.generation
}

/// Whether the guest is Live or Dying, with the generation of the name.
fn is_live_or_dying(vm: VmId, guest: &GhostGuest) -> bool
    ensures { result
        ≡ (is_guest_of live vm (guest_in guest.now)
        || is_guest_of dying vm (guest_in guest.now)) }
{
    is_live(vm, guest) || is_dying(vm, guest)
}

/// The frame of a leaf, or 0 for any other entry.
fn entry_frame(entry: Entry) -> u64
    requires { HasLowFrames entry 1 }
    ensures value { result ≡ entry_frame_of entry }
    ensures low { result + 1 ≤ 2 ^ 63 }
{
    match entry {
        Entry::Leaf { frame, .. } => frame.0,
        _ => 0,
    }
}

/// An entry with another state.
fn with_state(state: State, entry: Entry) -> Entry
    requires { HasLowFrames entry 1 }
    ensures value { result ≡ with_state_of state entry }
    ensures low { HasLowFrames result 1 }
{
    match entry {
        Entry::Leaf {
            frame,
            prot,
            kind,
            ..
        } => Entry::Leaf {
            frame,
            prot,
            kind,
            state,
        },
        other => other,
    }
}

/// The rights of both.
fn join(a: Prot, b: Prot) -> Prot
    ensures { result ≡ join_of a b }
{
    match (a, b) {
        (Prot::R, _) => b,
        (_, Prot::R) => a,
        (Prot::RW, Prot::RW) => Prot::RW,
        (Prot::RX, Prot::RX) => Prot::RX,
        _ => Prot::RWX,
    }
}

/// An entry with more rights.
fn with_rights(rights: Prot, entry: Entry) -> Entry
    requires { HasLowFrames entry 1 }
    ensures value { result ≡ with_rights_of rights entry }
    ensures low { HasLowFrames result 1 }
{
    match entry {
        Entry::Leaf {
            frame,
            prot,
            kind,
            state,
        } => Entry::Leaf {
            frame,
            prot: join(prot, rights),
            kind,
            state,
        },
        other => other,
    }
}

/// A range of the host and one of the guest change.
fn two_ranges(frame: u64, entry: Entry, page: u64, guest_entry: Entry, n: u64) -> Changes
    ensures { result ≡ two_ranges_of frame entry page guest_entry n }
{
    Changes {
        host: change(frame, n, entry),
        guest: change(page, n, guest_entry),
        ..Changes::NONE
    }
}

/// A page of the host and a page of the guest change.
fn two_pages(frame: u64, entry: Entry, page: u64, guest_entry: Entry) -> Changes
    ensures { result ≡ two_pages_of frame entry page guest_entry }
{
    two_ranges(frame, entry, page, guest_entry, 1)
}

/// Whether the host's page of a frame is free to give, and a page of the guest is unmapped.
fn may_give_frame(shared: &Shared, guest: &GhostGuest, frame: u64, page: u64) -> bool
    requires kept { IsKeptShared shared.now }
    requires guest { IsKeptGuest guest.now }
    ensures { result ≡ may_give_frame_of (shared_in_lists shared.now) (guest_in guest.now) frame page }
{
    is_free_page(host_entry(shared, frame)) && is_unmapped(guest_entry(guest, page))
}

/// Whether that is so of each frame of a range and its page.
fn may_give(shared: &Shared, guest: &GhostGuest, pfn: u64, gfn: u64, n: u64) -> bool
    requires kept { IsKeptShared shared.now }
    requires guest { IsKeptGuest guest.now }
    requires frames { pfn + n ≤ 2 ^ 62 }
    requires pages { gfn + n ≤ 2 ^ 62 }
    ensures { result
        ≡ all_below n
        (λ i. may_give_frame_of (shared_in_lists shared.now) (guest_in guest.now) (pfn + i)
        (gfn + i)) }
{
    for i in 0..n {
        if !may_give_frame(shared, guest, pfn + i, gfn + i) {
            return false;
        }
    }
    true
}

/// A range goes back to the host.
fn to_host(frame: u64, count: u64) -> Changes
    requires { frame ≤ 2 ^ 62 }
    ensures { result ≡ to_host_of frame count }
{
    Changes {
        host: change(frame, count, Entry::Unmapped),
        hyp: change(hyp_page(frame), count, Entry::Unmapped),
        ..Changes::NONE
    }
}

/// The CPU's ticket moves on to another stage.
fn moved_on(stage: Stage, own: &GhostCpu) -> CpuChange
    requires { IsKeptCpu own.now }
    ensures { result ≡ moved_on_of stage (cpu_in own.now) }
{
    CpuChange {
        ticket: Update::Becomes(Some(Ticket {
            vm: ticket_vm(own),
            kind: ticket_kind(own),
            stage,
        })),
        ..CpuChange::NONE
    }
}

/// The host shares a range with the guest.
#[tactic(auto, unfolding(reference_model::specs::model::Rules::rule))]
pub(crate) fn share_guest(
    layout: &Layout,
    used: &GhostUsed,
    slot: Option<u64>,
    pfn: u64,
    gfn: u64,
    prot: Prot,
    n: u64,
) -> Result<Changes, Refusal>
    requires { IsKeptUsed used.now }
    ensures decided { (cpu : ℕ)
        → result
        ≡ decides (layout_of layout.now) cpu slot (ShareGuest pfn gfn prot n)
        (used_in used.now) }
    ensures small { IfOk result AreSmallChanges }
{
    if !layout.is_good_range(Page(pfn), n) || !are_good_pages(layout, gfn, n) {
        return Err(Refusal::Invalid);
    }
    if slot.is_none() {
        return Err(Refusal::NoVm);
    }
    if is_protected(used.guest.kind) || !may_give(&used.shared, &used.guest, pfn, gfn, n) {
        return Err(Refusal::Perm);
    }
    Ok(two_ranges(
        pfn,
        leaf(Prot::RWX, pfn, State::SharedOwned),
        gfn,
        leaf(prot, pfn, State::SharedBorrowed),
        n,
    ))
}

/// The host takes back the page that it shared with the guest.
#[tactic(auto, unfolding(reference_model::specs::model::Rules::rule))]
pub(crate) fn unshare_guest(
    layout: &Layout,
    used: &GhostUsed,
    slot: Option<u64>,
    vm: VmId,
    gfn: u64,
) -> Result<Changes, Refusal>
    requires { IsKeptUsed used.now }
    ensures decided { (cpu : ℕ)
        → result
        ≡ decides (layout_of layout.now) cpu slot (UnshareGuest vm gfn) (used_in used.now) }
    ensures small { IfOk result AreSmallChanges }
{
    if vm.slot >= SLOTS || !is_good_page(layout, gfn) {
        return Err(Refusal::Invalid);
    }
    if slot.is_none() || !is_live(vm, &used.guest) {
        return Err(Refusal::NoVm);
    }
    let entry = guest_entry(&used.guest, gfn);
    if !is_in(State::SharedBorrowed, entry) {
        return Err(Refusal::Perm);
    }
    let frame = entry_frame(entry);
    Ok(two_pages(
        frame,
        leaf(Prot::RWX, frame, State::Owned),
        gfn,
        Entry::Unmapped,
    ))
}

/// The host gives a range to the guest.
#[tactic(auto, unfolding(reference_model::specs::model::Rules::rule))]
pub(crate) fn donate_guest(
    layout: &Layout,
    used: &GhostUsed,
    slot: Option<u64>,
    pfn: u64,
    gfn: u64,
    n: u64,
) -> Result<Changes, Refusal>
    requires kept { IsKeptUsed used.now }
    requires slot { IsLowSlot slot }
    ensures decided { (cpu : ℕ)
        → result
        ≡ decides (layout_of layout.now) cpu slot (DonateGuest pfn gfn n) (used_in used.now) }
    ensures small { IfOk result AreSmallChanges }
{
    if !layout.is_good_range(Page(pfn), n) || !are_good_pages(layout, gfn, n) {
        return Err(Refusal::Invalid);
    }
    let Some(number) = slot else {
        return Err(Refusal::NoVm);
    };
    if !is_protected(used.guest.kind) || !may_give(&used.shared, &used.guest, pfn, gfn, n) {
        return Err(Refusal::Perm);
    }
    Ok(two_ranges(
        pfn,
        annotation(2 + number),
        gfn,
        leaf(Prot::RWX, pfn, State::Owned),
        n,
    ))
}

/// The guest shares a page with the host.
#[tactic(auto, unfolding(reference_model::specs::model::Rules::rule))]
pub(crate) fn guest_share_host(
    layout: &Layout,
    used: &GhostUsed,
    slot: Option<u64>,
    gfn: u64,
) -> Result<Changes, Refusal>
    requires { IsKeptUsed used.now }
    ensures decided { (cpu : ℕ)
        → result
        ≡ decides (layout_of layout.now) cpu slot (GuestShareHost gfn) (used_in used.now) }
    ensures small { IfOk result AreSmallChanges }
{
    if !is_good_page(layout, gfn) {
        return Err(Refusal::Invalid);
    }
    if slot.is_none() {
        return Err(Refusal::NoVm);
    }
    let entry = guest_entry(&used.guest, gfn);
    if !is_in(State::Owned, entry) {
        return Err(Refusal::Perm);
    }
    let frame = entry_frame(entry);
    Ok(two_pages(
        frame,
        leaf(Prot::RWX, frame, State::SharedBorrowed),
        gfn,
        with_state(State::SharedOwned, entry),
    ))
}

/// The guest takes back a page that it shared.
#[tactic(auto, unfolding(reference_model::specs::model::Rules::rule))]
pub(crate) fn guest_unshare_host(
    layout: &Layout,
    used: &GhostUsed,
    slot: Option<u64>,
    gfn: u64,
) -> Result<Changes, Refusal>
    requires kept { IsKeptUsed used.now }
    requires slot { IsLowSlot slot }
    ensures decided { (cpu : ℕ)
        → result
        ≡ decides (layout_of layout.now) cpu slot (GuestUnshareHost gfn) (used_in used.now) }
    ensures small { IfOk result AreSmallChanges }
{
    if !is_good_page(layout, gfn) {
        return Err(Refusal::Invalid);
    }
    let Some(number) = slot else {
        return Err(Refusal::NoVm);
    };
    let entry = guest_entry(&used.guest, gfn);
    if !is_in(State::SharedOwned, entry) {
        return Err(Refusal::Perm);
    }
    Ok(two_pages(
        entry_frame(entry),
        annotation(2 + number),
        gfn,
        with_state(State::Owned, entry),
    ))
}

/// The guest becomes Live, with the hand as its root and pool.
#[tactic(auto, unfolding(reference_model::specs::model::Rules::rule))]
pub(crate) fn install(used: &GhostUsed, slot: Option<u64>) -> Result<Changes, Refusal>
    requires { IsKeptUsed used.now }
    ensures decided { (l : ReferenceLayout) (cpu : ℕ) → result ≡ decides l cpu slot Install (used_in used.now) }
    ensures small { IfOk result AreSmallChanges }
{
    if slot.is_none() {
        return Err(Refusal::NoVm);
    }
    let Some(hand) = used.own.hand else {
        return Err(Refusal::Perm);
    };
    Ok(Changes {
        part: GuestChange::Install {
            kind: ticket_kind(&used.own),
            generation: ticket_vm(&used.own).generation,
            hand,
        },
        cpu: CpuChange {
            hand: Update::Becomes(None),
            ..moved_on(Stage::Installed, &used.own)
        },
        moved: used.own.hand,
        ..Changes::NONE
    })
}

/// The number of tables of a tree of the layout: those at a block of the tree that have no later one at their block. It
/// reads only the list of tables.
fn table_count(layout: &Layout, tree: &Tree) -> u64
    ensures { result ≡ guest_table_count_of (layout_of layout.now) (tree_in_lists tree.now) }
{
    let tables = tree.tables.as_slice();
    let mut count = 0;
    for i in 0..tables.len() {
        let block = tables[i].block;
        if has_place(layout, block) && table_at(&tables[i + 1..], block).is_none() {
            count += 1;
        }
    }
    count
}

/// Whether tables, free frames and more of them are more than a guest may have.
fn are_many(tables: u64, free: usize, more: u64) -> bool
    ensures { result ≡ not (nat_le (tables + free + more) 512) }
{
    tables > MOST_FRAMES
        || free as u64 > MOST_FRAMES
        || more > MOST_FRAMES
        || tables + free as u64 + more > MOST_FRAMES
}

/// The guest's pool gets the hand.
#[tactic(auto, unfolding(reference_model::specs::model::Rules::rule))]
pub(crate) fn topup(
    layout: &Layout,
    used: &GhostUsed,
    slot: Option<u64>,
    vm: VmId,
) -> Result<Changes, Refusal>
    requires { IsKeptUsed used.now }
    ensures decided { (cpu : ℕ) → result ≡ decides (layout_of layout.now) cpu slot (Topup vm) (used_in used.now) }
    ensures small { IfOk result AreSmallChanges }
{
    if vm.slot >= SLOTS {
        return Err(Refusal::Invalid);
    }
    if slot.is_none() || !is_live_or_dying(vm, &used.guest) {
        return Err(Refusal::NoVm);
    }
    let Some(hand) = used.own.hand else {
        return Err(Refusal::Perm);
    };
    if are_many(
        table_count(layout, &used.guest.tree),
        used.guest.free.len(),
        hand.count,
    ) {
        return Err(Refusal::Perm);
    }
    Ok(Changes {
        part: GuestChange::Gain(hand),
        cpu: CpuChange {
            hand: Update::Becomes(None),
            ..CpuChange::NONE
        },
        moved: used.own.hand,
        ..Changes::NONE
    })
}

/// The host's new entry for a page of a Dying guest: unmapped for a page that the guest owned, else the frame as the
/// host's own again.
fn reclaimed(entry: Entry) -> Entry
    requires { HasLowFrames entry 1 }
    ensures value { result ≡ reclaimed_of entry }
    ensures low { HasLowFrames result 1 }
{
    if is_in(State::Owned, entry) {
        Entry::Unmapped
    } else {
        leaf(Prot::RWX, entry_frame(entry), State::Owned)
    }
}

/// The host gets a page of a Dying guest back.
#[tactic(auto, unfolding(reference_model::specs::model::Rules::rule))]
pub(crate) fn reclaim_page(
    layout: &Layout,
    used: &GhostUsed,
    slot: Option<u64>,
    vm: VmId,
    gfn: u64,
) -> Result<Changes, Refusal>
    requires { IsKeptUsed used.now }
    ensures decided { (cpu : ℕ)
        → result
        ≡ decides (layout_of layout.now) cpu slot (ReclaimPage vm gfn) (used_in used.now) }
    ensures small { IfOk result AreSmallChanges }
{
    if vm.slot >= SLOTS || !is_good_page(layout, gfn) {
        return Err(Refusal::Invalid);
    }
    if slot.is_none() || !is_dying(vm, &used.guest) {
        return Err(Refusal::NoVm);
    }
    let entry = guest_entry(&used.guest, gfn);
    if is_unmapped(entry) {
        return Err(Refusal::Perm);
    }
    Ok(two_pages(entry_frame(entry), reclaimed(entry), gfn, Entry::Unmapped))
}

/// The least frame of a guest's pool, or 0 if it is empty.
fn least(guest: &GhostGuest) -> u64
    requires { IsKeptGuest guest.now }
    ensures value { result ≡ least_of guest.now.free.items }
    ensures low { result ≤ 2 ^ 62 }
{
    match guest.free.first() {
        Some(frame) => *frame,
        None => 0,
    }
}

/// The host gets a frame of a Dying guest's pool back.
#[tactic(auto, unfolding(reference_model::specs::model::Rules::rule))]
pub(crate) fn reclaim_pool(
    used: &GhostUsed,
    slot: Option<u64>,
    vm: VmId,
) -> Result<Changes, Refusal>
    requires { IsKeptUsed used.now }
    ensures decided { (l : ReferenceLayout) (cpu : ℕ)
        → result ≡ decides l cpu slot (ReclaimPool vm) (used_in used.now) }
    ensures small { IfOk result AreSmallChanges }
{
    if vm.slot >= SLOTS {
        return Err(Refusal::Invalid);
    }
    if slot.is_none() || !is_dying(vm, &used.guest) {
        return Err(Refusal::NoVm);
    }
    if used.guest.free.len() == 0 {
        return Err(Refusal::Perm);
    }
    let frame = least(&used.guest);
    Ok(Changes {
        part: GuestChange::LoseLowest,
        value: Value::Frame(Frame(frame)),
        ..to_host(frame, 1)
    })
}

/// Whether nothing is mapped below a page.
fn maps_nothing(tree: &Tree, pages: u64) -> bool
    requires { IsKeptTree tree.now }
    ensures { result ≡ all_below pages (λ page. is_unmapped_of (map_of tree.now.runs.items page)) }
{
    match tree.runs.first() {
        Some(run) => run.pages.first.0 >= pages,
        None => true,
    }
}

/// The frame of a guest's root, or 0 if it has none.
fn root_of(layout: &Layout, guest: &GhostGuest) -> u64
    requires { IsKeptGuest guest.now }
    ensures value { result
        ≡ unwrap_or
        (table_of guest.now.tree.tables.items ((layout_of layout.now).depth + 1, 0)) 0 }
    ensures low { result ≤ 2 ^ 62 }
{
    match table_at(guest.tree.tables.as_slice(), (depth(layout) + 1, 0)) {
        Some(frame) => frame,
        None => 0,
    }
}

/// The host gets the root of a Dying guest back, which is then Empty.
#[tactic(auto, unfolding(reference_model::specs::model::Rules::rule))]
pub(crate) fn finish_guest(
    layout: &Layout,
    used: &GhostUsed,
    slot: Option<u64>,
) -> Result<Changes, Refusal>
    requires { IsKeptUsed used.now }
    ensures decided { (cpu : ℕ) → result ≡ decides (layout_of layout.now) cpu slot FinishGuest (used_in used.now) }
    ensures small { IfOk result AreSmallChanges }
{
    if slot.is_none() {
        return Err(Refusal::NoVm);
    }
    if !maps_nothing(&used.guest.tree, pages(layout)) || used.guest.free.len() > 0 {
        return Err(Refusal::Perm);
    }
    Ok(Changes {
        part: GuestChange::Empty,
        cpu: moved_on(Stage::Finished, &used.own),
        ..to_host(root_of(layout, &used.guest), 1)
    })
}

/// The guest may do more with a page that it borrows.
#[tactic(auto, unfolding(reference_model::specs::model::Rules::rule))]
pub(crate) fn guest_relax(
    layout: &Layout,
    used: &GhostUsed,
    slot: Option<u64>,
    gfn: u64,
    prot: Prot,
) -> Result<Changes, Refusal>
    requires { IsKeptUsed used.now }
    ensures decided { (cpu : ℕ)
        → result
        ≡ decides (layout_of layout.now) cpu slot (GuestRelax gfn prot) (used_in used.now) }
    ensures small { IfOk result AreSmallChanges }
{
    if !is_good_page(layout, gfn) {
        return Err(Refusal::Invalid);
    }
    if slot.is_none() {
        return Err(Refusal::NoVm);
    }
    let entry = guest_entry(&used.guest, gfn);
    if !is_in(State::SharedBorrowed, entry) {
        return Err(Refusal::Perm);
    }
    Ok(Changes {
        guest: change(gfn, 1, with_rights(prot, entry)),
        ..Changes::NONE
    })
}

/// The guest's entry of a page.
#[tactic(auto, unfolding(reference_model::specs::model::Rules::rule))]
pub(crate) fn guest_translate(
    layout: &Layout,
    used: &GhostUsed,
    slot: Option<u64>,
    vm: VmId,
    gfn: u64,
) -> Result<Changes, Refusal>
    requires { IsKeptUsed used.now }
    ensures decided { (cpu : ℕ)
        → result
        ≡ decides (layout_of layout.now) cpu slot (GuestTranslate vm gfn) (used_in used.now) }
    ensures small { IfOk result AreSmallChanges }
{
    if vm.slot >= SLOTS || !is_good_page(layout, gfn) {
        return Err(Refusal::Invalid);
    }
    if slot.is_none() || !is_live(vm, &used.guest) && !is_dying(vm, &used.guest) {
        return Err(Refusal::NoVm);
    }
    Ok(Changes {
        value: Value::Entry(guest_entry(&used.guest, gfn)),
        ..Changes::NONE
    })
}

/// A Live guest becomes Dying.
#[tactic(auto, unfolding(reference_model::specs::model::Rules::rule))]
pub(crate) fn mark_dying(used: &GhostUsed, slot: Option<u64>) -> Result<Changes, Refusal>
    requires { IsKeptUsed used.now }
    ensures decided { (l : ReferenceLayout) (cpu : ℕ) → result ≡ decides l cpu slot MarkDying (used_in used.now) }
    ensures small { IfOk result AreSmallChanges }
{
    if slot.is_none() {
        return Err(Refusal::NoVm);
    }
    Ok(Changes {
        part: GuestChange::Die,
        cpu: moved_on(Stage::Dying, &used.own),
        ..Changes::NONE
    })
}

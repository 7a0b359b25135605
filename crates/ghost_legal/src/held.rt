//! The holders of frames, apart from the host and the hypervisor: pools, tables, hands and guests.
ghost use Rattle.std.specs.Prelude.{◌≡◌, ◌++◌, ◌<◌, ◌≤◌, ◌↔◌, length, All, IfOk, IsTrue, OnOk, Contains, MatchOption, IsPermutation};
ghost use Rattle.std.specs.List.Sorted.{IsNonDecreasingBy};
ghost use Rattle.page_state.specs.Regions.{end_of};
ghost use Rattle.ghost_legal.specs.Facts.{later as later_of, HasLowPage};
ghost use Rattle.ghost_legal.specs.Frames.{held_frames, IsSmallHeld, IsSmallHolder};
ghost use Rattle.ghost_legal.specs.Listed.{piece, option_list, hand_held, shared_held, mapped_of, free_held, tables_held, runs_held, guest_held, guests_held, hands_held, all_held_in};
ghost use Rattle.ghost_legal.specs.Frames.{AreTwice};
ghost use Rattle.ghost_legal.specs.Ranges.{AreInOrder};

use crate::finding::{Holder, TreeBlock};
use ghost_spec::cpu::GhostCpu;
use ghost_spec::lists::GhostLists;
use ghost_spec::parts::GhostGuest;
use ghost_spec::shared::Shared;
use ghost_trees::tree::Table;
use page_state::{Page, PageRange, Run, Target};
use std::alloc::{AllocError, Global};

/// A range of frames with one holder. A guest's page advances with the frame.
#[derive(Clone, Copy, PartialEq)]
pub(crate) struct Held {
    pub(crate) frames: PageRange,
    pub(crate) holder: Holder,
}

/// One frame that one has.
fn one(frame: u64, holder: Holder) -> Held
    ensures { result ≡ piece frame holder }
{
    Held {
        frames: PageRange {
            first: Page(frame),
            count: 1,
        },
        holder,
    }
}

/// Adds the free frames of a pool.
fn add_free(held: &mut Vec<Held>, free: &[u64], holder: Holder) -> Result<(), AllocError>
    ensures { OnOk result (held.new.items ≡ held.old.items ++ free_held holder free.now) }
{
    for i in 0..free.len() {
        held.push(one(free[i], holder))?;
    }
    Ok(())
}

/// Adds the tables of a tree.
fn add_tables(held: &mut Vec<Held>, tree: u64, tables: &[Table]) -> Result<(), AllocError>
    ensures { OnOk result (held.new.items ≡ held.old.items ++ tables_held tree tables.now) }
{
    for i in 0..tables.len() {
        let at = TreeBlock {
            tree,
            block: tables[i].block,
        };
        held.push(one(tables[i].frame, Holder::Table(at)))?;
    }
    Ok(())
}

/// The frames that a guest's run maps.
fn mapped(slot: u64, run: Run) -> Option<Held>
    ensures { result ≡ mapped_of slot run }
{
    match run.target {
        Target::Leaf { frame, state, .. } => Some(Held {
            frames: PageRange {
                first: Page(frame.0),
                count: run.pages.count,
            },
            holder: Holder::Guest {
                slot,
                page: run.pages.first.0,
                state,
            },
        }),
        _ => None,
    }
}

/// Adds the frames that a guest's run maps.
fn add_run(held: &mut Vec<Held>, slot: u64, run: Run) -> Result<(), AllocError>
    ensures { OnOk result (held.new.items ≡ held.old.items ++ option_list (mapped_of slot run)) }
{
    if let Some(frames) = mapped(slot, run) {
        held.push(frames)?;
    }
    Ok(())
}

/// Adds the frames that a guest's runs map.
fn add_runs(held: &mut Vec<Held>, slot: u64, runs: &[Run]) -> Result<(), AllocError>
    ensures { OnOk result (held.new.items ≡ held.old.items ++ runs_held slot runs.now) }
{
    for i in 0..runs.len() {
        add_run(held, slot, runs[i])?;
    }
    Ok(())
}

/// Adds the hand of a CPU.
fn add_hand(held: &mut Vec<Held>, cpu: u64, hand: Option<PageRange>) -> Result<(), AllocError>
    ensures { OnOk result (held.new.items ≡ held.old.items ++ hand_held cpu hand) }
{
    if let Some(frames) = hand {
        let holder = Holder::Hand(cpu);
        held.push(Held { frames, holder })?;
    }
    Ok(())
}

/// Adds the hands of CPUs.
fn add_hands(held: &mut Vec<Held>, cpus: &[GhostCpu]) -> Result<(), AllocError>
    ensures { OnOk result (held.new.items ≡ held.old.items ++ hands_held 0 cpus.now) }
{
    for i in 0..cpus.len() {
        add_hand(held, i as u64, cpus[i].hand)?;
    }
    Ok(())
}

/// Adds the frames that a guest holds.
fn add_guest(held: &mut Vec<Held>, slot: u64, guest: &GhostGuest) -> Result<(), AllocError>
    requires { slot < 64 }
    ensures { OnOk result (held.new.items ≡ held.old.items ++ guest_held slot guest.now) }
{
    add_tables(held, 2 + slot, guest.tree.tables.as_slice())?;
    add_free(held, guest.free.as_slice(), Holder::VmPool(slot))?;
    add_runs(held, slot, guest.tree.runs.as_slice())
}

/// Adds the frames that guests hold.
fn add_guests(held: &mut Vec<Held>, guests: &[GhostGuest]) -> Result<(), AllocError>
    requires { length guests.now ≡ 64 }
    ensures { OnOk result (held.new.items ≡ held.old.items ++ guests_held 0 guests.now) }
{
    for v in 0..guests.len() {
        add_guest(held, v as u64, &guests[v])?;
    }
    Ok(())
}

/// Adds the frames that the Shared part holds.
fn add_shared(held: &mut Vec<Held>, shared: &Shared) -> Result<(), AllocError>
    ensures { OnOk result (held.new.items ≡ held.old.items ++ shared_held shared.now) }
{
    add_tables(held, 0, shared.host.tables.as_slice())?;
    add_tables(held, 1, shared.hyp.tables.as_slice())?;
    add_free(held, shared.free.as_slice(), Holder::SharedPool)
}

/// All that is held.
fn all_held(alloc: Global, state: &GhostLists) -> Result<Vec<Held>, AllocError>
    requires { length state.now.guests.items ≡ 64 }
    ensures { IfOk result (λ v. v.items ≡ all_held_in state.now) }
{
    let mut held = Vec::new(alloc);
    add_shared(&mut held, &state.shared)?;
    add_guests(&mut held, state.guests.as_slice())?;
    add_hands(&mut held, state.cpus.as_slice())?;
    Ok(held)
}

/// All that is held, by frame.
pub(crate) fn held_in_order(alloc: Global, state: &GhostLists) -> Result<Vec<Held>, AllocError>
    requires { length state.now.guests.items ≡ 64 }
    ensures all { IfOk result (λ v. IsPermutation (all_held_in state.now) v.items) }
    ensures rise { IfOk result (λ v. IsNonDecreasingBy (λ h. h.frames.first.0) v.items) }
{
    let mut held = all_held(alloc, state)?;
    held.sort_by_key(|h| h.frames.first.0)?;
    Ok(held)
}

/// The holder of a frame, from the holder of the frame `offset` frames before it.
pub(crate) fn later(holder: Holder, offset: u64) -> Holder
    requires { HasLowPage holder offset }
    ensures { result ≡ later_of holder offset }
{
    match holder {
        Holder::Guest { slot, page, state } => Holder::Guest {
            slot,
            page: page + offset,
            state,
        },
        other => other,
    }
}

/// The greatest frame or page outside of runs.
const MOST: u64 = 0x8000_0000_0000_0000;

/// Whether a holder is a guest of one of the 64 slots, at pages that stay small along `count` frames, or no guest.
fn is_small_holder(holder: Holder, count: u64) -> bool
    ensures { IsTrue result ↔ IsSmallHolder holder count }
{
    match holder {
        Holder::Guest { slot, page, .. } => slot < 64 && page <= MOST && count <= MOST - page,
        _ => true,
    }
}

/// Whether the numbers of a piece are small.
fn is_small(held: Held) -> bool
    ensures { IsTrue result ↔ IsSmallHeld held }
{
    let PageRange { first, count } = held.frames;
    first.0 <= MOST && count <= MOST - first.0 && is_small_holder(held.holder, count)
}

/// The first piece whose numbers aren't small.
pub(crate) fn first_far(held: &[Held]) -> Option<Held>
    ensures { MatchOption result (All IsSmallHeld held.now)
        (λ h. Contains held.now h × (IsSmallHeld h → ⊥)) }
{
    for i in 0..held.len() {
        if !is_small(held[i]) {
            return Some(held[i]);
        }
    }
    None
}

/// Whether a piece ends before another begins.
fn ends_before(one: Held, other: Held) -> bool
    requires { IsSmallHeld one }
    ensures { IsTrue result ↔ (end_of one.frames ≤ other.frames.first.0) }
{
    one.frames.first.0 + one.frames.count <= other.frames.first.0
}

/// The first two pieces of a list that aren't in order.
pub(crate) fn first_twice(held: &[Held]) -> Option<(Held, Held)>
    requires small { All IsSmallHeld held.now }
    requires rise { IsNonDecreasingBy (λ h. h.frames.first.0) held.now }
    requires some { All (λ h. 0 < h.frames.count) held.now }
    ensures { MatchOption result (AreInOrder held_frames held.now) (λ p. AreTwice held.now p.0 p.1) }
{
    for i in 1..held.len() {
        if !ends_before(held[i - 1], held[i]) {
            return Some((held[i - 1], held[i]));
        }
    }
    None
}

//! The run that a walk is still extending, before it goes to the end of a list.
ghost use Rattle.std.specs.Prelude.{◌≡◌, ℕ, ◌+◌, ◌^◌, ◌<◌, ◌≤◌, IfSome, IsTrue, OnOk};
ghost use Rattle.page_state.specs.Geometries.{block_pages};
ghost use Rattle.page_state.specs.Map.{Map};
ghost use Rattle.table_tree.specs.Meaning.{IsDepth};
ghost use Rattle.table_tree.specs.Shape.{HasSmallFrame};
ghost use Rattle.table_tree.specs.Ahead.{gives, GoesAhead};
ghost use Rattle.ghost_oracle.specs.inner.Pending.{BeginsWith, CanTake, ComesNext, IsPending, IsPut, TakesWord};
ghost use Rattle.ghost_oracle.specs.inner.Walking.{AreRunsTo};

use crate::found::put_block;
use page_state::{Entry, Run};
use std::alloc::AllocError;
use table_tree::word::entry_of;

/// A run whose end isn't known yet: the pages from `first` on have the entry, which advances along them. If it `goes_on`, the
/// words that extend it are `next`, `next + step`, and so on.
#[derive(Clone, Copy)]
pub(crate) struct Pending {
    pub(crate) first: u64,
    pub(crate) entry: Entry,
    pub(crate) goes_on: bool,
    pub(crate) next: u64,
    pub(crate) step: u64,
}

/// No pages yet, up to `first`. Words of 0 extend it.
pub(crate) fn nothing_pending(first: u64) -> Pending
    ensures first { result.first ≡ first }
    ensures pending { (m : Map) (depth left : ℕ) → IsPending m depth first left result }
{
    Pending {
        first,
        entry: Entry::Unmapped,
        goes_on: true,
        next: 0,
        step: 0,
    }
}

/// The difference between neighbouring words that advance an entry. None if a frame could pass the last one in this
/// table.
fn step_of(depth: u32, pages: u64, entry: Entry) -> Option<u64>
    requires depth_in { IsDepth depth }
    requires pages { pages ≡ block_pages depth }
    ensures { IfSome result (GoesAhead depth entry) }
{
    match entry {
        Entry::Leaf { frame, .. } => {
            if frame.0 <= (1 << 36) - 512 * pages {
                Some(4096 * pages)
            } else {
                None
            }
        }
        Entry::Unmapped | Entry::Malformed | Entry::Annotated(_) => Some(0),
    }
}

/// The run that begins with a word's block.
fn pending_of(depth: u32, pages: u64, first: u64, word: u64) -> Pending
    requires depth_in { IsDepth depth }
    requires pages { pages ≡ block_pages depth }
    ensures first { result.first ≡ first }
    ensures entry { result.entry ≡ gives depth word }
    ensures small { HasSmallFrame result.entry }
    ensures next { IsTrue result.goes_on → ComesNext depth (first + pages) 511 result }
{
    let entry = entry_of(depth, word);
    match step_of(depth, pages, entry) {
        Some(step) => Pending {
            first,
            entry,
            goes_on: true,
            next: word + step,
            step,
        },
        None => Pending {
            first,
            entry,
            goes_on: false,
            next: 0,
            step: 0,
        },
    }
}

/// Appends a run that ends before page `end` to a list.
#[inline(never)]
pub(crate) fn put_pending(runs: &mut Vec<Run>, pending: Pending, end: u64) -> Result<(), AllocError>
    requires order { pending.first ≤ end }
    requires pages { end ≤ 2 ^ 36 }
    requires small { HasSmallFrame pending.entry }
    requires before { AreRunsTo pending.first runs.old.items }
    ensures runs { OnOk result (AreRunsTo end runs.new.items) }
    ensures map { OnOk result (IsPut pending end runs.old.items runs.new.items) }
{
    if pending.first < end {
        put_block(runs, pending.first, end - pending.first, pending.entry)?;
    }
    Ok(())
}

/// Appends the pending run to a list, and begins another with a word's block, whose first page is `end`.
#[inline(never)]
fn begin_pending(
    runs: &mut Vec<Run>,
    pending: &mut Pending,
    depth: u32,
    pages: u64,
    end: u64,
    word: u64,
) -> Result<(), AllocError>
    requires can { CanTake depth pages end runs.old.items pending.old }
    ensures runs { OnOk result (AreRunsTo end runs.new.items) }
    ensures map { OnOk result (IsPut pending.old end runs.old.items runs.new.items) }
    ensures first { OnOk result (pending.new.first ≡ end) }
    ensures pending { OnOk result (BeginsWith depth pages end word pending.new) }
{
    put_pending(runs, *pending, end)?;
    *pending = pending_of(depth, pages, end, word);
    Ok(())
}

/// Extends the pending run by a word's block, or begins another with it if the word doesn't continue the run.
#[inline(always)]
pub(crate) fn take_word(
    runs: &mut Vec<Run>,
    pending: &mut Pending,
    depth: u32,
    pages: u64,
    end: u64,
    word: u64,
) -> Result<(), AllocError>
    requires can { CanTake depth pages end runs.old.items pending.old }
    requires room { IsTrue pending.old.goes_on → pending.old.next + pending.old.step < 2 ^ 64 }
    ensures runs { OnOk result (AreRunsTo pending.new.first runs.new.items) }
    ensures map { OnOk result (IsPut pending.old pending.new.first runs.old.items runs.new.items) }
    ensures order { OnOk result ((pending.old.first ≤ pending.new.first) × (pending.new.first ≤ end)) }
    ensures pending { OnOk result (TakesWord depth pages end word pending.old pending.new) }
{
    if pending.goes_on && word == pending.next {
        pending.next += pending.step;
    } else {
        begin_pending(runs, pending, depth, pages, end, word)?;
    }
    Ok(())
}

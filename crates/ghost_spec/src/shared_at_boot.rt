//! The Shared part at boot, on lists.
ghost use Rattle.std.specs.Prelude.{◌≡◌, ℕ, ◌+◌, ◌^◌, ◌<◌, ◌≤◌, ◌↔◌, IsTrue, IfOk, IfSome, IsSome};
ghost use Rattle.page_state.specs.Trees.{frames_from as frames_of, root_tree as root_tree_of};
ghost use Rattle.reference_model.specs.model.Boot.{boot_shared, IsCarveEnough};
ghost use Rattle.page_state.specs.EntryTests.{annotation, leaf};
ghost use Rattle.page_state.specs.Layouts.{hyp_page as hyp_page_of};
ghost use Rattle.page_state.specs.Regions.{end_of};
ghost use Rattle.page_state.specs.Tables.{put, need as need_of, edited as edited_of};
ghost use Rattle.ghost_spec.specs.Kept.{IsKeptShared};
ghost use Rattle.ghost_trees.specs.KeptTrees.{IsKeptTree};
ghost use Rattle.ghost_trees.specs.Small.{HasLowFrames};
ghost use Rattle.ghost_spec.specs.Views.{layout_with, shared_in_lists};
ghost use Rattle.ghost_trees.specs.Trees.{tree_in_lists};

use crate::leaves::hyp_page;
use crate::pair::both;
use crate::shared::{Shared, behind};
use ghost_trees::tree::{Table, Tree, edited, need};
use page_state::{Config, Entry, Frame, Kind, MemoryMap, Owner, Page, PageRange, Prot, State};
use run_list::RunList;
use std::alloc::{AllocError, Global};

/// The Shared part at boot, before its rows are found, in trees of `depth` levels below the root's. None if the
/// carve-out has fewer frames than boot needs tables.
pub fn boot(
    alloc: Global,
    memory: &MemoryMap,
    config: Config,
    depth: u64,
) -> Result<Option<Shared>, AllocError>
    requires { depth ≤ 3 }
    ensures enough { IfOk result (λ o. IsSome o ↔ IsCarveEnough (layout_with memory.now config depth)) }
    ensures shared { IfOk result
        (λ o. IfSome o
        (λ s. shared_in_lists s ≡ boot_shared (layout_with memory.now config depth))) }
    ensures kept { IfOk result (λ o. IfSome o IsKeptShared) }
{
    let carve = memory.carve();
    let first = carve.first.0;
    let hyp_pages = hyp_range(carve);
    let host_need = need_at_boot(alloc, depth, first, carve, host_entry())?;
    let hyp_need = need_at_boot(alloc, depth, first + 1, hyp_pages, hyp_entry(first))?;
    if !is_enough(carve.count, host_need, hyp_need) {
        return Ok(None);
    }
    let frames = frames_from(alloc, first, carve.count)?;
    let spare = behind(frames.as_slice(), 2);
    let rest = behind(spare, host_need);
    let free = Vec::from_slice(alloc, behind(rest, hyp_need));
    let host = tree_at_boot(alloc, depth, first, carve, host_entry(), spare);
    let hyp = tree_at_boot(alloc, depth, first + 1, hyp_pages, hyp_entry(first), rest);
    let (free, (host, hyp)) = both(free, both(host, hyp))?;
    Ok(Some(Shared {
        host,
        hyp,
        free,
        rows: RunList::new(alloc),
    }))
}

/// The number of tables that a tree with only its root needs to give a range an entry.
fn need_at_boot(
    alloc: Global,
    depth: u64,
    root: u64,
    range: PageRange,
    entry: Entry,
) -> Result<usize, AllocError>
    requires depth { depth ≤ 3 }
    requires pages { end_of range ≤ 2 ^ 63 }
    requires frames { HasLowFrames entry range.count }
    ensures { IfOk result
        (λ n. n ≡ need_of depth (root_tree_of depth root) (put range.first.0 range.count entry)) }
{
    let tree = root_tree(alloc, depth, root)?;
    need(alloc, depth, &tree, range, entry)
}

/// A tree with only its root, after a range gets an entry: the tables that it needs get the frames, in order.
fn tree_at_boot(
    alloc: Global,
    depth: u64,
    root: u64,
    range: PageRange,
    entry: Entry,
    frames: &[u64],
) -> Result<Tree, AllocError>
    requires depth { depth ≤ 3 }
    requires pages { end_of range ≤ 2 ^ 63 }
    requires frames { HasLowFrames entry range.count }
    ensures tree { IfOk result
        (λ t. tree_in_lists t
        ≡ edited_of depth (root_tree_of depth root)
        (put range.first.0 range.count entry) frames.now) }
    ensures kept { IfOk result IsKeptTree }
{
    let tree = root_tree(alloc, depth, root)?;
    let made = edited(alloc, depth, &tree, range, entry, frames)?;
    Ok(made.tree)
}

/// The hypervisor's pages of the carve-out.
fn hyp_range(carve: PageRange) -> PageRange
    requires { carve.first.0 < 2 ^ 26 }
    ensures { result ≡ record { first = record { 0 = hyp_page_of carve.first.0 }; count = carve.count } }
{
    PageRange {
        first: Page(hyp_page(carve.first.0)),
        count: carve.count,
    }
}

/// The host's entry of the hypervisor's own pages.
fn host_entry() -> Entry
    ensures { result ≡ annotation 1 }
{
    Entry::Annotated(Owner(1))
}

/// The hypervisor's entry of a frame of its own.
fn hyp_entry(frame: u64) -> Entry
    ensures { result ≡ leaf Prot.RW frame State.Owned }
{
    Entry::Leaf {
        frame: Frame(frame),
        prot: Prot::RW,
        kind: Kind::Normal,
        state: State::Owned,
    }
}

/// A tree that has only its root and maps nothing.
pub(crate) fn root_tree(alloc: Global, depth: u64, root: u64) -> Result<Tree, AllocError>
    requires { depth ≤ 3 }
    ensures tree { IfOk result (λ t. tree_in_lists t ≡ root_tree_of depth root) }
    ensures kept { IfOk result IsKeptTree }
{
    let mut tables = Vec::new(alloc);
    tables.push(Table {
        block: (depth + 1, 0),
        frame: root,
    })?;
    Ok(Tree {
        runs: Vec::new(alloc),
        tables,
    })
}

/// Whether `frames` are enough: one for each root, and one for each further table of the trees.
fn is_enough(frames: u64, host_need: usize, hyp_need: usize) -> bool
    ensures { IsTrue result ↔ (2 + host_need + hyp_need ≤ frames) }
{
    frames >= 2
        && host_need as u64 <= frames - 2
        && hyp_need as u64 <= frames - 2 - host_need as u64
}

/// The `count` frames from the first on.
pub(crate) fn frames_from(alloc: Global, first: u64, count: u64) -> Result<Vec<u64>, AllocError>
    requires { first + count ≤ 2 ^ 63 }
    ensures { IfOk result (λ v. v.items ≡ frames_of first count) }
{
    let mut frames = Vec::new(alloc);
    for i in 0..count {
        frames.push(first + i)?;
    }
    Ok(frames)
}

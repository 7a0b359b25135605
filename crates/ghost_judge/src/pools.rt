//! The first difference of two Shared parts, maps and rows apart, and of two guests, maps apart.
ghost use Rattle.std.specs.Prelude.{◌≡◌, ◌↔◌, IsTrue, MatchOption, length};
ghost use Rattle.ghost_spec.specs.States.{guest_in};
ghost use Rattle.ghost_spec.specs.Views.{shared_in_lists};
ghost use Rattle.ghost_trees.specs.Trees.{table_of};
ghost use Rattle.ghost_judge.specs.PartDifferences.{frame_at as frame_at_of, guest_with, head_of, without_map, IsFirstBlock, IsFirstOfGuest, IsFirstOfShared, IsSamePool};
ghost use Rattle.ghost_judge.specs.inner.Covered.{comes_first as comes_first_of, precedes as precedes_of, AreCovered, CoversMore, IsCovered, IsUnlike};
ghost use Rattle.ghost_judge.specs.inner.Parted.{IsFoundApart};
ghost use Rattle.ghost_judge.specs.inner.Pooled.{IsFoundInFrames, IsFoundInTables};

use crate::disagreement::{GuestHead, PartDifference, TreeOf};
use ghost_spec::parts::GhostGuest;
use ghost_spec::shared::Shared;
use ghost_trees::blocks::Block;
use ghost_trees::tree::{Table, table_at};

/// The frame at a place of a list; None past its end.
fn frame_at(frames: &[u64], at: usize) -> Option<u64>
    ensures { result ≡ frame_at_of frames.now at }
{
    if at < frames.len() {
        Some(frames[at])
    } else {
        None
    }
}

/// The first place at which two lists of frames differ.
fn frames_apart(post: &[u64], spec: &[u64]) -> Option<usize>
    ensures { IsFoundApart (frame_at_of post.now) (frame_at_of spec.now) result }
{
    for at in 0..post.len().max(spec.len()) {
        if frame_at(post, at) != frame_at(spec, at) {
            return Some(at);
        }
    }
    None
}

/// Whether a block comes before another.
fn precedes(a: Block, b: Block) -> bool
    ensures { result ≡ precedes_of a b }
{
    a.0 < b.0 || a.0 == b.0 && a.1 < b.1
}

/// Whether a block comes before the one that was found.
fn comes_first(block: Block, found: Option<Block>) -> bool
    ensures { result ≡ comes_first_of block found }
{
    match found {
        Some(other) => precedes(block, other),
        None => true,
    }
}

/// A block at which the tables of two lists differ, if it comes before the one that was found; else that one.
fn lesser(a: &[Table], b: &[Table], block: Block, found: Option<Block>) -> Option<Block>
    requires { IsUnlike (table_of a.now) (table_of b.now) found }
    ensures unlike { IsUnlike (table_of a.now) (table_of b.now) result }
    ensures covered { IsCovered (table_of a.now) (table_of b.now) result block }
    ensures more { CoversMore found result }
{
    if table_at(a, block) == table_at(b, block) {
        return found;
    }
    if comes_first(block, found) {
        Some(block)
    } else {
        found
    }
}

/// The same, for the blocks of a list.
fn least(a: &[Table], b: &[Table], tables: &[Table], found: Option<Block>) -> Option<Block>
    requires { IsUnlike (table_of a.now) (table_of b.now) found }
    ensures unlike { IsUnlike (table_of a.now) (table_of b.now) result }
    ensures covered { AreCovered (table_of a.now) (table_of b.now) result tables.now (length tables.now) }
    ensures more { CoversMore found result }
{
    let mut least = found;
    for i in 0..tables.len() {
        least = lesser(a, b, tables[i].block, least);
    }
    least
}

/// The first block at which the tables of two trees differ.
fn tables_apart(a: &[Table], b: &[Table]) -> Option<Block>
    ensures { MatchOption result (table_of a.now ≡ table_of b.now)
        (IsFirstBlock (table_of a.now) (table_of b.now)) }
{
    let found = least(a, b, a, None);
    least(a, b, b, found)
}

/// The difference of two trees' tables at their first block.
fn in_tables(tree: TreeOf, a: &[Table], b: &[Table]) -> Option<PartDifference>
    ensures { IsFoundInTables tree (table_of a.now) (table_of b.now) result }
{
    match tables_apart(a, b) {
        Some(block) => Some(PartDifference::Table {
            tree,
            block,
            kept: table_at(a, block),
            walked: table_at(b, block),
        }),
        None => None,
    }
}

/// The difference of two lists of frames at their first place.
fn in_frames(post: &[u64], spec: &[u64]) -> Option<PartDifference>
    ensures { IsFoundInFrames post.now spec.now result }
{
    match frames_apart(post, spec) {
        Some(at) => Some(PartDifference::Free {
            kept: frame_at(post, at),
            walked: frame_at(spec, at),
        }),
        None => None,
    }
}

/// The first difference of two Shared parts, maps and rows apart.
pub(crate) fn in_shared(post: &Shared, spec: &Shared) -> Option<PartDifference>
    ensures { MatchOption result (IsSamePool (shared_in_lists post.now) (shared_in_lists spec.now))
        (IsFirstOfShared (shared_in_lists post.now) (shared_in_lists spec.now)) }
{
    let free = in_frames(post.free.as_slice(), spec.free.as_slice());
    if free.is_some() {
        return free;
    }
    let (a, b) = (&post.host.tables, &spec.host.tables);
    let host = in_tables(TreeOf::Host, a.as_slice(), b.as_slice());
    if host.is_some() {
        return host;
    }
    let (a, b) = (&post.hyp.tables, &spec.hyp.tables);
    in_tables(TreeOf::Hyp, a.as_slice(), b.as_slice())
}

/// The phase, generation and kind of a guest.
fn head(guest: &GhostGuest) -> GuestHead
    ensures { guest_with result ≡ head_of (guest_in guest.now) }
{
    GuestHead {
        phase: guest.phase,
        generation: guest.generation,
        kind: guest.kind,
    }
}

/// Whether two guests have the same.
fn has_same_head(a: &GhostGuest, b: &GhostGuest) -> bool
    ensures { IsTrue result ↔ (head_of (guest_in a.now) ≡ head_of (guest_in b.now)) }
{
    a.phase == b.phase && a.generation == b.generation && a.kind == b.kind
}

/// The first difference of two guests of a slot, maps apart.
pub(crate) fn in_guest(slot: u64, post: &GhostGuest, spec: &GhostGuest) -> Option<PartDifference>
    ensures { MatchOption result (without_map (guest_in post.now) ≡ without_map (guest_in spec.now))
        (IsFirstOfGuest slot (guest_in post.now) (guest_in spec.now)) }
{
    if !has_same_head(post, spec) {
        return Some(PartDifference::Head {
            kept: head(post),
            walked: head(spec),
        });
    }
    let (a, b) = (&post.tree.tables, &spec.tree.tables);
    let tables = in_tables(TreeOf::Guest(slot), a.as_slice(), b.as_slice());
    if tables.is_some() {
        return tables;
    }
    in_frames(post.free.as_slice(), spec.free.as_slice())
}

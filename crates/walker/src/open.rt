//! The effect of a change on one slot: a word in the place of a word, or a table to go on in, which is put back.
ghost use Rattle.std.specs.Prelude.{◌≡◌, ◌≢◌, ℕ, ◌+◌, ◌*◌, ◌<◌, ◌≤◌, None, IfSome, MatchOption, is_some, length, Decides};
ghost use Rattle.descriptor.specs.Word.{desc_of, IsEncodable};
ghost use Rattle.page_state.specs.Entries.{advance, entry_of_word, word_of_entry};
ghost use Rattle.page_state.specs.Geometries.{block_pages};
ghost use Rattle.table_tree.specs.Ahead.{GoesAhead};
ghost use Rattle.table_tree.specs.Meaning.{IsDepth, level_at, slot_at, frame_of, word_entry};
ghost use Rattle.table_tree.specs.Changes.{IsNew, IsSeen};
ghost use Rattle.table_tree.specs.Reading.{count_of};
ghost use Rattle.table_tree.specs.Shape.{IsWide, IsBlank, HoldsWord, HasSmallFrame, IsEntryWord, IsShaped};
ghost use Rattle.table_tree.specs.Slots.{fresh};
ghost use Rattle.table_tree.specs.Stocks.{frames_of};
ghost use Rattle.table_tree.specs.Tight.{HasEntry, IsOneWord, IsTight};
ghost use Rattle.walk_plan.specs.Changes.{IsChange, changed_entry, stays_one_word};
ghost use Rattle.walker.specs.inner.Steps.{IsFilled, IsFirst, IsFound, IsOpened, IsPutBack, IsEntryOfParts};

use page_state::Entry;
use std::alloc::Allocator;
use table_tree::word::{entry_of, pages_before, word_of};
use table_tree::{Reads, Slot, Stock, Table};
use walk_plan::Change;

/// The word of a block without a table after a change, if the block can be one word.
#[tactic(auto, using(page_state::proofs::Equality::entries_test))]
fn word_after(depth: u32, word: u64, change: Change) -> Option<u64>
    requires depth_in { IsDepth depth }
    requires word_in { IsEntryWord depth word }
    requires change_in { IsChange depth change }
    ensures some { is_some result ≡ stays_one_word depth (entry_of_word (desc_of (level_at depth) word)) change }
    ensures entry { IfSome result (λ w. IsEntryWord depth w) }
    ensures map { IfSome result
        (λ w. (q : ℕ)
        → word_entry depth q w
        ≡ changed_entry depth (λ p. word_entry depth p word) change q) }
{
    page_state::laws::block_tests();
    if change.is_whole(depth) {
        return Some(word_of(depth, change.entry));
    }
    if entry_of(depth, word).advance(change.first) == change.entry {
        return Some(word);
    }
    None
}

/// The result of a look at a slot before a change in it.
#[derive(Clone, Copy)]
pub(crate) enum Found {
    /// A word that goes on as a word: the one that the slot gets.
    Word(u64),
    /// A table to go on in: the entry that the slot's word gives the first page of its block, or None if there is a
    /// child.
    Opening(Option<Entry>),
}

/// Looks at a slot, once, in which a change is to be made.
pub(crate) fn look_for<A: Allocator>(
    table: &Table<A>,
    depth: u32,
    i: usize,
    change: Change,
    reads: &mut Reads,
) -> Found
    requires depth_in { IsDepth depth }
    requires index_in { i < 512 }
    requires shape { IsShaped depth table.now }
    requires change_in { IsChange depth change }
    ensures found { IsFound depth i table.now change result }
    ensures seen { IsSeen i table.now (slot_at table.now i) }
    ensures reads { count_of reads.new ≤ count_of reads.old + 1 }
{
    match table.slot(i, reads) {
        Slot::Word(word) => match word_after(depth, *word, change) {
            Some(after) => Found::Word(after),
            None => Found::Opening(Some(entry_of(depth, *word))),
        },
        Slot::Child(_) => Found::Opening(None),
    }
}

/// The difference between the words of neighbouring parts of a block that has the entry.
fn step_of(depth: u32, entry: Entry) -> u64
    requires depth_in { IsDepth (depth + 1) }
    requires entry_in { IsEncodable (level_at (depth + 1)) (word_of_entry entry) }
    ensures { GoesAhead depth entry result }
{
    match entry {
        Entry::Leaf { .. } => 4096 * pages_before(depth, 1),
        Entry::Unmapped | Entry::Malformed | Entry::Annotated(_) => 0,
    }
}

/// Writes into a table of zeros the words of an entry for the parts of its block.
// kept out of the walk, which usually finds tables
#[inline(never)]
fn fill<A: Allocator>(table: &mut Table<A>, depth: u32, entry: Entry)
    requires depth_in { IsDepth (depth + 1) }
    requires wide { IsWide table.old }
    requires blank { IsBlank table.old }
    requires tree { IsNew table.old }
    requires entry_in { IsEncodable (level_at (depth + 1)) (word_of_entry entry) }
    ensures frame { frame_of table.new ≡ frame_of table.old }
    ensures filled { IsFilled depth entry table.new }
{
    let first = word_of(depth, entry);
    let step = step_of(depth, entry);
    for i in 0..512usize {
        table.put(i, first + i as u64 * step);
    }
}

/// Takes the child of a slot out, or makes one with the same meaning as the slot's word; the slot is left 0. The child
/// has `depth` levels below it, the table one more. `first` is the result of a look there.
pub(crate) fn opened<A: Allocator>(
    table: &mut Table<A>,
    depth: u32,
    i: usize,
    first: Option<Entry>,
    spare: &mut Stock<A>,
) -> Box<Table<A>, A>
    requires depth_in { IsDepth (depth + 1) }
    requires index_in { i < 512 }
    requires shape { IsShaped (depth + 1) table.old }
    requires tight { IsTight (depth + 1) table.old }
    requires first { IsFirst (depth + 1) (slot_at table.old i) first }
    requires seen { IsSeen i table.old (slot_at table.old i) }
    requires enough { fresh (slot_at table.old i) ≤ length (frames_of spare.old) }
    ensures { IsOpened (depth + 1) depth i table.old table.new result.value (frames_of spare.old)
        (frames_of spare.new) }
{
    match first {
        Some(entry) => {
            table.put(i, 0);
            let mut child = spare.pop().unwrap();
            fill(&mut child, depth, entry);
            child
        }
        None => table.detach(i).unwrap(),
    }
}

/// Whether a slot holds a word that gives the first page of its block an entry.
fn gives<A: Allocator>(slot: &Slot<A>, depth: u32, entry: Entry) -> bool
    requires { IsDepth depth }
    ensures { Decides result (HasEntry depth entry slot.now) }
{
    match slot {
        Slot::Word(word) => entry_of(depth, *word) == entry,
        Slot::Child(_) => false,
    }
}

/// Whether the slots of a table after its first continue an entry.
fn goes_on<A: Allocator>(table: &Table<A>, depth: u32, first: Entry, reads: &mut Reads) -> bool
    requires depth_in { IsDepth depth }
    requires wide { IsWide table.now }
    requires small { HasSmallFrame first }
    ensures on { Decides result
        ((k : ℕ)
        → 1 ≤ k
        → k < 512
        → HasEntry depth (advance first (k * block_pages depth)) (slot_at table.now k)) }
    ensures reads { count_of reads.new ≤ count_of reads.old + 511 }
{
    for i in 1..512usize {
        let part = first.advance(pages_before(depth, i as u64));
        if !gives(table.slot(i, reads), depth, part) {
            return false;
        }
    }
    true
}

/// The word one level up that encodes the map of a table, if there is one. It reads the slots only as far as they
/// continue the first.
fn folded<A: Allocator>(table: &Table<A>, depth: u32, reads: &mut Reads) -> Option<u64>
    requires depth_in { IsDepth (depth + 1) }
    requires wide { IsWide table.now }
    ensures found { MatchOption result (IsOneWord depth table.now → ⊥) (λ w. IsEntryOfParts depth table.now w) }
    ensures reads { count_of reads.new ≤ count_of reads.old + 512 }
{
    page_state::laws::block_tests();
    let first = match table.slot(0, reads) {
        Slot::Word(word) => entry_of(depth, *word),
        Slot::Child(_) => return None,
    };
    if !first.fits_word(depth + 1) {
        return None;
    }
    if !goes_on(table, depth, first, reads) {
        return None;
    }
    Some(word_of(depth + 1, first))
}

/// Writes 0 over all words of a table.
fn wipe<A: Allocator>(table: &mut Table<A>)
    requires wide { IsWide table.old }
    requires words { (k : ℕ) → k < 512 → HoldsWord (slot_at table.old k) }
    ensures frame { frame_of table.new ≡ frame_of table.old }
    ensures wide { IsWide table.new }
    ensures blank { IsBlank table.new }
{
    for i in 0..512usize {
        table.put(i, 0);
    }
}

/// Puts a child that was changed back into its slot: itself, or the word that encodes its map, if there is one. In that
/// case the child goes to the stock. The child has `depth` levels below it, the table one more.
pub(crate) fn put_back<A: Allocator>(
    table: &mut Table<A>,
    depth: u32,
    i: usize,
    child: Box<Table<A>, A>,
    freed: &mut Stock<A>,
    reads: &mut Reads,
)
    requires depth_in { IsDepth (depth + 1) }
    requires index_in { i < 512 }
    requires wide { IsWide table.old }
    requires holds { HoldsWord (slot_at table.old i) }
    requires child_wide { IsWide child.value }
    ensures frame { frame_of table.new ≡ frame_of table.old }
    ensures slots_elsewhere { (j : ℕ) → j ≢ i → slot_at table.new j ≡ slot_at table.old j }
    ensures put { IsPutBack depth i table.old table.new child.value (frames_of freed.old)
        (frames_of freed.new) }
    ensures reads { count_of reads.new ≤ count_of reads.old + 512 }
{
    let mut child = child;
    match folded(&child, depth, reads) {
        Some(word) => {
            table.put(i, word);
            wipe(&mut child);
            freed.push(child);
        }
        None => table.attach(i, child),
    }
}

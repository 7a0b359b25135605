//! Changes of ranges.
ghost use Rattle.std.specs.Prelude.{◌≡◌, ℕ, ◌+◌, ◌≤◌, ◌^◌, length, IfOk};
ghost use Rattle.page_state.specs.Entries.{IsRangeEntry};
ghost use Rattle.page_state.specs.declared.layout.Geometry.TheVariants.{Bits39};
ghost use Rattle.page_state.specs.Counts.{frame_count};
ghost use Rattle.table_tree.specs.Stocks.{frames_of};
ghost use Rattle.table_tree.specs.View.{uses, tables_of};
ghost use Rattle.walk_plan.specs.Changes.{IsEncodableOn};
ghost use Rattle.walk_plan.specs.Hands.{edit_on};
ghost use Rattle.layer_tests.specs.InHand.{AreInHand};

use super::expect::{expect_entry, expect_number, expect_same, expect_word};
use super::sample::{leaf, pages};
use descriptor::{Frame, State};
use hyp_pool::{Pool, PoolFault, laws};
use linked_list_allocator::LocalHeap;
use page_state::{Entry, Geometry, Page, PageRange};
use std::alloc::{AllocError, Allocator, Global};
use std::process::Abort;
use table_tree::{Reads, Tree};
use walk_plan::need_of_new;
use walker::{Spare, need, release, reserve, set, set_with};

/// The frame of each root; the pool's frames are those after it.
const ROOT: Frame = Frame(0x40600);

/// Compares what a change answers.
fn expect_answer(rt: &impl Abort, found: Result<(), PoolFault>, wanted: Result<(), PoolFault>) {
    expect_same(rt, &found, &wanted);
}

/// The leaf of the first page's frame in a state, or nothing.
fn leaf_or_nothing(range: PageRange, state: Option<State>) -> Entry
    requires { range.first.0 + range.count ≤ 2 ^ 36 }
    ensures { IsRangeEntry range.count result }
{
    match state {
        Some(state) => leaf(range.first.0, state),
        None => Entry::Unmapped,
    }
}

/// A tree and its pool.
#[derive(Drop)]
struct Bench<A: Allocator> {
    global: Global,
    alloc: A,
    tree: Tree<A>,
    pool: Pool,
}

/// A tree of its root alone, and a pool of `free` frames.
fn empty_bench<A: Allocator + Copy>(
    global: Global,
    alloc: A,
    free: usize,
) -> Result<Bench<A>, AllocError>
    requires { free ≤ 16 }
    ensures bits { IfOk result (λ b. b.tree.geometry ≡ Bits39) }
    ensures distinct { IfOk result (λ b. (f : ℕ) → uses b.tree f + frame_count f b.pool.frames ≤ 1) }
    ensures covered { IfOk result (λ b. tables_of b.tree + length b.pool.frames ≤ b.pool.room + 1) }
{
    laws::counted_frames();
    let mut pool = Pool::of(global, ROOT, free + 1)?;
    let root = pool.take().unwrap();
    let tree = Tree::new(alloc, root, Geometry::Bits39)?;
    Ok(Bench {
        global,
        alloc,
        tree,
        pool,
    })
}

impl<A: Allocator + Copy> Bench<A> {
    /// Makes a change; compares the tables that it needs and its answer, and checks how many slots it looks at.
    fn expect_set(
        &mut self,
        rt: &impl Abort,
        range: PageRange,
        entry: Entry,
        needed: usize,
        wanted: Result<(), PoolFault>,
    )
        requires bits { self.old.tree.geometry ≡ Bits39 }
        requires distinct { (f : ℕ) → uses self.old.tree f + frame_count f self.old.pool.frames ≤ 1 }
        requires covered { tables_of self.old.tree + length self.old.pool.frames ≤ self.old.pool.room + 1 }
        requires some { 1 ≤ range.count }
        requires within { range.first.0 + range.count ≤ 2 ^ 27 }
        requires entry_in { IsRangeEntry range.count entry }
        ensures bits { self.new.tree.geometry ≡ Bits39 }
        ensures distinct { (f : ℕ) → uses self.new.tree f + frame_count f self.new.pool.frames ≤ 1 }
        ensures covered { tables_of self.new.tree + length self.new.pool.frames ≤ self.new.pool.room + 1 }
    {
        let mut reads = Reads::new();
        expect_number(rt, need(&self.tree, range, &entry, &mut reads), needed);
        let mut reads = Reads::new();
        let answer = set(
            self.alloc,
            &mut self.tree,
            &mut self.pool,
            range,
            entry,
            &mut reads,
        );
        assert!(rt; reads.count() <= 4 * range.count + 4096);
        expect_answer(rt, answer, wanted);
    }

    /// The word at a path.
    fn word(&self, path: &[u16]) -> Option<u64> {
        self.tree.word_at(path)
    }

    /// Compares the word at a path.
    fn expect_word(&self, rt: &impl Abort, path: &[u16], word: u64) {
        expect_word(rt, self.word(path), Some(word));
    }

    /// Compares words, each given after its path.
    fn expect_words(&self, rt: &impl Abort, words: Words) {
        for (path, word) in words {
            self.expect_word(rt, path, *word);
        }
    }

    /// Makes a change that is made; compares the tables that it needs, and words, tables and free frames after it.
    fn expect_row(&mut self, rt: &impl Abort, row: Row)
        requires bits { self.old.tree.geometry ≡ Bits39 }
        requires distinct { (f : ℕ) → uses self.old.tree f + frame_count f self.old.pool.frames ≤ 1 }
        requires covered { tables_of self.old.tree + length self.old.pool.frames ≤ self.old.pool.room + 1 }
        ensures bits { self.new.tree.geometry ≡ Bits39 }
        ensures distinct { (f : ℕ) → uses self.new.tree f + frame_count f self.new.pool.frames ≤ 1 }
        ensures covered { tables_of self.new.tree + length self.new.pool.frames ≤ self.new.pool.room + 1 }
    {
        let (first, count, state, needed, words, left) = row;
        assert!(rt; first < 0x10_0000 && count > 0 && count < 0x1000);
        let range = pages(first, count);
        self.expect_set(rt, range, leaf_or_nothing(range, state), needed, Ok(()));
        self.expect_words(rt, words);
        self.expect_frames(rt, left.0, left.1);
    }

    /// Makes changes, one after another.
    fn expect_rows(&mut self, rt: &impl Abort, rows: &[Row])
        requires bits { self.old.tree.geometry ≡ Bits39 }
        requires distinct { (f : ℕ) → uses self.old.tree f + frame_count f self.old.pool.frames ≤ 1 }
        requires covered { tables_of self.old.tree + length self.old.pool.frames ≤ self.old.pool.room + 1 }
    {
        for row in rows {
            self.expect_row(rt, *row);
        }
    }

    /// Compares the entry of a page.
    fn expect_entry(&self, rt: &impl Abort, page: u64, entry: Entry) {
        expect_entry(rt, self.tree.look(Page(page)), entry);
    }

    /// Compares the number of tables, and of free frames.
    fn expect_frames(&self, rt: &impl Abort, tables: usize, free: usize) {
        expect_number(rt, self.tree.tables(), tables);
        expect_number(rt, self.pool.free(), free);
    }

    /// Compares the number of tables, of free frames, and of spares.
    fn expect_left(&self, rt: &impl Abort, left: (usize, usize, usize)) {
        self.expect_frames(rt, left.0, left.1);
        expect_number(rt, self.tree.spares(), left.2);
    }
}

/// A change of pages to leaves of the frames of their own numbers, or to nothing: the first page, how many, and the state of the
/// leaves; how many tables it needs; and words, and (tables, free frames), after it.
type Row = (u64, u64, Option<State>, usize, Words, (usize, usize));

/// Words, each after its path.
type Words = &'static [(&'static [u16], u64)];

/// A block as one word.
const BLOCK: Words = &[(&[1], 0x40601003), (&[1, 1], 0x00000000402007fd)];

/// The block with a page of another state.
const SPLIT: Words = &[
    (&[1, 1], 0x40602003),
    (&[1, 1, 0x100], 0x00800000403007ff),
    (&[1, 1, 0x101], 0x00000000403017ff),
];

/// Nothing.
const NOTHING: Words = &[(&[1], 0)];

/// The changes of a tree, one after another: a block as one word, a page of it and back, which makes it one word again,
/// the block again, and nothing.
const ROWS: &[Row] = &[
    (0x40200, 512, Some(State::Owned), 1, BLOCK, (2, 7)),
    (0x40300, 1, Some(State::SharedOwned), 1, SPLIT, (3, 6)),
    (0x40300, 1, Some(State::Owned), 0, BLOCK, (2, 7)),
    (0x40200, 512, Some(State::Owned), 0, BLOCK, (2, 7)),
    (0x40200, 512, None, 0, NOTHING, (1, 8)),
];

/// Makes these changes.
fn rows<A: Allocator + Copy>(rt: &impl Abort, global: Global, alloc: A) {
    let mut bench = empty_bench(global, alloc, 8).expect(rt, "memory");
    bench.expect_rows(rt, ROWS);
    bench.expect_entry(rt, 0x40300, Entry::Unmapped);
}

#[test]
fn rows_at_global(rt: HostRuntime) {
    rows(&rt, rt.alloc(), rt.alloc());
}

#[test]
fn rows_at_local_heap(rt: HostRuntime) {
    let heap = LocalHeap::new(rt.alloc(), 1 << 20).expect(&rt, "memory");
    rows(&rt, rt.alloc(), &heap);
}

/// A change of an empty tree, with `free` free frames; compares its answer, the first entry, tables, free frames and spares.
fn with_frames<A: Allocator + Copy>(
    rt: &impl Abort,
    global: Global,
    alloc: A,
    range: PageRange,
    entry: Entry,
    needed: usize,
    free: usize,
    wanted: Result<(), PoolFault>,
    found: Entry,
    left: (usize, usize, usize),
)
    requires some { 1 ≤ range.count }
    requires within { range.first.0 + range.count ≤ 2 ^ 27 }
    requires entry_in { IsRangeEntry range.count entry }
    requires few { free ≤ 16 }
{
    let mut bench = empty_bench(global, alloc, free).expect(rt, "memory");
    bench.expect_set(rt, range, entry, needed, wanted);
    bench.expect_entry(rt, range.first.0, found);
    bench.expect_left(rt, left);
}

/// A change of an empty tree: refused if the pool has fewer frames than it needs, made if it has as many.
fn with_and_without<A: Allocator + Copy>(
    rt: &impl Abort,
    global: Global,
    alloc: A,
    range: PageRange,
    entry: Entry,
    needed: usize,
)
    requires some { 1 ≤ range.count }
    requires within { range.first.0 + range.count ≤ 2 ^ 27 }
    requires entry_in { IsRangeEntry range.count entry }
    requires few { needed ≤ 16 }
{
    expect_number(rt, need_of_new(Geometry::Bits39, range, &entry), needed);
    for free in 0..needed {
        let short = Err(PoolFault::NoPool);
        with_frames(
            rt,
            global,
            alloc,
            range,
            entry,
            needed,
            free,
            short,
            Entry::Unmapped,
            (1, free, 0),
        );
    }
    with_frames(
        rt,
        global,
        alloc,
        range,
        entry,
        needed,
        needed,
        Ok(()),
        entry,
        (needed + 1, 0, 0),
    );
}

/// What changes of empty trees need.
fn needs<A: Allocator + Copy>(rt: &impl Abort, global: Global, alloc: A) {
    let block = pages(0x40200, 512);
    with_and_without(rt, global, alloc, block, leaf(0x40200, State::Owned), 1);
    with_and_without(rt, global, alloc, block, leaf(0x50001, State::Owned), 2);
    with_and_without(rt, global, alloc, block, Entry::Unmapped, 0);
    with_and_without(
        rt,
        global,
        alloc,
        pages(0x401ff, 2),
        leaf(0x401ff, State::Owned),
        3,
    );
    with_and_without(rt, global, alloc, pages(0x401ff, 2), Entry::Unmapped, 0);
}

#[test]
fn needs_at_global(rt: HostRuntime) {
    needs(&rt, rt.alloc(), rt.alloc());
}

#[test]
fn needs_at_local_heap(rt: HostRuntime) {
    let heap = LocalHeap::new(rt.alloc(), 1 << 20).expect(&rt, "memory");
    needs(&rt, rt.alloc(), &heap);
}

/// Compares entries, words and frames once page 0x40100 alone is shared.
fn expect_shared(rt: &impl Abort, bench: &Bench<Global>, shared: Entry) {
    bench.expect_entry(rt, 0x40100, shared);
    bench.expect_entry(rt, 0x40101, Entry::Unmapped);
    bench.expect_entry(rt, 0x8040100, Entry::Unmapped);
    bench.expect_word(rt, &[1], 0x40601003);
    bench.expect_word(rt, &[1, 0], 0x40602003);
    bench.expect_word(rt, &[1, 0, 0x100], 0x00800000401007ff);
    expect_word(rt, bench.word(&[1, 0, 0x100, 0]), None);
    bench.expect_frames(rt, 3, 1);
    assert!(rt; bench.tree.root() == ROOT);
    assert!(rt; bench.tree.geometry() == Geometry::Bits39);
}

#[test]
fn share_words(rt: HostRuntime) {
    let mut bench = empty_bench(rt.alloc(), rt.alloc(), 3).expect(&rt, "memory");
    let shared = leaf(0x40100, State::SharedOwned);
    bench.expect_entry(&rt, 0x40100, Entry::Unmapped);
    bench.expect_set(&rt, pages(0x40100, 1), shared, 2, Ok(()));
    expect_shared(&rt, &bench, shared);
}

/// Compares frames with those of the root and the first two tables.
fn expect_three(rt: &impl Abort, frames: &[Frame]) {
    assert!(rt; frames == [ROOT, Frame(0x40601), Frame(0x40602)].as_slice());
}

#[test]
fn dismantled_frames(rt: HostRuntime) {
    let mut bench = empty_bench(rt.alloc(), rt.alloc(), 2).expect(&rt, "memory");
    let shared = leaf(0x40100, State::SharedOwned);
    bench.expect_set(&rt, pages(0x40100, 1), shared, 2, Ok(()));
    let Bench { tree, .. } = bench;
    match tree.dismantle(rt.alloc()) {
        Ok(frames) => expect_three(&rt, frames.as_slice()),
        Err(_) => assert!(rt; false),
    }
}

#[test]
fn small_heap(rt: HostRuntime) {
    let heap = LocalHeap::new(rt.alloc(), 30000).expect(&rt, "memory");
    let owned = leaf(0x40100, State::Owned);
    with_frames(
        &rt,
        rt.alloc(),
        &heap,
        pages(0x40100, 1),
        owned,
        2,
        2,
        Err(PoolFault::NoMemory),
        Entry::Unmapped,
        (1, 2, 1),
    );
}

/// The tables for a change, in hand.
fn in_hand<A: Allocator + Copy>(
    bench: &mut Bench<A>,
    range: PageRange,
    entry: Entry,
) -> Result<Spare<A>, PoolFault>
    requires bits { bench.old.tree.geometry ≡ Bits39 }
    requires distinct { (f : ℕ) → uses bench.old.tree f + frame_count f bench.old.pool.frames ≤ 1 }
    requires covered { tables_of bench.old.tree + length bench.old.pool.frames ≤ bench.old.pool.room + 1 }
    requires some { 1 ≤ range.count }
    requires within { range.first.0 + range.count ≤ 2 ^ 27 }
    requires entry_in { IsRangeEntry range.count entry }
    ensures bits { bench.new.tree.geometry ≡ Bits39 }
    ensures said { IsEncodableOn range.count entry }
    ensures hand { IfOk result
        (λ s. AreInHand (edit_on range entry) bench.new.tree bench.new.pool (frames_of s.stock)) }
{
    let mut reads = Reads::new();
    let spare = reserve(
        bench.alloc,
        &mut bench.tree,
        &mut bench.pool,
        range,
        &entry,
        &mut reads,
    )?;
    Ok(spare)
}

/// Makes a change with the tables in hand. The memory that was used before it.
fn made(rt: &impl Abort, heap: &LocalHeap, bench: &mut Bench<&LocalHeap>, shared: Entry) -> usize
    requires bits { bench.old.tree.geometry ≡ Bits39 }
    requires distinct { (f : ℕ) → uses bench.old.tree f + frame_count f bench.old.pool.frames ≤ 1 }
    requires covered { tables_of bench.old.tree + length bench.old.pool.frames ≤ bench.old.pool.room + 1 }
    requires entry { IsRangeEntry 1 shared }
{
    let range = pages(0x40100, 1);
    let spare = in_hand(bench, range, shared).expect(rt, "tables in hand");
    let used = heap.used();
    set_with(
        &mut bench.tree,
        &mut bench.pool,
        range,
        shared,
        spare,
        &mut Reads::new(),
    );
    used
}

/// Makes a change with the tables in hand, which takes no memory.
fn expect_made(rt: &impl Abort, heap: &LocalHeap, bench: &mut Bench<&LocalHeap>)
    requires bits { bench.old.tree.geometry ≡ Bits39 }
    requires distinct { (f : ℕ) → uses bench.old.tree f + frame_count f bench.old.pool.frames ≤ 1 }
    requires covered { tables_of bench.old.tree + length bench.old.pool.frames ≤ bench.old.pool.room + 1 }
{
    let shared = leaf(0x40100, State::SharedOwned);
    let used = made(rt, heap, bench, shared);
    expect_number(rt, heap.used(), used);
    bench.expect_entry(rt, 0x40100, shared);
    expect_number(rt, bench.tree.tables(), 3);
}

/// Takes the tables for a change in hand and gives them back. The memory that was used in between.
fn released(rt: &impl Abort, heap: &LocalHeap, bench: &mut Bench<&LocalHeap>) -> usize
    requires bits { bench.old.tree.geometry ≡ Bits39 }
    requires distinct { (f : ℕ) → uses bench.old.tree f + frame_count f bench.old.pool.frames ≤ 1 }
    requires covered { tables_of bench.old.tree + length bench.old.pool.frames ≤ bench.old.pool.room + 1 }
{
    let asked = in_hand(bench, pages(0x40100, 1), leaf(0x40100, State::Owned));
    let spare = asked.expect(rt, "tables in hand");
    let used = heap.used();
    expect_number(rt, bench.pool.free(), 0);
    release(spare, &mut bench.tree, &mut bench.pool);
    used
}

/// Gives the tables in hand back, which frees no memory.
fn expect_released(rt: &impl Abort, heap: &LocalHeap, bench: &mut Bench<&LocalHeap>)
    requires bits { bench.old.tree.geometry ≡ Bits39 }
    requires distinct { (f : ℕ) → uses bench.old.tree f + frame_count f bench.old.pool.frames ≤ 1 }
    requires covered { tables_of bench.old.tree + length bench.old.pool.frames ≤ bench.old.pool.room + 1 }
{
    let used = released(rt, heap, bench);
    expect_number(rt, heap.used(), used);
    bench.expect_left(rt, (1, 2, 2));
    assert!(rt; bench.pool.take() == Some(Frame(0x40601)));
}

/// Takes the tables for a change in hand, and gives them back or makes it with them.
fn expect_from_hand(rt: &impl Abort, global: Global, heap: &LocalHeap, gives_back: bool) {
    let mut bench = empty_bench(global, heap, 2).expect(rt, "memory");
    if gives_back {
        expect_released(rt, heap, &mut bench);
    } else {
        expect_made(rt, heap, &mut bench);
    }
}

#[test]
fn set_from_hand(rt: HostRuntime) {
    let heap = LocalHeap::new(rt.alloc(), 1 << 20).expect(&rt, "memory");
    expect_from_hand(&rt, rt.alloc(), &heap, false);
}

#[test]
fn released_from_hand(rt: HostRuntime) {
    let heap = LocalHeap::new(rt.alloc(), 1 << 20).expect(&rt, "memory");
    expect_from_hand(&rt, rt.alloc(), &heap, true);
}

/// Takes the rest of a heap, so that no request for memory is met.
fn rest_of<'a>(
    rt: &impl Abort,
    global: Global,
    heap: &'a LocalHeap,
) -> Vec<Vec<u8, &'a LocalHeap>> {
    let mut filling = Vec::new(global);
    for size in [4096usize, 64, 1] {
        for _block in 0..64usize {
            if let Ok(block) = Vec::<u8, _>::with_capacity(heap, size) {
                filling.push(block).expect(rt, "memory");
            }
        }
    }
    filling
}

/// Maps a page and unmaps it again, so that two tables are spares.
fn leave_spares(rt: &impl Abort, bench: &mut Bench<&LocalHeap>, page: PageRange, owned: Entry)
    requires bits { bench.old.tree.geometry ≡ Bits39 }
    requires distinct { (f : ℕ) → uses bench.old.tree f + frame_count f bench.old.pool.frames ≤ 1 }
    requires covered { tables_of bench.old.tree + length bench.old.pool.frames ≤ bench.old.pool.room + 1 }
    requires some { 1 ≤ page.count }
    requires within { page.first.0 + page.count ≤ 2 ^ 27 }
    requires entry_in { IsRangeEntry page.count owned }
    ensures bits { bench.new.tree.geometry ≡ Bits39 }
    ensures distinct { (f : ℕ) → uses bench.new.tree f + frame_count f bench.new.pool.frames ≤ 1 }
    ensures covered { tables_of bench.new.tree + length bench.new.pool.frames ≤ bench.new.pool.room + 1 }
{
    bench.expect_set(rt, page, owned, 2, Ok(()));
    bench.expect_left(rt, (3, 0, 0));
    bench.expect_set(rt, page, Entry::Unmapped, 0, Ok(()));
    bench.expect_left(rt, (1, 2, 2));
}

/// Maps the page from the spares, while the heap has no room, and then one that would need further frames.
fn take_spares(
    rt: &impl Abort,
    heap: &LocalHeap,
    bench: &mut Bench<&LocalHeap>,
    page: PageRange,
    owned: Entry,
)
    requires bits { bench.old.tree.geometry ≡ Bits39 }
    requires distinct { (f : ℕ) → uses bench.old.tree f + frame_count f bench.old.pool.frames ≤ 1 }
    requires covered { tables_of bench.old.tree + length bench.old.pool.frames ≤ bench.old.pool.room + 1 }
    requires some { 1 ≤ page.count }
    requires within { page.first.0 + page.count ≤ 2 ^ 27 }
    requires entry_in { IsRangeEntry page.count owned }
    requires one { IsRangeEntry 1 owned }
{
    let used = heap.used();
    bench.expect_set(rt, page, owned, 2, Ok(()));
    expect_number(rt, heap.used(), used);
    bench.expect_entry(rt, 0x40100, owned);
    bench.expect_left(rt, (3, 0, 0));
    let short = Err(PoolFault::NoPool);
    bench.expect_set(rt, pages(0x80000, 1), owned, 2, short);
}

#[test]
fn set_from_spares(rt: HostRuntime) {
    let heap = LocalHeap::new(rt.alloc(), 1 << 16).expect(&rt, "memory");
    let mut bench = empty_bench(rt.alloc(), &heap, 2).expect(&rt, "memory");
    let page = pages(0x40100, 1);
    let owned = leaf(0x40100, State::Owned);
    leave_spares(&rt, &mut bench, page, owned);
    let _filling = rest_of(&rt, rt.alloc(), &heap);
    take_spares(&rt, &heap, &mut bench, page, owned);
}

//! The short way of a walk along a table. Most words extend the run that the walk is at: they are 0, or lead to the pages
//! that follow. So slots are compared with the words that would extend it, eight at a time and with one answer, and only
//! eight that don't all extend it are given out, to be taken one by one.
ghost use Rattle.std.specs.Prelude.{◌≡◌, ◌+◌, ◌-◌, ◌*◌, ◌^◌, ◌<◌, ◌≤◌, min, IsTrue};
ghost use Rattle.table_tree.specs.Reading.{count_of};
ghost use Rattle.table_tree.specs.Shape.{IsWide, HoldsWord};
ghost use Rattle.ghost_oracle.specs.inner.Eights.{AreSlotsFrom, GoesToFound, HasLookedToFound, HoldNext, HoldWords, IsFoundIn, nth_of};

use crate::pending::Pending;
use std::alloc::Allocator;
use std::mem;
use table_tree::{Reads, Slot, Table};

/// Eight slots in a row: a tuple, which is taken apart without an index.
pub(crate) type Eight<'a, A> = (
    &'a Slot<A>,
    &'a Slot<A>,
    &'a Slot<A>,
    &'a Slot<A>,
    &'a Slot<A>,
    &'a Slot<A>,
    &'a Slot<A>,
    &'a Slot<A>,
);

/// Looks at eight slots, from slot `i` on.
#[inline(always)]
fn eight_at<'a, A: Allocator>(table: &'a Table<A>, i: usize, reads: &mut Reads) -> Eight<'a, A>
    requires within { i + 8 ≤ 512 }
    requires wide { IsWide table.now }
    ensures slots { AreSlotsFrom table.now i result }
    ensures reads { count_of reads.new ≡ min (count_of reads.old + 8) 18446744073709551615 }
{
    let mut looked = mem::replace(reads, Reads::new());
    let slots = (
        table.slot(i, &mut looked),
        table.slot(i + 1, &mut looked),
        table.slot(i + 2, &mut looked),
        table.slot(i + 3, &mut looked),
        table.slot(i + 4, &mut looked),
        table.slot(i + 5, &mut looked),
        table.slot(i + 6, &mut looked),
        table.slot(i + 7, &mut looked),
    );
    *reads = looked;
    slots
}

/// Whether a slot holds a word.
#[inline(always)]
fn is_word<A: Allocator>(slot: &Slot<A>) -> bool
    ensures { IsTrue result → HoldsWord slot.now }
{
    match slot {
        Slot::Word(_) => true,
        Slot::Child(_) => false,
    }
}

/// The word of a slot that holds one.
#[inline(always)]
fn word_of<A: Allocator>(slot: &Slot<A>) -> u64
    requires { HoldsWord slot.now }
    ensures { slot.now ≡ Slot.Word result }
{
    match slot {
        Slot::Word(word) => *word,
        Slot::Child(_) => unreachable!(),
    }
}

/// Whether eight slots hold words, with one branch for them all.
#[inline(always)]
fn are_words<A: Allocator>(slots: Eight<'_, A>) -> bool
    ensures { IsTrue result → HoldWords slots.entry }
{
    let (a, b, c, d, e, f, g, h) = slots;
    is_word(a)
        & is_word(b)
        & is_word(c)
        & is_word(d)
        & is_word(e)
        & is_word(f)
        & is_word(g)
        & is_word(h)
}

/// Whether eight words extend a run: they are `next`, `next + step`, and so on. One branch answers for them all.
#[inline(always)]
fn are_next<A: Allocator>(slots: Eight<'_, A>, next: u64, step: u64) -> bool
    requires words { HoldWords slots }
    requires room { next + 8 * step < 2 ^ 64 }
    ensures { IsTrue result → HoldNext next step slots.entry }
{
    let (a, b, c, d, e, f, g, h) = slots;
    let second = next + step;
    let third = second + step;
    let fourth = third + step;
    let fifth = fourth + step;
    let sixth = fifth + step;
    let seventh = sixth + step;
    let eighth = seventh + step;
    (word_of(a) == next)
        & (word_of(b) == second)
        & (word_of(c) == third)
        & (word_of(d) == fourth)
        & (word_of(e) == fifth)
        & (word_of(f) == sixth)
        & (word_of(g) == seventh)
        & (word_of(h) == eighth)
}

/// Slot `k` of eight.
#[inline(always)]
pub(crate) fn one_of<'a, A: Allocator>(slots: Eight<'a, A>, k: usize) -> &'a Slot<A>
    requires { k < 8 }
    ensures { result.now ≡ nth_of k slots.entry }
{
    let (a, b, c, d, e, f, g, h) = slots;
    match k {
        0 => a,
        1 => b,
        2 => c,
        3 => d,
        4 => e,
        5 => f,
        6 => g,
        _ => h,
    }
}

/// As `go_on`, for a next word and a step that the caller may know.
#[inline(always)]
fn go_on_by<'a, A: Allocator>(
    table: &'a Table<A>,
    from: usize,
    pending: &mut Pending,
    first: u64,
    step: u64,
    reads: &mut Reads,
) -> Option<(usize, Eight<'a, A>)>
    requires within { from ≤ 64 }
    requires first { first ≡ pending.old.next }
    requires step { step ≡ pending.old.step }
    requires wide { IsWide table.now }
    requires room { IsTrue pending.old.goes_on → pending.old.next + (512 - 8 * from) * step < 2 ^ 64 }
    ensures words { GoesToFound table.now from result pending.old pending.new }
    ensures reads { HasLookedToFound table.now from result (count_of reads.old) (count_of reads.new) }
    ensures slots { IsFoundIn table.now from result }
{
    let goes_on = pending.goes_on;
    let mut next = first;
    let mut looked = mem::replace(reads, Reads::new());
    for c in from..64usize {
        let slots = eight_at(table, 8 * c, &mut looked);
        if goes_on && are_words(slots) && are_next(slots, next, step) {
            next += 8 * step;
        } else {
            pending.next = next;
            *reads = looked;
            return Some((c, slots));
        }
    }
    pending.next = next;
    *reads = looked;
    None
}

/// Extends a run over the words of a table, eight at a time from slot `8 * from` on, while they continue it. Gives the
/// number and the slots of the first eight that don't, or None if all do. It reads each slot once.
#[inline(never)]
pub(crate) fn go_on<'a, A: Allocator>(
    table: &'a Table<A>,
    from: usize,
    pending: &mut Pending,
    reads: &mut Reads,
) -> Option<(usize, Eight<'a, A>)>
    requires within { from ≤ 64 }
    requires wide { IsWide table.now }
    requires room { IsTrue pending.old.goes_on → pending.old.next + (512 - 8 * from) * pending.old.step < 2 ^ 64 }
    ensures words { GoesToFound table.now from result pending.old pending.new }
    ensures reads { HasLookedToFound table.now from result (count_of reads.old) (count_of reads.new) }
    ensures slots { IsFoundIn table.now from result }
{
    let next = pending.next;
    let step = pending.step;
    // Most words are 0: with a known step of 0 there is no addition for each of them, with known zeros no comparison.
    if step != 0 {
        go_on_by(table, from, pending, next, step, reads)
    } else if next != 0 {
        go_on_by(table, from, pending, next, 0, reads)
    } else {
        go_on_by(table, from, pending, 0, 0, reads)
    }
}

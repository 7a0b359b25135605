//! One table, and the ways to look at it and to change it.
ghost use Rattle.std.specs.Prelude.{◌≡◌, ◌+◌, ◌<◌, min, IfOk, IfSome, MatchOption, is_some, if◌then◌else◌, slice_set};
ghost use Rattle.table_tree.specs.Meaning.{slot_at, slots_of, frame_of};
ghost use Rattle.table_tree.specs.Changes.{IsWritten, IsAttached, IsNew, IsCleared, IsSeen};
ghost use Rattle.table_tree.specs.Shape.{IsWide, IsBlank, HoldsWord};

use descriptor::Frame;
use std::alloc::{AllocError, Allocator};
use std::mem;

/// How many slots were looked at. The greatest u64 stays.
#[derive(Drop)]
pub struct Reads {
    count: u64,
}

impl Reads {
    ghost use Rattle.table_tree.specs.Reading.{count_of};

    pub fn new() -> Reads
        ensures { count_of result ≡ 0 }
    {
        Reads { count: 0 }
    }

    pub fn count(&self) -> u64
        ensures { result ≡ count_of self.now }
    {
        self.count
    }
}

/// A table of 512 slots in a frame of its own.
#[cycle(table)]
#[derive(Drop)]
pub struct Table<A: Allocator> {
    frame: Frame,
    // A list: the derived destructor of an array of an owned type leaves a goal on memory size.
    slots: Vec<Slot<A>, A>,
}

/// A word that isn't a table word, or the table that a table word leads to.
#[cycle(table)]
#[derive(Drop)]
pub enum Slot<A: Allocator> {
    Word(u64),
    Child(Box<Table<A>, A>),
}

impl<A: Allocator> Table<A> {
    ghost use Rattle.table_tree.specs.Reading.{count_of};

    /// A table whose words are all 0.
    pub fn new(alloc: A, frame: Frame) -> Result<Table<A>, AllocError>
        ensures frame { IfOk result (λ t. frame_of t ≡ frame.0) }
        ensures wide { IfOk result (λ t. IsWide t) }
        ensures blank { IfOk result (λ t. IsBlank t) }
        ensures tree { IfOk result (λ t. IsNew t) }
    {
        let mut slots = Vec::with_capacity(alloc, 512)?;
        for _ in 0..512usize {
            slots.push(Slot::Word(0))?;
        }
        Ok(Table { frame, slots })
    }

    /// The frame that the table is in.
    pub fn frame(&self) -> Frame
        ensures { result.0 ≡ frame_of self.now }
    {
        self.frame
    }

    /// Gives the table a frame to be in.
    pub(crate) fn stand_in(&mut self, place: Frame)
        ensures frame { frame_of self.new ≡ place.0 }
        ensures slots { slots_of self.new ≡ slots_of self.old }
    {
        let frame = &mut self.frame;
        *frame = place;
    }

    /// Looks at a slot, which counts as one read.
    #[tactic(auto, using(crate::proofs::Slots::read_slot))]
    pub fn slot(&self, i: usize, reads: &mut Reads) -> &Slot<A>
        requires within { i < 512 }
        requires wide { IsWide self.now }
        ensures value { result.now ≡ slot_at self.now i }
        ensures tree { IsSeen i self.now result.now }
        ensures reads { count_of reads.new ≡ min (count_of reads.old + 1) 18446744073709551615 }
    {
        reads.count = reads.count.saturating_add(1);
        self.read(i)
    }

    /// The same for the crate's own calls, which don't count.
    #[tactic(auto, using(crate::proofs::Slots::read_slot))]
    pub(crate) fn read(&self, i: usize) -> &Slot<A>
        requires within { i < 512 }
        requires wide { IsWide self.now }
        ensures { result.now ≡ slot_at self.now i }
    {
        &self.slots[i]
    }

    /// Writes a word over a word.
    pub fn put(&mut self, i: usize, word: u64)
        requires within { i < 512 }
        requires wide { IsWide self.old }
        requires holds { HoldsWord (slot_at self.old i) }
        ensures slots { slots_of self.new ≡ slice_set (slots_of self.old) i (Slot.Word word) }
        ensures frame { frame_of self.new ≡ frame_of self.old }
        ensures tree { IsWritten i word self.old self.new }
    {
        self.write(i, Slot::Word(word));
    }

    /// Puts a child in the place of a word.
    pub fn attach(&mut self, i: usize, child: Box<Table<A>, A>)
        requires within { i < 512 }
        requires wide { IsWide self.old }
        requires holds { HoldsWord (slot_at self.old i) }
        ensures slots { slots_of self.new ≡ slice_set (slots_of self.old) i (Slot.Child child) }
        ensures frame { frame_of self.new ≡ frame_of self.old }
        ensures tree { IsAttached i self.old self.new child.value }
    {
        self.write(i, Slot::Child(child));
    }

    /// Takes a child out and leaves the word 0; a word stays.
    pub fn detach(&mut self, i: usize) -> Option<Box<Table<A>, A>>
        requires within { i < 512 }
        requires wide { IsWide self.old }
        ensures found { MatchOption result (HoldsWord (slot_at self.old i)) (λ b. slot_at self.old i ≡ Slot.Child b) }
        ensures slots { slots_of self.new
            ≡ (if is_some result then slice_set (slots_of self.old) i (Slot.Word 0)
            else slots_of self.old) }
        ensures frame { frame_of self.new ≡ frame_of self.old }
        ensures tree { IfSome result (λ b. IsAttached i self.new self.old b.value) }
        ensures rest { IsCleared self.old self.new }
    {
        match self.take(i) {
            Slot::Child(child) => Some(child),
            Slot::Word(word) => {
                self.put(i, word);
                None
            }
        }
    }

    /// Overwrites a slot.
    pub(crate) fn write(&mut self, i: usize, slot: Slot<A>)
        requires within { i < 512 }
        requires wide { IsWide self.old }
        ensures slots { slots_of self.new ≡ slice_set (slots_of self.old) i slot }
        ensures frame { frame_of self.new ≡ frame_of self.old }
    {
        self.slots[i] = slot;
    }

    /// Takes the content of a slot, and leaves the word 0.
    #[tactic(auto, using(crate::proofs::Slots::read_slot))]
    pub(crate) fn take(&mut self, i: usize) -> Slot<A>
        requires within { i < 512 }
        requires wide { IsWide self.old }
        ensures value { result ≡ slot_at self.old i }
        ensures slots { slots_of self.new ≡ slice_set (slots_of self.old) i (Slot.Word 0) }
        ensures frame { frame_of self.new ≡ frame_of self.old }
    {
        mem::replace(&mut self.slots[i], Slot::Word(0))
    }
}

//! A poke of one word, by recursion on the levels below a table.
ghost use Rattle.std.specs.Prelude.{◌≡◌, ◌<◌, IsSome, slice_set};
ghost use Rattle.table_tree.specs.Meaning.{IsDepth, word_at, slot_at, slots_of, slot_word, frame_of};
ghost use Rattle.table_tree.specs.Raw.{IsRaw};
ghost use Rattle.table_tree.specs.Shape.{IsWide};
ghost use Rattle.table_tree.specs.inner.Pokes.{IsPokedTable};

use crate::look::word_in_slot;
use crate::{Slot, Table};
use std::alloc::Allocator;

/// Sets the word of a slot, which keeps a child whose table word it is.
fn poke_slot<A: Allocator>(table: &mut Table<A>, i: usize, word: u64)
    requires within { i < 512 }
    requires wide { IsWide table.old }
    ensures same { slot_word (slot_at table.old i) ≡ word → slots_of table.new ≡ slots_of table.old }
    ensures other { (slot_word (slot_at table.old i) ≡ word → ⊥)
        → slots_of table.new ≡ slice_set (slots_of table.old) i (Slot.Word word) }
    ensures frame { frame_of table.new ≡ frame_of table.old }
{
    if word_in_slot(table.read(i)) == word {
        return;
    }
    table.write(i, Slot::Word(word));
}

/// Sets the word at a path that has one. The word that is there keeps the slot's child; any other takes the child out.
pub(crate) fn poke_in<A: Allocator>(table: &mut Table<A>, depth: u32, path: &[u16], word: u64)
    requires depth_in { IsDepth depth }
    requires raw { IsRaw depth table.old }
    requires there { IsSome (word_at table.old path.now) }
    ensures { IsPokedTable depth table.old table.new path.now word }
{
    let i = path[0] as usize;
    if path.len() == 1 {
        poke_slot(table, i, word);
        return;
    }
    if let Some(child) = table.detach(i) {
        let mut child = child;
        poke_in(&mut child, depth - 1, &path[1..], word);
        table.attach(i, child);
    }
}

//! Tables of zeros in a chain: taking a table out or putting one in takes no memory.
ghost use Rattle.std.specs.Prelude.{◌≡◌, ℕ, List, [], ◌∷◌, length, min, IfSome, MatchOption};
ghost use Rattle.table_tree.specs.Meaning.{frame_of};
ghost use Rattle.table_tree.specs.Shape.{IsWide, IsBlank};
ghost use Rattle.table_tree.specs.Changes.{IsNew};
ghost use Rattle.table_tree.specs.Chain.{IsChain, Chained-prop};

use crate::{Slot, Table};
use std::alloc::Allocator;
use std::mem;

/// Tables of zeros, each but the first in slot 0 of the one before it.
#[derive(Drop)]
pub struct Chain<A: Allocator> {
    first: Slot<A>,
    pub ghost chained: { (fs : List ℕ) × IsChain fs first } by { Chained-prop first },
}

impl<A: Allocator> Chain<A> {
    ghost use Rattle.table_tree.specs.Links.{links_of};

    pub(crate) fn new() -> Chain<A>
        ensures { links_of result ≡ [] }
    {
        Chain {
            first: Slot::Word(0),
        }
    }

    /// Puts a table of zeros in front.
    pub(crate) fn push(&mut self, table: Box<Table<A>, A>)
        requires wide { IsWide table.value }
        requires blank { IsBlank table.value }
        ensures frames { links_of self.new ≡ frame_of table.value ∷ links_of self.old }
        ensures tree { IsNew table.value }
    {
        let mut table = table;
        table.write(0, mem::replace(&mut self.first, Slot::Word(0)));
        self.first = Slot::Child(table);
    }

    /// Takes the first table.
    pub(crate) fn pop(&mut self) -> Option<Box<Table<A>, A>>
        ensures frames { MatchOption result (links_of self.old ≡ [])
            (λ b. links_of self.old ≡ frame_of b.value ∷ links_of self.new) }
        ensures none { MatchOption result (links_of self.new ≡ []) (λ b. Unit {0}) }
        ensures wide { IfSome result (λ b. IsWide b.value) }
        ensures blank { IfSome result (λ b. IsBlank b.value) }
        ensures tree { IfSome result (λ b. IsNew b.value) }
    {
        match mem::replace(&mut self.first, Slot::Word(0)) {
            Slot::Child(table) => {
                let mut table = table;
                self.first = table.take(0);
                Some(table)
            }
            Slot::Word(_) => None,
        }
    }

    /// The number of tables, or `most` if there are more.
    pub(crate) fn count_to(&self, most: usize) -> usize
        ensures { result ≡ min (length (links_of self.now)) most }
    {
        let mut slot = &self.first;
        let mut count = 0;
        while count < most {
            match slot {
                Slot::Child(table) => {
                    slot = table.read(0);
                    count += 1;
                }
                Slot::Word(_) => return count,
            }
        }
        count
    }
}

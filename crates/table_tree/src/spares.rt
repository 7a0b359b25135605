//! Tables that a tree keeps for later changes.
ghost use Rattle.std.specs.Prelude.{◌≡◌, ◌+◌, ◌≤◌, length, max, min, All, IfSome, IsOk, MatchOption, OnOk};
ghost use Rattle.table_tree.specs.Meaning.{frame_of};
ghost use Rattle.table_tree.specs.Shape.{IsWide, IsBlank};
ghost use Rattle.table_tree.specs.Links.{links_of};

use crate::Table;
use crate::chain::Chain;
use descriptor::Frame;
use std::alloc::{AllocError, Allocator};

/// The value of a spare in place of a frame.
const NO_FRAME: Frame = Frame(0);

/// Tables of zeros without a frame. Keeping one takes no memory.
pub struct Spares<A: Allocator> {
    chain: Chain<A>,
    pub ghost frameless: { All (λ f. f ≡ 0) (links_of chain) },
}

// table by table, since a long chain goes deep
impl<A: Allocator> Drop for Spares<A> {
    fn drop(self) {
        let Spares { chain } = self;
        let mut chain = chain;
        while let Some(_table) = chain.pop() {}
    }
}

impl<A: Allocator> Spares<A> {
    ghost use Rattle.table_tree.specs.Stocks.{kept_in};

    #[tactic(auto, unfolding(crate::specs::Stocks::kept_in))]
    pub(crate) fn new() -> Spares<A>
        ensures { kept_in result ≡ 0 }
    {
        Spares {
            chain: Chain::new(),
        }
    }

    /// The number of spares, or `most` if there are more.
    #[tactic(auto, unfolding(crate::specs::Stocks::kept_in))]
    pub(crate) fn count_to(&self, most: usize) -> usize
        ensures { result ≡ min (kept_in self.now) most }
    {
        self.chain.count_to(most)
    }

    /// Takes one, which gets a frame.
    #[tactic(auto, unfolding(crate::specs::Stocks::kept_in))]
    pub(crate) fn take(&mut self, frame: Frame) -> Option<Box<Table<A>, A>>
        ensures left { MatchOption result (kept_in self.old ≡ 0) (λ b. kept_in self.old ≡ kept_in self.new + 1) }
        ensures frame { IfSome result (λ b. frame_of b.value ≡ frame.0) }
        ensures wide { IfSome result (λ b. IsWide b.value) }
        ensures blank { IfSome result (λ b. IsBlank b.value) }
    {
        let mut table = self.chain.pop()?;
        table.stand_in(frame);
        Some(table)
    }

    /// Keeps a table of zeros, without its frame.
    #[tactic(auto, unfolding(crate::specs::Stocks::kept_in))]
    pub(crate) fn keep(&mut self, table: Box<Table<A>, A>)
        requires wide { IsWide table.value }
        requires blank { IsBlank table.value }
        ensures { kept_in self.new ≡ kept_in self.old + 1 }
    {
        let mut table = table;
        table.stand_in(NO_FRAME);
        self.chain.push(table);
    }
}

impl<A: Allocator + Copy> Spares<A> {
    ghost use Rattle.table_tree.specs.Stocks.{kept_in};

    /// Makes them at least `n`. If the allocator refuses memory, the new ones stay.
    #[tactic(auto, unfolding(crate::specs::Stocks::kept_in))]
    pub(crate) fn grow(&mut self, alloc: A, n: usize) -> Result<(), AllocError>
        ensures ok { OnOk result (kept_in self.new ≡ max n (kept_in self.old)) }
        ensures succeeds { n ≤ kept_in self.old → IsOk result }
        ensures grows { kept_in self.old ≤ kept_in self.new }
    {
        for _made in self.count_to(n)..n {
            let table = Table::new(alloc, NO_FRAME)?;
            self.keep(Box::new(alloc, table)?);
        }
        Ok(())
    }
}

//! Tables in hand, for edits that can't fail.
ghost use Rattle.std.specs.Prelude.{◌≡◌, ℕ, List, [], ◌∷◌, reverse, IfSome, MatchOption};
ghost use Rattle.table_tree.specs.Meaning.{frame_of};
ghost use Rattle.table_tree.specs.Shape.{IsWide, IsBlank};
ghost use Rattle.table_tree.specs.Changes.{IsNew};

use crate::Table;
use crate::chain::Chain;
use std::alloc::Allocator;

/// Tables of zeros, each in a frame of its own. A stock isn't dropped, so that no frame is lost: it is spent to its last
/// table, and closed.
pub struct Stock<A: Allocator> {
    chain: Chain<A>,
}

impl<A: Allocator> Stock<A> {
    ghost use Rattle.table_tree.specs.Stocks.{frames_of};

    #[tactic(auto, unfolding(crate::specs::Stocks::frames_of))]
    pub fn new() -> Stock<A>
        ensures { frames_of result ≡ [] }
    {
        Stock {
            chain: Chain::new(),
        }
    }

    /// Puts a table of zeros in front.
    #[tactic(auto, unfolding(crate::specs::Stocks::frames_of))]
    pub fn push(&mut self, table: Box<Table<A>, A>)
        requires wide { IsWide table.value }
        requires blank { IsBlank table.value }
        ensures frames { frames_of self.new ≡ frame_of table.value ∷ frames_of self.old }
        ensures tree { IsNew table.value }
    {
        self.chain.push(table);
    }

    /// Takes the first table.
    #[tactic(auto, unfolding(crate::specs::Stocks::frames_of))]
    pub fn pop(&mut self) -> Option<Box<Table<A>, A>>
        ensures frames { MatchOption result (frames_of self.old ≡ [])
            (λ b. frames_of self.old ≡ frame_of b.value ∷ frames_of self.new) }
        ensures none { MatchOption result (frames_of self.new ≡ []) (λ b. Unit {0}) }
        ensures wide { IfSome result (λ b. IsWide b.value) }
        ensures blank { IfSome result (λ b. IsBlank b.value) }
        ensures tree { IfSome result (λ b. IsNew b.value) }
    {
        self.chain.pop()
    }

    /// The same tables, the last first.
    pub fn turned(self) -> Stock<A>
        ensures { frames_of result ≡ reverse (frames_of self) }
    {
        let mut rest = self;
        let mut turned = Stock::new();
        while let Some(table) = rest.pop() {
            turned.push(table);
        }
        rest.close();
        turned
    }

    /// The end of a stock. Requires that no table is left.
    pub fn close(self)
        requires { frames_of self ≡ [] }
    {
        let Stock { chain: _chain } = self;
    }
}

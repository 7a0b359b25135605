//! A tree: its root table, and how many levels are below it.
ghost use Rattle.std.specs.Prelude.{◌≡◌, ℕ, ◌+◌, ◌-◌, ◌<◌, ◌≤◌, ◌↔◌, length, map, slice_get, Some, IsSome, IsOk, IfSome, IfOk, IfErr, MatchOption, OnOk, max, min};
ghost use Rattle.page_state.specs.Trees.{root_tree};
ghost use Rattle.page_state.specs.Geometries.{levels_below};
ghost use Rattle.page_state.specs.Counts.{is_one};
ghost use Rattle.table_tree.specs.Meaning.{frame_of};
ghost use Rattle.table_tree.specs.Shape.{IsShaped, IsShaped-prop, IsBlank, IsWide};
ghost use Rattle.table_tree.specs.Tight.{IsTight, IsTight-prop};
ghost use Rattle.table_tree.specs.Tables.{frame_times, AreDistinct, AreDistinct-prop};

use crate::look::{count_in, frames_in, is_empty_in, look_in, word_in};
use crate::path::path_to;
use crate::{Spares, Table};
use descriptor::Frame;
use page_state::{Entry, Geometry, Page};
use std::alloc::{AllocError, Allocator, Global};

/// A tree of tables. Its root table has the geometry's levels below it, no word can encode the map of a table below the
/// root, and no two tables have one frame. It also keeps spares, tables without a frame, for later changes.
// Why its facts are ghost fields, and why it has no model: docs/DECISIONS.md, 3.
#[derive(Drop)]
pub struct Tree<A: Allocator> {
    pub geometry: Geometry,
    pub table: Table<A>,
    pub spares: Spares<A>,
    pub ghost shaped: { IsShaped (levels_below geometry) table } by { IsShaped-prop (levels_below geometry) table },
    pub ghost tight: { IsTight (levels_below geometry) table } by { IsTight-prop (levels_below geometry) table },
    pub ghost distinct: { AreDistinct (levels_below geometry) table } by { AreDistinct-prop (levels_below geometry) table },
}

impl<A: Allocator> Tree<A> {
    ghost use Rattle.table_tree.specs.View.{
      meaning,
      word_of as word_at_path,
      uses,
      tables_of,
      root_of,
      spares_of,
      tree_of,
    };
    ghost use Rattle.page_state.specs.Blocks.{block_at, is_empty as is_empty_block};
    ghost use Rattle.table_tree.specs.OnPage.{word_on as word_on_page};
    ghost use Rattle.table_tree.specs.AllBlocks.{table_count, table_frames};
    ghost use Rattle.table_tree.specs.Said.{block_of, HasWord, IsWordOf, IsRunOrTable};

    /// A tree of one table, with nothing mapped.
    pub fn new(alloc: A, root: Frame, geometry: Geometry) -> Result<Tree<A>, AllocError>
        ensures tree { IfOk result (λ t. tree_of t ≡ root_tree (levels_below geometry) root.0) }
        ensures root { IfOk result (λ t. root_of t ≡ root.0) }
        ensures geometry { IfOk result (λ t. t.geometry ≡ geometry) }
        ensures uses { IfOk result (λ t. (f : ℕ) → uses t f ≡ is_one root.0 f) }
        ensures tables { IfOk result (λ t. tables_of t ≡ 1) }
        ensures spares { IfOk result (λ t. spares_of t ≡ 0) }
    {
        let table = Table::new(alloc, root)?;
        Ok(Tree {
            geometry,
            table,
            spares: Spares::new(),
        })
    }

    /// The frame of the root's table, which is at the block of all input pages.
    pub fn root(&self) -> Frame
        ensures value { result.0 ≡ root_of self.now }
        ensures standing { (tree_of self.now).table (levels_below self.now.geometry + 1, 0) ≡ Some result.0 }
    {
        self.table.frame()
    }

    pub fn geometry(&self) -> Geometry
        ensures { result ≡ self.now.geometry }
    {
        self.geometry
    }

    /// The entry of a page; past the input pages nothing is mapped.
    pub fn look(&self, page: Page) -> Entry
        ensures { result ≡ meaning self.now page.0 }
    {
        let depth = self.geometry.depth();
        if page.0 >> (9 * (depth + 1)) != 0 {
            return Entry::Unmapped;
        }
        look_in(&self.table, depth, page.0)
    }

    /// The word at a path of indices, the root's first; None if there is no table on the path, or an index is over 511.
    pub fn word_at(&self, path: &[u16]) -> Option<u64>
        ensures value { result ≡ word_at_path self.now path.now }
        ensures found { IsSome result ↔ HasWord self.now.geometry (tree_of self.now) path.now }
        ensures said { IfSome result (λ w. IsWordOf (tree_of self.now) (block_of self.now.geometry path.now) w) }
        ensures run { IfSome result (λ _. IsRunOrTable (tree_of self.now) (block_of self.now.geometry path.now)) }
    {
        word_in(&self.table, self.geometry.depth(), path)
    }

    /// The word on a page's path at a level. None if the page isn't an input page, the level isn't one of the tree's,
    /// or no table is there. It is the word of the level's block that holds the page.
    #[tactic(auto, unfolding(crate::specs::OnPage::word_on))]
    pub fn word_on(&self, page: Page, level: u64) -> Option<u64>
        ensures value { result ≡ word_on_page self.now page.0 level }
        ensures said { IfSome result (λ w. IsWordOf (tree_of self.now) (block_at (3 - level) page.0) w) }
        ensures run { IfSome result (λ _. IsRunOrTable (tree_of self.now) (block_at (3 - level) page.0)) }
    {
        let top = 3 - self.geometry.depth();
        if page.0 >= self.geometry.pages() || level < u64::from(top) || level > 3 {
            return None;
        }
        let path = path_to(page.0, top, level as u32);
        self.word_at(path.as_slice())
    }

    /// The number of tables: that of the blocks that have one.
    pub fn tables(&self) -> usize
        ensures value { result ≡ tables_of self.now }
        ensures count { result ≡ table_count self.now.geometry (tree_of self.now) }
    {
        count_in(&self.table, self.geometry.depth())
    }

    /// How many spares the tree keeps. The greatest usize stays.
    #[tactic(auto, unfolding(crate::specs::View::spares_of))]
    pub fn spares(&self) -> usize
        ensures { result ≡ min (spares_of self.now) 18446744073709551615 }
    {
        self.spares.count_to(usize::MAX)
    }

    /// Takes a spare, which gets a frame.
    #[tactic(auto, unfolding(crate::specs::View::spares_of))]
    pub fn take_spare(&mut self, frame: Frame) -> Option<Box<Table<A>, A>>
        ensures left { MatchOption result (spares_of self.old ≡ 0)
            (λ b. spares_of self.old ≡ spares_of self.new + 1) }
        ensures frame { IfSome result (λ b. frame_of b.value ≡ frame.0) }
        ensures wide { IfSome result (λ b. IsWide b.value) }
        ensures blank { IfSome result (λ b. IsBlank b.value) }
        ensures geometry { self.new.geometry ≡ self.old.geometry }
        ensures table { self.new.table ≡ self.old.table }
    {
        let spares = &mut self.spares;
        spares.take(frame)
    }

    /// Keeps a table of zeros as a spare, without its frame. It takes no memory.
    #[tactic(auto, unfolding(crate::specs::View::spares_of))]
    pub fn keep_spare(&mut self, table: Box<Table<A>, A>)
        requires wide { IsWide table.value }
        requires blank { IsBlank table.value }
        ensures spares { spares_of self.new ≡ spares_of self.old + 1 }
        ensures geometry { self.new.geometry ≡ self.old.geometry }
        ensures table { self.new.table ≡ self.old.table }
    {
        let spares = &mut self.spares;
        spares.keep(table);
    }

    /// The frames of all tables of a tree that goes: those at its blocks, in order, the root's first.
    pub fn dismantle(self, alloc: Global) -> Result<Vec<Frame>, (Tree<A>, AllocError)>
        ensures frames { IfOk result (λ v. map (λ f. f.0) v.items ≡ table_frames self.geometry (tree_of self)) }
        ensures root { IfOk result (λ v. slice_get (map (λ f. f.0) v.items) 0 ≡ Some (root_of self)) }
        ensures uses { IfOk result (λ v. (f : ℕ) → frame_times f v.items ≡ uses self f) }
        ensures distinct { IfOk result (λ v. (f : ℕ) → frame_times f v.items ≤ 1) }
        ensures len { IfOk result (λ v. length v.items ≡ tables_of self) }
        ensures refused { IfErr result (λ e. e.0 ≡ self) }
    {
        let mut frames = Vec::new(alloc);
        match frames_in(&self.table, self.geometry.depth(), &mut frames) {
            Ok(()) => Ok(frames),
            Err(error) => Err((self, error)),
        }
    }

    /// Whether nothing is mapped on the block that holds a page and has `depth` levels below it, at most the root's words'.
    /// It looks at one slot of each table on the page's path, down to the block's.
    pub fn is_empty(&self, depth: u32, page: Page) -> bool
        requires { depth ≤ levels_below self.now.geometry }
        ensures { result ≡ is_empty_block (meaning self.now) (block_at depth page.0) }
    {
        let top = self.geometry.depth();
        if page.0 >> (9 * (top + 1)) != 0 {
            return true;
        }
        is_empty_in(&self.table, top, depth, page.0)
    }
}

impl<A: Allocator + Copy> Tree<A> {
    ghost use Rattle.table_tree.specs.View.{spares_of};

    /// Makes the spares at least `n`. If the allocator refuses memory, the new ones stay. All else of the tree stays.
    #[tactic(auto, unfolding(crate::specs::View::spares_of))]
    pub fn grow_spares(&mut self, alloc: A, n: usize) -> Result<(), AllocError>
        ensures ok { OnOk result (spares_of self.new ≡ max n (spares_of self.old)) }
        ensures succeeds { n ≤ spares_of self.old → IsOk result }
        ensures grows { spares_of self.old ≤ spares_of self.new }
        ensures geometry { self.new.geometry ≡ self.old.geometry }
        ensures table { self.new.table ≡ self.old.table }
    {
        let spares = &mut self.spares;
        spares.grow(alloc, n)
    }
}

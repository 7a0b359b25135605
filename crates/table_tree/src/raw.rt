//! Raw trees, whose words may be any, and pokes, which set one word.
ghost use Rattle.std.specs.Prelude.{◌≡◌, ℕ, ◌↔◌, IsSome, IsOk, IfOk, IfErr};
ghost use Rattle.page_state.specs.Geometries.{levels_below};
ghost use Rattle.table_tree.specs.Raw.{IsRaw, IsRaw-prop, IsPoked, IsPokedMap};
ghost use Rattle.table_tree.specs.Said.{block_of};

use crate::Table;
use crate::look::{look_in, word_in};
use crate::poke::poke_in;
use crate::tree::Tree;
use page_state::{Entry, Geometry, Page};
use std::alloc::Allocator;
use thiserror::Error;

/// A tree that may hold any words: a table word is followed only if its slot holds a child of that frame; else it is
/// malformed.
#[derive(Drop)]
pub struct RawTree<A: Allocator> {
    pub geometry: Geometry,
    pub table: Table<A>,
    pub ghost raw: { IsRaw (levels_below geometry) table } by { IsRaw-prop (levels_below geometry) table },
}

/// Why a word isn't poked: no table of the tree has a word at the path.
#[derive(Clone, Copy, PartialEq, Debug, Error)]
#[error("no table has a word at the path")]
pub struct PathFault;

impl<A: Allocator> RawTree<A> {
    ghost use Rattle.table_tree.specs.RawView.{raw_meaning, raw_word_of};

    pub fn geometry(&self) -> Geometry
        ensures { result ≡ self.now.geometry }
    {
        self.geometry
    }

    /// The entry of a page; past the input pages nothing is mapped.
    pub fn look(&self, page: Page) -> Entry
        ensures { result ≡ raw_meaning self.now page.0 }
    {
        let depth = self.geometry.depth();
        if page.0 >> (9 * (depth + 1)) != 0 {
            return Entry::Unmapped;
        }
        look_in(&self.table, depth, page.0)
    }

    /// The word at a path of indices, the root's first; None if there is no table on the path, or an index is over 511.
    pub fn word_at(&self, path: &[u16]) -> Option<u64>
        ensures { result ≡ raw_word_of self.now path.now }
    {
        word_in(&self.table, self.geometry.depth(), path)
    }

    /// Sets the word at a path. If that word is there already, all stays, a child too; any other word removes the
    /// child.
    pub fn poke(self, path: &[u16], word: u64) -> Result<RawTree<A>, (RawTree<A>, PathFault)>
        ensures fault { IsOk result ↔ IsSome (raw_word_of self path.now) }
        ensures kept { IfErr result (λ e. e.0 ≡ self) }
        ensures poked { IfOk result (λ t. IsPoked (raw_word_of self) (raw_word_of t) path.now word) }
        ensures map { IfOk result
            (λ t. IsPokedMap (block_of self.geometry path.now) (raw_word_of self)
            (raw_meaning self) (raw_meaning t) path.now word) }
        ensures geometry { IfOk result (λ t. t.geometry ≡ self.geometry) }
    {
        if self.word_at(path).is_none() {
            return Err((self, PathFault));
        }
        let mut tree = self;
        tree.set(path, word);
        Ok(tree)
    }

    /// The same in place, at a path that has a word.
    pub fn set(&mut self, path: &[u16], word: u64)
        requires there { IsSome (raw_word_of self.old path.now) }
        ensures poked { IsPoked (raw_word_of self.old) (raw_word_of self.new) path.now word }
        ensures map { IsPokedMap (block_of self.old.geometry path.now) (raw_word_of self.old)
            (raw_meaning self.old) (raw_meaning self.new) path.now word }
        ensures geometry { self.new.geometry ≡ self.old.geometry }
    {
        let depth = self.geometry.depth();
        let table = &mut self.table;
        poke_in(table, depth, path, word);
    }
}

impl<A: Allocator> Tree<A> {
    ghost use Rattle.table_tree.specs.View.{meaning, word_of as word_at_path, table_at, tree_of};
    ghost use Rattle.table_tree.specs.RawView.{raw_meaning, raw_word_of, raw_table_at};
    ghost use Rattle.table_tree.specs.Said.{HasWord};

    /// The tree as a raw one, without its spares.
    pub fn into_raw(self) -> RawTree<A>
        ensures map { raw_meaning result ≡ meaning self }
        ensures words { raw_word_of result ≡ word_at_path self }
        ensures standing { (depth number : ℕ) → raw_table_at result depth number ≡ table_at self depth number }
        ensures geometry { result.geometry ≡ self.geometry }
    {
        let Tree {
            geometry,
            table,
            spares: _spares,
        } = self;
        RawTree { geometry, table }
    }

    /// Sets the word at a path. If that word is there already, all stays, a child too; any other word removes the
    /// child.
    pub fn poke(self, path: &[u16], word: u64) -> Result<RawTree<A>, (Tree<A>, PathFault)>
        ensures fault { IsOk result ↔ HasWord self.geometry (tree_of self) path.now }
        ensures none { IsOk result ↔ IsSome (word_at_path self path.now) }
        ensures kept { IfErr result (λ e. e.0 ≡ self) }
        ensures poked { IfOk result (λ t. IsPoked (word_at_path self) (raw_word_of t) path.now word) }
        ensures map { IfOk result
            (λ t. IsPokedMap (block_of self.geometry path.now) (word_at_path self)
            (meaning self) (raw_meaning t) path.now word) }
        ensures geometry { IfOk result (λ t. t.geometry ≡ self.geometry) }
    {
        match self.word_at(path) {
            Some(_) => {
                let mut raw = self.into_raw();
                raw.set(path, word);
                Ok(raw)
            }
            None => Err((self, PathFault)),
        }
    }
}

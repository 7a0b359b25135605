//! All trees, from pages and roots that anyone handed in.
ghost use Rattle.std.specs.Prelude.{◌≡◌, ◌<◌, ◌++◌, ◌∷◌, [], All, AllPairs, IfErr, IfOk, OnOk, get_or, length, map};
ghost use Rattle.page_state.specs.Trees.{no_tree};
ghost use Rattle.ghost_judge.specs.Audits.{AreMapsKept};
ghost use Rattle.ghost_spec.specs.States.{contents_in};
ghost use Rattle.ghost_trees.specs.KeptTrees.{IsKeptTree};
ghost use Rattle.ghost_trees.specs.Trees.{tree_in_lists};
ghost use Rattle.walked_tables.specs.Reached.{AreOtherFrames, IsStopped};
ghost use Rattle.c_trees.specs.Entries.{kept_map};
ghost use Rattle.c_trees.specs.Given.{AreGiven, AreTrees, IsTreeFault, root_in as root_in_list, tables_of, tree_of};

use crate::first::{TREES, first_again, first_bad, first_rootless, first_short, first_strange};
use crate::kept::kept_tree;
use crate::root::{PlainRoot, RootFault};
use crate::tree::tree_of_root;
use ghost_spec::lists::GhostLists;
use ghost_trees::tree::Tree;
use page_state::Geometry;
use std::alloc::{AllocError, Global};
use walked_tables::{Reached, Stopped, TablePage};

/// Why pages and roots make no trees. The first that is true is answered, in the order of the variants.
#[derive(Clone, Copy, PartialEq)]
pub enum TreeFault {
    /// The page at this index hasn't 512 words.
    Short(usize),
    /// The page at this index has the frame of an earlier one.
    PageTwice(usize),
    /// The root at this index is of a tree that can't be.
    NoTree(usize),
    /// The root at this index is of the tree of an earlier one.
    RootTwice(usize),
    /// The root at this index can't be.
    BadRoot(usize, RootFault),
    /// A frame of the root at this index has no page.
    NoPage(usize),
    /// A walk comes again to the frame of a table: where it was then, and where it is now.
    Again { first: Reached, second: Reached },
    /// Memory was refused.
    NoMemory,
}

impl From<Stopped> for TreeFault {
    ghost use Rattle.c_trees.specs.Given.{fault_of};

    ghost from_gives = { λ stopped fault. fault ≡ fault_of stopped };

    fn from(stopped: Stopped) -> TreeFault {
        match stopped {
            Stopped::Again { first, second } => TreeFault::Again { first, second },
            Stopped::NoMemory => TreeFault::NoMemory,
        }
    }
}

impl From<AllocError> for TreeFault {
    ghost use Rattle.c_trees.specs.declared.trees.TreeFault.TheVariants.{NoMemory};

    ghost from_gives = { λ _ fault. fault ≡ NoMemory };

    fn from(_error: AllocError) -> TreeFault {
        TreeFault::NoMemory
    }
}

/// Tests pages and roots.
fn tested(pages: &[TablePage<'_>], roots: &[PlainRoot<'_>]) -> Result<(), TreeFault>
    ensures given { OnOk result (AreGiven pages.now roots.now) }
    ensures fault { (geometry : Geometry) → IfErr result (IsTreeFault geometry pages.now roots.now) }
{
    if let Some(i) = first_short(pages) {
        return Err(TreeFault::Short(i));
    }
    if let Some(i) = first_again(pages) {
        return Err(TreeFault::PageTwice(i));
    }
    if let Some(i) = first_strange(roots) {
        return Err(TreeFault::NoTree(i));
    }
    if let Some(i) = first_again(roots) {
        return Err(TreeFault::RootTwice(i));
    }
    if let Some(bad) = first_bad(roots) {
        return Err(TreeFault::BadRoot(bad.at, bad.fault));
    }
    if let Some(i) = first_rootless(pages, roots) {
        return Err(TreeFault::NoPage(i));
    }
    Ok(())
}

/// The root of a tree.
fn root_in<'a>(roots: &[PlainRoot<'a>], tree: u64) -> Option<PlainRoot<'a>>
    ensures { result ≡ root_in_list roots.now tree }
{
    roots.iter().copied().find(|root| root.tree == tree)
}

/// The tree of a number. Its tables are added to those that were met.
fn tree_from(
    alloc: Global,
    geometry: Geometry,
    pages: &[TablePage<'_>],
    roots: &[PlainRoot<'_>],
    kept: &GhostLists,
    tree: u64,
    met: &mut Vec<Reached>,
) -> Result<Tree, Stopped>
    requires given { AreGiven pages.now roots.now }
    requires kept { AreMapsKept kept.now }
    requires known { tree < 66 }
    requires apart { AllPairs AreOtherFrames met.old.items }
    ensures tree { IfOk result
        (λ t. tree_in_lists t
        ≡ tree_of geometry pages.now roots.now (kept_map (contents_in kept.now)) tree) }
    ensures kept { IfOk result IsKeptTree }
    ensures met { OnOk result (met.new.items ≡ met.old.items ++ tables_of geometry pages.now roots.now tree) }
    ensures apart { OnOk result (AllPairs AreOtherFrames met.new.items) }
    ensures stopped { IfErr result (IsStopped (met.old.items ++ tables_of geometry pages.now roots.now tree)) }
{
    match root_in(roots, tree) {
        Some(root) => tree_of_root(alloc, geometry, pages, kept_tree(kept, tree), &root, met),
        None => Ok(Tree::none(alloc)),
    }
}

/// The trees of the host, of the hypervisor and of the guests, by slot, that are found by walking the pages from the roots; of a
/// profile whose words say no states, leaves take those of the kept trees. A page is walked once at most.
pub fn trees_of(
    alloc: Global,
    geometry: Geometry,
    pages: &[TablePage<'_>],
    roots: &[PlainRoot<'_>],
    kept: &GhostLists,
) -> Result<Vec<Tree>, TreeFault>
    requires kept { AreMapsKept kept.now }
    ensures trees { IfOk result
        (λ v. AreTrees geometry pages.now roots.now (kept_map (contents_in kept.now))
        (λ tree. get_or (map tree_in_lists v.items) tree no_tree)) }
    ensures kept { IfOk result (λ v. All IsKeptTree v.items) }
    ensures count { IfOk result (λ v. length v.items ≡ 66) }
    ensures fault { IfErr result (IsTreeFault geometry pages.now roots.now) }
{
    tested(pages, roots)?;
    let mut met = Vec::new(alloc);
    let mut trees = Vec::new(alloc);
    for tree in 0..TREES {
        let found = tree_from(alloc, geometry, pages, roots, kept, tree, &mut met)?;
        push_tree(&mut trees, found)?;
    }
    Ok(trees)
}

/// Adds a tree.
fn push_tree(trees: &mut Vec<Tree>, tree: Tree) -> Result<(), AllocError>
    ensures { OnOk result (trees.new.items ≡ trees.old.items ++ tree ∷ []) }
{
    trees.push(tree)?;
    Ok(())
}

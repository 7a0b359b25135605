//! A tree and the maplets of the same map.
#![tactic(auto)]

ghost use Rattle.std.specs.Prelude.{◌≡◌, ℕ, ◌+◌, ◌≤◌, ◌^◌, length, IsOk, IfOk, OnOk, OnErr, Some};
ghost use Rattle.component.specs.Maps.{coarsest_prop, maps_prop};
ghost use Rattle.component.specs.View.{HasRoomFor, IsPlanFor, need_for};
ghost use Rattle.page_state.specs.Blocks.{block_at, is_empty as is_empty_block};
ghost use Rattle.page_state.specs.Map.{empty_map};
ghost use Rattle.page_state.specs.Runs.{map_of, IsCoarsest};
ghost use Rattle.page_state.specs.Counts.{frame_count};
ghost use Rattle.page_state.specs.Geometries.{levels_below};
ghost use Rattle.reference_model.specs.help.ChangeLaws.{Fits, FitsWhere};
ghost use Rattle.reference_model.specs.model.Changes.{edit_of};
ghost use Rattle.table_tree.specs.Stocks.{frames_of};
ghost use Rattle.table_tree.specs.View.{meaning, spares_of};
ghost use Rattle.walk_plan.specs.Hands.{AreApart, IsEdited, IsGivenBack, IsLeft, IsTaken, Stays};

use hyp_pool::Pool;
use maplets::Maplets;
use page_state::{Entry, Page};
use reference_model::MapChange;
use std::alloc::{AllocError, Allocator, Global};
use table_tree::{Reads, Tree};
use walker::Spare;

/// The most runs that one change adds to a list of maplets.
const MOST_NEW_RUNS: usize = 2;

/// A tree and its maplets, changed together: both have one meaning, and the maplets are the coarsest list of its runs.
// One type for both sides, without a method for each call: docs/DECISIONS.md, 2.
#[derive(Drop)]
pub struct Component<A: Allocator> {
    pub tree: Tree<A>,
    pub maplets: Maplets,
    pub ghost agree: { meaning tree ≡ map_of maplets.runs } by { maps_prop (meaning tree) (map_of maplets.runs) },
    pub ghost coarsest: { IsCoarsest maplets.runs } by { coarsest_prop maplets.runs },
}

/// All that one change of a component needs, in hand: the tables, and the room in the maplets. It must be spent, by
/// `commit` or by `release`.
pub struct Plan<A: Allocator> {
    pub change: Option<MapChange>,
    pub spare: Spare<A>,
}

impl<A: Allocator> Component<A> {
    /// A tree that maps nothing, with empty maplets. It takes no memory.
    pub fn new(global: Global, tree: Tree<A>) -> Component<A>
        requires { meaning tree ≡ empty_map }
        ensures { result.tree ≡ tree }
    {
        Component {
            tree,
            maplets: Maplets::new(global),
        }
    }

    /// The entry of a page in the tree.
    pub fn translate(&self, page: Page) -> Entry
        ensures { result ≡ meaning self.now.tree page.0 }
    {
        self.tree.look(page)
    }

    /// The number of tables that a change of the tree needs; 0 for no change.
    pub fn need(&self, change: &Option<MapChange>) -> usize
        requires { FitsWhere (levels_below self.now.tree.geometry) change.now }
        ensures value { result ≡ need_for self.now.tree change.now }
        ensures small { result ≤ 2 ^ 40 }
    {
        match change {
            Some(change) => {
                let mut reads = Reads::new();
                walker::need(&self.tree, change.range, &change.entry, &mut reads)
            }
            None => 0,
        }
    }

    /// Makes room in the maplets for a change. A refusal changes nothing.
    fn make_room(&mut self, change: &Option<MapChange>) -> Result<(), AllocError>
        ensures ok { OnOk result (HasRoomFor change.now self.new.maplets) }
        ensures succeeds { HasRoomFor change.now self.old.maplets → IsOk result }
        ensures tree { self.new.tree ≡ self.old.tree }
        ensures runs { self.new.maplets.runs ≡ self.old.maplets.runs }
    {
        match change {
            Some(_) => self.maplets.reserve(MOST_NEW_RUNS),
            None => Ok(()),
        }
    }

    /// Makes a change in the tree and in the maplets, with the tables reserved for exactly this change. It can't fail.
    pub fn commit(&mut self, pool: &mut Pool, plan: Plan<A>)
        requires change { FitsWhere (levels_below self.old.tree.geometry) plan.change }
        requires just { length (frames_of plan.spare.stock) ≡ need_for self.old.tree plan.change }
        requires apart { AreApart self.old.tree (frames_of plan.spare.stock) pool.old }
        requires ready { HasRoomFor plan.change self.old.maplets }
        ensures { IsEdited (edit_of plan.change)
            (frames_of plan.spare.stock) self.old.tree pool.old self.new.tree pool.new }
    {
        let Plan { change, spare } = plan;
        match change {
            Some(change) => self.set(pool, change, spare),
            None => self.release(pool, Plan { change, spare }),
        }
    }

    /// The same for a change of some pages.
    fn set(&mut self, pool: &mut Pool, change: MapChange, spare: Spare<A>)
        requires change { Fits (levels_below self.old.tree.geometry) change }
        requires just { length (frames_of spare.stock) ≡ need_for self.old.tree (Some change) }
        requires apart { AreApart self.old.tree (frames_of spare.stock) pool.old }
        requires ready { HasRoomFor (Some change) self.old.maplets }
        ensures { IsEdited (edit_of (Some change))
            (frames_of spare.stock) self.old.tree pool.old self.new.tree pool.new }
    {
        let mut reads = Reads::new();
        let MapChange { range, entry } = change;
        walker::set_with(&mut self.tree, pool, range, entry, spare, &mut reads);
        self.maplets.set(range, entry.target());
    }

    /// Cancels a change and gives back all that is reserved for it: the frames to the pool, the tables to the tree's
    /// spares. Requires that all frames are distinct and that the pool's room covers them.
    pub fn release(&mut self, pool: &mut Pool, plan: Plan<A>)
        requires distinct { (f : ℕ) → frame_count f (frames_of plan.spare.stock) + frame_count f pool.old.frames ≤ 1 }
        requires covered { length (frames_of plan.spare.stock) + length pool.old.frames ≤ pool.old.room }
        ensures given { IsGivenBack (frames_of plan.spare.stock) self.old.tree pool.old self.new.tree pool.new }
        ensures maplets { self.new.maplets ≡ self.old.maplets }
    {
        let Plan { change: _, spare } = plan;
        walker::release(spare, &mut self.tree, pool);
    }

    /// The tree.
    pub fn tree(&self) -> &Tree<A>
        ensures { result.now ≡ self.now.tree }
    {
        &self.tree
    }

    /// The maplets.
    pub fn maplets(&self) -> &Maplets
        ensures { result.now ≡ self.now.maplets }
    {
        &self.maplets
    }

    /// Whether the tree maps nothing on the block that holds a page and has `depth` levels below it, at most as many as
    /// a word of the root has. It reads one slot of each table on the page's path.
    pub fn is_empty(&self, depth: u32, page: Page) -> bool
        requires { depth ≤ levels_below self.now.tree.geometry }
        ensures { result ≡ is_empty_block (meaning self.now.tree) (block_at depth page.0) }
    {
        self.tree.is_empty(depth, page)
    }
}

impl<A: Allocator + Copy> Component<A> {
    /// Reserves all that a change needs: the lowest frames of the pool, a table for each, the tree's spares first, and
    /// room in the maplets. Requires that this many frames are free. It is refused only if the spares or the room are
    /// too few and the allocator refused memory; then runs, pool and tree are as they were, except that the tree may
    /// have more spares.
    pub fn reserve(
        &mut self,
        alloc: A,
        pool: &mut Pool,
        change: Option<MapChange>,
        need: usize,
    ) -> Result<Plan<A>, AllocError>
        requires { need ≤ length pool.old.frames }
        ensures planned { IfOk result (IsPlanFor change self.new.maplets) }
        ensures taken { IfOk result
            (λ p. IsTaken need self.old.tree pool.old self.new.tree pool.new
            (frames_of p.spare.stock)) }
        ensures left { OnErr result (IsLeft self.old.tree pool.old self.new.tree pool.new) }
        ensures succeeds { HasRoomFor change self.old.maplets → need ≤ spares_of self.old.tree → IsOk result }
        ensures stays { Stays self.old.tree self.new.tree }
        ensures runs { self.new.maplets.runs ≡ self.old.maplets.runs }
        ensures room { pool.new.room ≡ pool.old.room }
    {
        self.make_room(&change)?;
        let spare = walker::reserve_tables(alloc, &mut self.tree, pool, need)?;
        Ok(Plan { change, spare })
    }
}

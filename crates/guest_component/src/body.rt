//! A guest that isn't Empty.
ghost use Rattle.guest_component.specs.Own.{HoldsOwn, HoldsOwn-prop};

use crate::hand::{give_frames, split_hand};
use call_table::{VmId, VmKind};
use component::{Component, Plan};
use hyp_pool::{Pool, PoolFault};
use page_state::{Geometry, Page, PageRange};
use reference_model::{Changes, GuestChange, MapChange};
use std::alloc::{AllocError, Allocator, Global};
use table_tree::Tree;

/// The phase of a guest that isn't Empty.
#[derive(Clone, Copy, PartialEq)]
pub enum Phase {
    /// Its VM runs, or is being made.
    Live,
    /// Its VM is being ended.
    Dying,
}

/// A guest that isn't Empty. Its pool has room for all frames that the guest may get, so that it gains them without memory.
#[derive(Drop)]
pub struct Body<A: Allocator> {
    /// Live or Dying.
    pub phase: Phase,
    /// The generation of its VM.
    pub generation: u64,
    /// The kind of its VM.
    pub kind: VmKind,
    /// Its tree and maplets.
    pub map: Component<A>,
    /// The free frames for its tables.
    pub pool: Pool,
    pub ghost own: { HoldsOwn map.tree pool } by { HoldsOwn-prop map.tree pool },
}

impl<A: Allocator> Body<A> {
    ghost use Rattle.std.specs.Prelude.{◌≡◌, ◌+◌, ◌≤◌, ◌^◌, ℕ, true, length, IfOk};
    ghost use Rattle.guest_component.specs.Bodies.{body_of, phase_of};
    ghost use Rattle.guest_component.specs.Changing.{IsHand};
    ghost use Rattle.page_state.specs.Counts.{frame_count};
    ghost use Rattle.page_state.specs.EntryTests.{is_unmapped as is_unmapped_entry};
    ghost use Rattle.page_state.specs.Geometries.{levels_below, pages_below};
    ghost use Rattle.page_state.specs.Layouts.{Layout};
    ghost use Rattle.page_state.specs.Regions.{end_of, is_in_range};
    ghost use Rattle.page_state.specs.Search.{all_below};
    ghost use Rattle.reference_model.specs.model.Changes.{guest_by};
    ghost use Rattle.reference_model.specs.model.GuestRules.{guest_table_count, is_guest};
    ghost use Rattle.reference_model.specs.model.State.{Guest as ReferenceGuest};
    ghost use Rattle.reference_model.specs.declared.changes.GuestChange.TheVariants.{
      Die,
      Gain,
      Install,
      LoseLowest,
    };
    ghost use Rattle.table_tree.specs.View.{tables_of, uses};

    /// A Live guest of the hand's frames: its root is the first, and its pool has the others.
    pub(crate) fn install(
        alloc: A,
        global: Global,
        geometry: Geometry,
        kind: VmKind,
        generation: u64,
        hand: PageRange,
    ) -> Result<Body<A>, AllocError>
        requires { IsHand hand }
        ensures made { IfOk result
            (λ b. (g : ReferenceGuest)
            → body_of b ≡ guest_by (levels_below geometry) (Install kind generation hand) g) }
        ensures geometry { IfOk result (λ b. b.map.tree.geometry ≡ geometry) }
    {
        let (root, pool) = split_hand(global, hand)?;
        let tree = Tree::new(alloc, root, geometry)?;
        Ok(Body {
            phase: Phase::Live,
            generation,
            kind,
            map: Component::new(global, tree),
            pool,
        })
    }

    /// Whether it is in a phase, and of the VM's generation.
    pub(crate) fn is_in(&self, phase: Phase, vm: VmId) -> bool
        ensures { result ≡ is_guest (phase_of phase) vm (body_of self.now) }
    {
        self.phase == phase && self.generation == vm.generation
    }

    /// How many tables it has.
    pub(crate) fn tables(&self) -> usize
        ensures value { (l : Layout)
            → l.depth ≡ levels_below self.now.map.tree.geometry
            → result ≡ guest_table_count l (body_of self.now).tree }
        ensures few { result + length self.now.pool.frames ≤ 512 }
    {
        let map = &self.map;
        map.tree().tables()
    }

    /// Whether no page is mapped, by a look at each slot of the root.
    pub(crate) fn is_unmapped(&self) -> bool
        ensures { result
            ≡ all_below (pages_below (levels_below self.now.map.tree.geometry))
            (λ p. is_unmapped_entry ((body_of self.now).tree.map p)) }
    {
        let map = &self.map;
        let depth = map.tree().geometry().depth();
        for slot in 0..512u64 {
            if !map.is_empty(depth, Page(slot << (9 * depth))) {
                return false;
            }
        }
        true
    }

    /// The pool gets frames that the guest doesn't have.
    fn gain(&mut self, frames: PageRange)
        requires apart { (f : ℕ)
            → is_in_range frames f ≡ true
            → uses self.old.map.tree f + frame_count f self.old.pool.frames ≡ 0 }
        requires few { tables_of self.old.map.tree + length self.old.pool.frames + frames.count ≤ 512 }
        requires low { end_of frames ≤ 2 ^ 36 }
        ensures made { (d : ℕ) → body_of self.new ≡ guest_by d (Gain frames) (body_of self.old) }
        ensures geometry { self.new.map.tree.geometry ≡ self.old.map.tree.geometry }
    {
        let pool = &mut self.pool;
        give_frames(pool, frames);
    }

    /// Removes the lowest frame of the pool, if there is one.
    fn lose_lowest(&mut self)
        ensures made { (d : ℕ) → body_of self.new ≡ guest_by d LoseLowest (body_of self.old) }
        ensures geometry { self.new.map.tree.geometry ≡ self.old.map.tree.geometry }
    {
        let pool = &mut self.pool;
        let _lowest = pool.take();
    }

    /// The guest becomes Dying.
    fn die(&mut self)
        ensures made { (d : ℕ) → body_of self.new ≡ guest_by d Die (body_of self.old) }
        ensures geometry { self.new.map.tree.geometry ≡ self.old.map.tree.geometry }
    {
        self.phase = Phase::Dying;
    }
}

impl<A: Allocator> Body<A> {
    ghost use Rattle.std.specs.Prelude.{◌≡◌, ℕ, ◌+◌, length};
    ghost use Rattle.component.specs.View.{HasRoomFor};
    ghost use Rattle.guest_component.specs.Bodies.{body_of};
    ghost use Rattle.guest_component.specs.Changing.{CanTake, StaysMade, map_changed};
    ghost use Rattle.guest_component.specs.InHand.{IsInHand, body_with, pool_with};
    ghost use Rattle.page_state.specs.Counts.{frame_count};
    ghost use Rattle.page_state.specs.Geometries.{levels_below};
    ghost use Rattle.reference_model.specs.help.ChangeLaws.{FitsWhere};
    ghost use Rattle.reference_model.specs.model.Step.{guest_after};
    ghost use Rattle.table_tree.specs.Stocks.{frames_of};
    ghost use Rattle.table_tree.specs.View.{spares_of};
    ghost use Rattle.walk_plan.specs.Hands.{KeepsFrames};

    /// Gives all that is in hand for a change back.
    pub(crate) fn release(&mut self, plan: Plan<A>)
        requires { IsInHand plan.change self.old plan }
        ensures same { body_of self.new ≡ body_with plan self.old }
        ensures spares { spares_of self.new.map.tree
            ≡ spares_of self.old.map.tree + length (frames_of plan.spare.stock) }
        ensures geometry { self.new.map.tree.geometry ≡ self.old.map.tree.geometry }
        ensures runs { self.new.map.maplets.runs ≡ self.old.map.maplets.runs }
    {
        let map = &mut self.map;
        let pool = &mut self.pool;
        map.release(pool, plan);
    }

    /// Changes the map, with the tables in hand for it.
    fn set(&mut self, plan: Plan<A>)
        requires change { FitsWhere (levels_below self.old.map.tree.geometry) plan.change }
        requires in_hand { IsInHand plan.change self.old plan }
        ensures made { body_of self.new
            ≡ map_changed (levels_below self.old.map.tree.geometry) plan.change
            (body_with plan self.old) }
        ensures keeps { KeepsFrames self.old.map.tree
            (frames_of plan.spare.stock) self.old.pool self.new.map.tree self.new.pool }
    {
        let map = &mut self.map;
        let pool = &mut self.pool;
        map.commit(pool, plan);
    }

    /// Changes the map, with the tables in hand for it, and then the rest of a guest that doesn't become Empty.
    pub(crate) fn change(&mut self, changes: &Changes, plan: Plan<A>)
        requires stays { StaysMade changes.now.part }
        requires part { CanTake self.old.map.tree (pool_with plan self.old) changes.now.part }
        requires change { FitsWhere (levels_below self.old.map.tree.geometry) changes.now.guest }
        requires in_hand { IsInHand changes.now.guest self.old plan }
        ensures made { body_of self.new
            ≡ guest_after (levels_below self.old.map.tree.geometry) changes.now
            (body_with plan self.old) }
        ensures geometry { self.new.map.tree.geometry ≡ self.old.map.tree.geometry }
    {
        self.set(plan);
        match changes.part {
            GuestChange::Keep | GuestChange::Install { .. } | GuestChange::Empty => {}
            GuestChange::Gain(frames) => self.gain(frames),
            GuestChange::LoseLowest => self.lose_lowest(),
            GuestChange::Die => self.die(),
        }
    }
}

impl<A: Allocator + Copy> Body<A> {
    ghost use Rattle.std.specs.Prelude.{◌≡◌, ◌<◌, ◌≤◌, ◌↔◌, length, Err, IfOk, OnErr};
    ghost use Rattle.component.specs.View.{need_for};
    ghost use Rattle.guest_component.specs.Bodies.{body_of};
    ghost use Rattle.guest_component.specs.InHand.{IsInHand, body_with};
    ghost use Rattle.guest_component.specs.Wants.{HasReadyMap};
    ghost use Rattle.page_state.specs.Geometries.{levels_below};
    ghost use Rattle.reference_model.specs.help.ChangeLaws.{FitsWhere};
    ghost use Rattle.table_tree.specs.View.{spares_of};

    /// Reserves all that a change of the map needs. It returns NoPool if and only if the pool has fewer frames than the
    /// change needs tables, and does so before any allocation. A refusal changes nothing but the number of spares.
    pub(crate) fn reserve(
        &mut self,
        alloc: A,
        change: Option<MapChange>,
    ) -> Result<Plan<A>, PoolFault>
        requires { FitsWhere (levels_below self.old.map.tree.geometry) change }
        ensures in_hand { IfOk result (λ p. IsInHand change self.new p) }
        ensures whole { IfOk result (λ p. body_with p self.new ≡ body_of self.old) }
        ensures no_pool { (result ≡ Err PoolFault.NoPool)
            ↔ (length self.old.pool.frames < need_for self.old.map.tree change) }
        ensures no_memory { result ≡ Err PoolFault.NoMemory
            → HasReadyMap (need_for self.old.map.tree change) change (Some self.old)
            → ⊥ }
        ensures err { OnErr result (body_of self.new ≡ body_of self.old) }
        ensures err_spares { OnErr result (spares_of self.old.map.tree ≤ spares_of self.new.map.tree) }
        ensures geometry { self.new.map.tree.geometry ≡ self.old.map.tree.geometry }
        ensures runs { self.new.map.maplets.runs ≡ self.old.map.maplets.runs }
    {
        let map = &mut self.map;
        let pool = &mut self.pool;
        let need = map.need(&change);
        if pool.free() < need {
            return Err(PoolFault::NoPool);
        }
        Ok(map.reserve(alloc, pool, change, need)?)
    }
}

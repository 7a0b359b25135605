//! The parts of a guest that calls read.
ghost use Rattle.std.specs.Prelude.{◌≡◌, ◌+◌, ◌≤◌, ◌^◌, ◌≢◌, true, is_some, length, unwrap_or, MatchOption, None, Some};
ghost use Rattle.guest_component.specs.View.{guest_of, guest_depth};
ghost use Rattle.page_state.specs.EntryTests.{is_unmapped as is_unmapped_entry};
ghost use Rattle.page_state.specs.Geometries.{levels_below, pages_below};
ghost use Rattle.page_state.specs.Layouts.{Layout};
ghost use Rattle.page_state.specs.Search.{all_below};
ghost use Rattle.reference_model.specs.help.ChangeLaws.{FitsWhere};
ghost use Rattle.reference_model.specs.model.GuestRules.{guest_table_count, is_guest, is_protected as is_protected_kind, least as least_free};
ghost use Rattle.reference_model.specs.model.State.{dying, empty, live, no_guest};
ghost use Rattle.reference_model.specs.model.Step.{guest_need};

use crate::body::{Body, Phase};
use crate::guest::Guest;
use call_table::{VmId, VmKind};
use hyp_pool::Pool;
use page_state::{Entry, Geometry, Page};
use reference_model::Changes;
use std::alloc::{Allocator, Global};

impl<A: Allocator> Guest<A> {
    /// An Empty guest; trees have the geometry. It takes no memory.
    pub fn new(global: Global, geometry: Geometry) -> Guest<A>
        ensures empty { guest_of result ≡ no_guest }
        ensures depth { guest_depth result ≡ levels_below geometry }
    {
        Guest {
            global,
            geometry,
            body: None,
        }
    }

    /// The content of the guest; None if it is Empty.
    pub fn body(&self) -> Option<&Body<A>>
        ensures { MatchOption result (self.now.body ≡ None) (λ b. self.now.body ≡ Some b.now) }
    {
        self.body.as_ref()
    }

    /// The entry of a page.
    pub fn translate(&self, page: Page) -> Entry
        ensures { result ≡ (guest_of self.now).tree.map page.0 }
    {
        match &self.body {
            Some(body) => body.map.translate(page),
            None => Entry::Unmapped,
        }
    }

    /// Whether it is Live, and of the VM's generation.
    pub fn is_live(&self, vm: VmId) -> bool
        ensures { result ≡ is_guest live vm (guest_of self.now) }
    {
        match &self.body {
            Some(body) => body.is_in(Phase::Live, vm),
            None => false,
        }
    }

    /// Whether it is Dying, and of the VM's generation.
    pub fn is_dying(&self, vm: VmId) -> bool
        ensures { result ≡ is_guest dying vm (guest_of self.now) }
    {
        match &self.body {
            Some(body) => body.is_in(Phase::Dying, vm),
            None => false,
        }
    }

    /// Whether the host can't reach its memory; an Empty guest has none.
    pub fn is_protected(&self) -> bool
        ensures { result ≡ is_protected_kind (guest_of self.now).kind }
    {
        match &self.body {
            Some(body) => body.kind == VmKind::Protected,
            None => false,
        }
    }

    /// How many tables it has, its root among them. With the free frames they are 512 at most.
    pub fn tables(&self) -> usize
        ensures value { (l : Layout)
            → l.depth ≡ guest_depth self.now
            → result ≡ guest_table_count l (guest_of self.now).tree }
        ensures few { result + length (guest_of self.now).free ≤ 512 }
    {
        match &self.body {
            Some(body) => body.tables(),
            None => 0,
        }
    }

    /// How many frames are free in its pool.
    pub fn free(&self) -> usize
        ensures { result ≡ length (guest_of self.now).free }
    {
        match &self.body {
            Some(body) => body.pool.free(),
            None => 0,
        }
    }

    /// The least free frame of its pool, or 0 if none is free.
    pub fn least(&self) -> u64
        ensures { result ≡ least_free (guest_of self.now).free }
    {
        match &self.body {
            Some(body) => least_of(&body.pool),
            None => 0,
        }
    }

    /// The frame of its root; 0 of an Empty guest, which has none.
    pub fn root(&self) -> u64
        ensures { result ≡ unwrap_or ((guest_of self.now).tree.table (guest_depth self.now + 1, 0)) 0 }
    {
        match &self.body {
            Some(body) => body.map.tree().root().0,
            None => 0,
        }
    }

    /// Whether no page is mapped. It reads only the root.
    pub fn is_unmapped(&self) -> bool
        ensures { result
            ≡ all_below (pages_below (guest_depth self.now))
            (λ p. is_unmapped_entry ((guest_of self.now).tree.map p)) }
    {
        match &self.body {
            Some(body) => body.is_unmapped(),
            None => true,
        }
    }

    /// The number of tables that the change of its map needs. Requires a change that fits, and none if the guest is
    /// Empty.
    pub fn need(&self, changes: &Changes) -> usize
        requires map { FitsWhere (guest_depth self.now) changes.now.guest }
        requires mapped { is_some changes.now.guest ≡ true → (guest_of self.now).phase ≢ empty }
        ensures value { result ≡ guest_need (guest_depth self.now) changes.now (guest_of self.now) }
        ensures small { result ≤ 2 ^ 40 }
    {
        match &self.body {
            Some(body) => body.map.need(&changes.guest),
            None => 0,
        }
    }
}

/// The least free frame of a pool, or 0 if none is free.
fn least_of(pool: &Pool) -> u64
    ensures { result ≡ least_free pool.now.frames }
{
    match pool.frames().next() {
        Some(frame) => frame.0,
        None => 0,
    }
}

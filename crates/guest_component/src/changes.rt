//! Changes of a guest, in words of the reference state.
ghost use Rattle.std.specs.Prelude.{◌≡◌, ◌<◌, ◌≤◌, ◌↔◌, length, Err, IfOk, OnOk, OnErr};
ghost use Rattle.guest_component.specs.Bodies.{IsOfGeometry};
ghost use Rattle.guest_component.specs.Changing.{CanInstallFrom, GuestCanChange, StaysMade};
ghost use Rattle.guest_component.specs.Plans.{IsMadeFor, IsMapInHand, IsMapPlanned, IsReadyFor, PlansFor, guest_with, map_with};
ghost use Rattle.guest_component.specs.Wants.{HasReadyMap, MakesNone, WantsNoMemory, need_of};
ghost use Rattle.guest_component.specs.View.{guest_of, guest_depth, guest_in, guest_spares, runs_of};
ghost use Rattle.reference_model.specs.model.Step.{guest_after};

use crate::body::Body;
use crate::guest::{Guest, GuestPlan};
use component::Plan;
use hyp_pool::PoolFault;
use page_state::Geometry;
use reference_model::{Changes, GuestChange};
use std::alloc::{AllocError, Allocator, Global};

/// The guest that an install makes of an Empty one; other changes make none.
fn installed<A: Allocator>(
    alloc: A,
    global: Global,
    geometry: Geometry,
    part: &GuestChange,
) -> Result<Option<Body<A>>, AllocError>
    requires { CanInstallFrom part.now }
    ensures made { IfOk result (λ o. IsMadeFor geometry part.now o) }
    ensures no_memory { OnErr result (MakesNone part.now → ⊥) }
{
    match *part {
        GuestChange::Install {
            kind,
            generation,
            hand,
        } => {
            let body = Body::install(alloc, global, geometry, kind, generation, hand)?;
            Ok(Some(body))
        }
        GuestChange::Keep
        | GuestChange::Gain(_)
        | GuestChange::LoseLowest
        | GuestChange::Die
        | GuestChange::Empty => Ok(None),
    }
}

impl<A: Allocator> Guest<A> {
    /// Gives the tables in hand for a change of its map back.
    fn release_map(&mut self, plan: Option<Plan<A>>)
        requires { IsMapInHand self.old.body plan }
        ensures same { guest_of self.new ≡ map_with plan self.old.body }
        ensures geometry { self.new.geometry ≡ self.old.geometry }
        ensures runs { runs_of self.new.body ≡ runs_of self.old.body }
        ensures spares { guest_spares self.old.body ≤ guest_spares self.new.body }
    {
        if let Some(plan) = plan {
            self.body.as_mut().unwrap().release(plan);
        }
    }

    /// Cancels changes and gives back all that is reserved for them. It can't fail.
    pub fn release(&mut self, plan: GuestPlan<A>)
        requires { IsMapInHand self.old.body plan.map }
        ensures same { guest_of self.new ≡ guest_with plan self.old }
        ensures depth { guest_depth self.new ≡ guest_depth self.old }
        ensures runs { runs_of self.new.body ≡ runs_of self.old.body }
        ensures spares { guest_spares self.old.body ≤ guest_spares self.new.body }
    {
        let GuestPlan { map, made: _ } = plan;
        self.release_map(map);
    }

    /// Makes changes with all that they need in hand. It takes no memory and can't fail.
    pub fn commit(&mut self, changes: &Changes, plan: GuestPlan<A>)
        requires { IsReadyFor changes.now self.old plan }
        ensures made { guest_of self.new
            ≡ guest_after (guest_depth self.old) changes.now (guest_with plan self.old) }
        ensures depth { guest_depth self.new ≡ guest_depth self.old }
    {
        let GuestPlan { map, made } = plan;
        match changes.part {
            GuestChange::Install { .. } => self.put(map, made),
            GuestChange::Empty => self.put(map, None),
            GuestChange::Keep | GuestChange::Gain(_) | GuestChange::LoseLowest | GuestChange::Die =>
                self.change_body(changes, map),
        }
    }

    /// The guest becomes another one, or Empty. The old one is dropped.
    fn put(&mut self, plan: Option<Plan<A>>, body: Option<Body<A>>)
        requires alike { IsOfGeometry self.old.geometry body }
        requires in_hand { IsMapInHand self.old.body plan }
        ensures body { self.new.body ≡ body }
        ensures geometry { self.new.geometry ≡ self.old.geometry }
    {
        self.release_map(plan);
        self.body = body;
    }

    /// Makes the changes that make no guest and end none: those of a guest that isn't Empty.
    fn change_body(&mut self, changes: &Changes, plan: Option<Plan<A>>)
        requires stays { StaysMade changes.now.part }
        requires fits { GuestCanChange (guest_depth self.old) changes.now (map_with plan self.old.body) }
        requires in_hand { IsMapInHand self.old.body plan }
        requires planned { PlansFor changes.now.guest plan }
        ensures made { guest_of self.new
            ≡ guest_after (guest_depth self.old) changes.now (map_with plan self.old.body) }
        ensures depth { guest_depth self.new ≡ guest_depth self.old }
    {
        if let Some(plan) = plan {
            self.body.as_mut().unwrap().change(changes, plan);
        }
    }
}

impl<A: Allocator + Copy> Guest<A> {
    /// Reserves all that the change of its map needs.
    fn reserve_map(&mut self, alloc: A, changes: &Changes) -> Result<Option<Plan<A>>, PoolFault>
        requires { GuestCanChange (guest_depth self.old) changes.now (guest_of self.old) }
        ensures planned { IfOk result (IsMapPlanned changes.now.guest self.old self.new) }
        ensures no_pool { (result ≡ Err PoolFault.NoPool)
            ↔ (length (guest_of self.old).free < need_of self.old changes.now) }
        ensures no_memory { result ≡ Err PoolFault.NoMemory
            → HasReadyMap (need_of self.old changes.now) changes.now.guest self.old.body
            → ⊥ }
        ensures err { OnErr result (guest_of self.new ≡ guest_of self.old) }
        ensures err_spares { OnErr result (guest_spares self.old.body ≤ guest_spares self.new.body) }
        ensures geometry { self.new.geometry ≡ self.old.geometry }
        ensures runs { runs_of self.new.body ≡ runs_of self.old.body }
    {
        match &mut self.body {
            Some(body) => Ok(Some(body.reserve(alloc, changes.guest)?)),
            None => Ok(None),
        }
    }

    /// Reserves all that changes need: tables with frames of its pool, room in the maplets, and for an install the new
    /// guest. It returns NoPool if and only if its pool has fewer frames than its map's change needs tables, before any
    /// allocation, and NoMemory only for an install, or if its tree has fewer spares than that or its maplets no room,
    /// and the allocator refused memory. After a refusal the guest is as before, apart from the number of spares.
    /// Requires changes that can be made of the guest.
    pub fn reserve(&mut self, alloc: A, changes: &Changes) -> Result<GuestPlan<A>, PoolFault>
        requires { GuestCanChange (guest_depth self.old) changes.now (guest_of self.old) }
        ensures ready { IfOk result (λ p. IsReadyFor changes.now self.new p) }
        ensures whole { IfOk result (λ p. guest_with p self.new ≡ guest_of self.old) }
        ensures no_pool { (result ≡ Err PoolFault.NoPool)
            ↔ (length (guest_of self.old).free < need_of self.old changes.now) }
        ensures no_memory { result ≡ Err PoolFault.NoMemory → WantsNoMemory changes.now self.old → ⊥ }
        ensures err { OnErr result (guest_of self.new ≡ guest_of self.old) }
        ensures err_spares { OnErr result (guest_spares self.old.body ≤ guest_spares self.new.body) }
        ensures depth { guest_depth self.new ≡ guest_depth self.old }
        ensures runs { runs_of self.new.body ≡ runs_of self.old.body }
    {
        let map = self.reserve_map(alloc, changes)?;
        match installed(alloc, self.global, self.geometry, &changes.part) {
            Ok(made) => Ok(GuestPlan { map, made }),
            Err(_) => {
                self.release_map(map);
                Err(PoolFault::NoMemory)
            }
        }
    }

    /// Makes changes of the guest alone, or none: it returns NoPool and NoMemory as `reserve` does.
    pub fn change(&mut self, alloc: A, changes: &Changes) -> Result<(), PoolFault>
        requires { GuestCanChange (guest_depth self.old) changes.now (guest_of self.old) }
        ensures made { OnOk result
            (guest_of self.new
            ≡ guest_after (guest_depth self.old) changes.now (guest_of self.old)) }
        ensures no_pool { (result ≡ Err PoolFault.NoPool)
            ↔ (length (guest_of self.old).free < need_of self.old changes.now) }
        ensures no_memory { result ≡ Err PoolFault.NoMemory → WantsNoMemory changes.now self.old → ⊥ }
        ensures err { OnErr result (guest_of self.new ≡ guest_of self.old) }
        ensures err_runs { OnErr result (runs_of self.new.body ≡ runs_of self.old.body) }
        ensures err_spares { OnErr result (guest_spares self.old.body ≤ guest_spares self.new.body) }
        ensures depth { guest_depth self.new ≡ guest_depth self.old }
    {
        let plan = self.reserve(alloc, changes)?;
        self.commit(changes, plan);
        Ok(())
    }
}

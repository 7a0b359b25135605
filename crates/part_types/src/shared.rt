//! Changes of the Shared part, in words of the reference state.
ghost use Rattle.std.specs.Prelude.{◌≡◌, ◌+◌, ◌<◌, ◌≤◌, ◌^◌, ◌↔◌, Err, length, nat_lt, IfOk, OnOk, OnErr};
ghost use Rattle.component.specs.View.{need_for, back_from};
ghost use Rattle.part_types.specs.Leaves.{IsUnchanged, KeepsRest, KeepsRuns, KeepsSpares};
ghost use Rattle.part_types.specs.Planned.{IsMade, IsNeedOf, IsPlanned, IsPlanOf, planned, shared_with};
ghost use Rattle.part_types.specs.Roomy.{IsRoomy};
ghost use Rattle.part_types.specs.View.{shared_of, depth_of, rows_given};
ghost use Rattle.owner_table.specs.Rows.{HasRows, HasSameFrames};
ghost use Rattle.page_state.specs.Regions.{end_of};
ghost use Rattle.reference_model.specs.help.ChangeLaws.{FitsWhere};
ghost use Rattle.reference_model.specs.model.Step.{shared_need, shared_after};
ghost use Rattle.page_state.specs.Rows.{HasPageBelow};
ghost use Rattle.table_tree.specs.View.{spares_of};

use crate::parts::SharedPart;
use component::Plan;
use hyp_pool::PoolFault;
use page_state::{PageRange, Row};
use reference_model::Changes;
use std::alloc::Allocator;

/// The tables that the changes of the host's and of the hypervisor's map need.
#[derive(Clone, Copy)]
pub struct SharedNeed {
    pub host: usize,
    pub hyp: usize,
}

/// All that changes of the host's and the hypervisor's map need, in hand: the tables, the host's with the lowest frames, and
/// room in the maplets. It must be spent, by `commit` or by `release`.
pub struct SharedPlan<A: Allocator> {
    pub host: Plan<A>,
    pub hyp: Plan<A>,
}

impl<A: Allocator> SharedPart<A> {
    /// The tables that both changes need.
    pub fn need(&self, changes: &Changes) -> SharedNeed
        requires host_change { FitsWhere (depth_of self.now) changes.now.host }
        requires hyp_change { FitsWhere (depth_of self.now) changes.now.hyp }
        ensures host { result.host ≡ need_for self.now.host.tree changes.now.host }
        ensures hyp { result.hyp ≡ need_for self.now.hyp.tree changes.now.hyp }
        ensures total { result.host + result.hyp ≡ shared_need (depth_of self.now) changes.now (shared_of self.now) }
        ensures small { result.host + result.hyp ≤ 2 ^ 41 }
    {
        SharedNeed {
            host: self.host.need(&changes.host),
            hyp: self.hyp.need(&changes.hyp),
        }
    }

    /// Whether the pool has fewer free frames than both changes need tables.
    pub fn is_short(&self, need: SharedNeed) -> bool
        requires { need.host + need.hyp ≤ 2 ^ 41 }
        ensures { result ≡ nat_lt (length self.now.pool.frames) (need.host + need.hyp) }
    {
        self.pool.free() < need.host + need.hyp
    }

    /// Makes the changes of both maps, with the tables in hand for them. It takes no memory and can't fail. Rows and log stay.
    pub fn commit(&mut self, plan: SharedPlan<A>)
        requires host_change { FitsWhere (depth_of self.old) plan.host.change }
        requires hyp_change { FitsWhere (depth_of self.old) plan.hyp.change }
        requires planned { IsPlanOf self.old plan }
        ensures made { shared_of self.new
            ≡ shared_after (depth_of self.old) (planned plan) (shared_with plan self.old) }
        ensures host_spares { spares_of self.new.host.tree
            ≡ spares_of self.old.host.tree + length
            (back_from self.old.host.tree plan.host.change) }
        ensures hyp_spares { spares_of self.new.hyp.tree
            ≡ spares_of self.old.hyp.tree + length (back_from self.old.hyp.tree plan.hyp.change) }
        ensures rest { KeepsRest self.old self.new }
    {
        let SharedPlan {
            host: host_plan,
            hyp: hyp_plan,
        } = plan;
        let host = &mut self.host;
        let hyp = &mut self.hyp;
        let pool = &mut self.pool;
        host.commit(pool, host_plan);
        hyp.commit(pool, hyp_plan);
    }

    /// Gives all that is in hand back, and changes nothing but the number of spares.
    pub fn release(&mut self, plan: SharedPlan<A>)
        requires { IsPlanOf self.old plan }
        ensures same { shared_of self.new ≡ shared_with plan self.old }
        ensures spares { KeepsSpares self.old self.new }
        ensures runs { KeepsRuns self.old self.new }
        ensures rest { KeepsRest self.old self.new }
    {
        let SharedPlan {
            host: host_plan,
            hyp: hyp_plan,
        } = plan;
        let host = &mut self.host;
        let hyp = &mut self.hyp;
        let pool = &mut self.pool;
        hyp.release(pool, hyp_plan);
        host.release(pool, host_plan);
    }
}

impl<A: Allocator + Copy> SharedPart<A> {
    /// Reserves all that both changes need. It returns NoPool if and only if the pool has fewer frames than both need
    /// tables, before any allocation, and NoMemory only if a tree has fewer spares than it needs tables, or maplets no
    /// room, and the allocator refused memory. A refusal changes nothing but the number of spares.
    // The order of what a change takes: docs/DECISIONS.md, 20.
    pub fn reserve(
        &mut self,
        alloc: A,
        changes: &Changes,
        need: SharedNeed,
    ) -> Result<SharedPlan<A>, PoolFault>
        requires { IsNeedOf self.old changes.now need }
        ensures planned { IfOk result (IsPlanned changes.now need self.old self.new) }
        ensures no_pool { (result ≡ Err PoolFault.NoPool) ↔ (length self.old.pool.frames < need.host + need.hyp) }
        ensures no_memory { result ≡ Err PoolFault.NoMemory → IsRoomy changes.now self.old → ⊥ }
        ensures err { OnErr result (IsUnchanged self.old self.new) }
        ensures runs { KeepsRuns self.old self.new }
        ensures rest { KeepsRest self.old self.new }
    {
        let host = &mut self.host;
        let hyp = &mut self.hyp;
        let pool = &mut self.pool;
        if pool.free() < need.host + need.hyp {
            return Err(PoolFault::NoPool);
        }
        let host_plan = host.reserve(alloc, pool, changes.host, need.host)?;
        match hyp.reserve(alloc, pool, changes.hyp, need.hyp) {
            Ok(hyp_plan) => Ok(SharedPlan {
                host: host_plan,
                hyp: hyp_plan,
            }),
            Err(_) => {
                host.release(pool, host_plan);
                Err(PoolFault::NoMemory)
            }
        }
    }

    /// Makes the changes of the host's and the hypervisor's map, or none: it returns NoPool if and only if the pool has
    /// fewer frames than both need tables, NoMemory only if a tree has fewer spares than it needs tables, or maplets no
    /// room, and the allocator refused memory. Rows and log stay.
    pub fn change(&mut self, alloc: A, changes: &Changes) -> Result<(), PoolFault>
        requires host_change { FitsWhere (depth_of self.old) changes.now.host }
        requires hyp_change { FitsWhere (depth_of self.old) changes.now.hyp }
        ensures made { OnOk result (IsMade changes.now self.old self.new) }
        ensures no_pool { (result ≡ Err PoolFault.NoPool)
            ↔ (length self.old.pool.frames < shared_need (depth_of self.old) changes.now
            (shared_of self.old)) }
        ensures no_memory { result ≡ Err PoolFault.NoMemory → IsRoomy changes.now self.old → ⊥ }
        ensures err { OnErr result (IsUnchanged self.old self.new) }
        ensures err_runs { OnErr result (KeepsRuns self.old self.new) }
        ensures rest { KeepsRest self.old self.new }
    {
        let need = self.need(changes);
        let plan = self.reserve(alloc, changes, need)?;
        self.commit(plan);
        Ok(())
    }
}

impl<A: Allocator> SharedPart<A> {
    /// Gives memory frames another owner row, whose lent page goes on along the range. It takes no memory.
    pub fn give_rows(&mut self, frames: PageRange, row: Row)
        requires frames { end_of frames ≤ 2 ^ 63 }
        requires row { HasPageBelow row frames.count }
        requires known { HasRows self.old.owners frames }
        ensures made { shared_of self.new ≡ rows_given frames row (shared_of self.old) }
        ensures known { HasSameFrames self.old.owners self.new.owners }
        ensures log { self.new.log ≡ self.old.log }
        ensures depth { depth_of self.new ≡ depth_of self.old }
    {
        self.owners.set(frames, row);
    }
}

//! All parts, and the step on those that it uses.
ghost use Rattle.std.specs.Prelude.{◌≡◌, ◌<◌, vec_len, All};
ghost use Rattle.part_types.specs.Logs.{IsOfSize};
ghost use Rattle.part_types.specs.MemoryRows.{HasMemoryRows};
ghost use Rattle.part_types.specs.Numbers.{AreNumbered};
ghost use Rattle.page_state.specs.Geometries.{levels_below};

use crate::step::{reply_of, step_alone, step_on_both, step_on_guest, step_on_shared, step_on_vms};
use crate::used_parts::{UsedParts, uses};
use call_table::{Reply, Step};
use page_state::Layout;
use part_types::{CpuState, GuestPart, SharedPart, VmPart};
use std::alloc::Allocator;

/// The layout, which never changes, the VM part, the Shared part, the Guest parts by slot, and the CPUs by number.
#[derive(Drop)]
pub struct Parts<A: Allocator> {
    pub layout: Layout,
    pub vms: VmPart,
    pub shared: SharedPart<A>,
    pub guests: Vec<GuestPart<A>>,
    pub cpus: Vec<CpuState>,
    pub ghost slots: { vec_len guests ≡ 64 },
    pub ghost counted: { vec_len cpus ≡ layout.config.cpus },
    pub ghost vm_log: { IsOfSize layout.config.log vms.log },
    pub ghost shared_log: { IsOfSize layout.config.log shared.log },
    pub ghost depth: { levels_below shared.host.tree.geometry ≡ levels_below layout.geometry },
    pub ghost rows: { HasMemoryRows layout.map shared.owners },
    pub ghost guest_depth: { All (λ g. levels_below g.guest.geometry ≡ levels_below layout.geometry) guests.items },
    pub ghost guest_logs: { All (λ g. IsOfSize layout.config.log g.log) guests.items },
    pub ghost numbers: { AreNumbered cpus.items },
    pub ghost own_logs: { All (λ k. IsOfSize layout.config.log k.log) cpus.items },
}

impl<A: Allocator + Copy> Parts<A> {
    ghost use Rattle.hypercalls.specs.Stands.{HasHistory};
    ghost use Rattle.hypercalls.specs.Whole.{IsStep};

    /// Makes one step of a CPU on the parts that it uses. Requires parts at the end of one legal history, and leaves them at
    /// the end of one.
    // It calls the five functions itself: docs/DECISIONS.md, 19.
    pub fn step(&mut self, alloc: A, cpu: u64, step: Step) -> Reply
        requires known { cpu < self.old.layout.config.cpus }
        requires history { ∥ HasHistory self.old ∥₁ }
        ensures layout { self.new.layout ≡ self.old.layout }
        ensures step { IsStep self.old cpu step result self.new }
        ensures history { ∥ HasHistory self.new ∥₁ }
    {
        let own = &mut self.cpus[cpu as usize];
        let made = match uses(own, &step) {
            UsedParts::Nothing => step_alone(&self.layout, own, step),
            UsedParts::Vms => step_on_vms(&self.layout, &mut self.vms, own, step),
            UsedParts::Shared => step_on_shared(alloc, &self.layout, &mut self.shared, own, step),
            UsedParts::Guest(v) => step_on_guest(
                alloc,
                &self.layout,
                &mut self.guests[v as usize],
                v,
                own,
                step,
            ),
            UsedParts::Both(v) => step_on_both(
                alloc,
                &self.layout,
                &mut self.shared,
                &mut self.guests[v as usize],
                v,
                own,
                step,
            ),
        };
        reply_of(made)
    }
}

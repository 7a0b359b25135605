//! The oracle at the locks: while a call's parts are held, they are recorded before and after its step, and a judge is asked.
ghost use Rattle.std.specs.Prelude.{◌≡◌, ◌<◌, ◌+◌, ◌∷◌, [], IfOk, IfSome};
ghost use Rattle.std.specs.Option.{option_copied, option_map};
ghost use Rattle.ghost_spec.specs.Kept.{HasNextGeneration};
ghost use Rattle.ghost_spec.specs.States.{contents_in};
ghost use Rattle.page_state.specs.LayoutView.{layout_of};
ghost use Rattle.part_table.specs.Does.{Does, IsCalled, none_at, only_at, pair_at};
ghost use Rattle.part_table.specs.Parts.{parts};
ghost use Rattle.part_table.specs.Trying.{CanMake};
ghost use Rattle.cpu_threads.specs.Judged.{AsksOnce, CanRecord, IsRecordOf, both_in, lent_guest, lent_shared, lent_vms, shown, unshown};

use call_table::{Call, Reply, Step};
use ghost_oracle::record::record;
use ghost_spec::state::Ghost;
use page_state::Layout;
use part_table::{Gate, Maker, Slot, TryGate};
use part_types::{CpuState, GuestPart, SharedPart, VmPart};
use std::alloc::{AllocError, Allocator, Global};
use table_tree::Reads;

/// What is asked of each call that is stored.
pub trait Judge {
    ghost use Rattle.cpu_threads.specs.Judged.{Asked};

    /// What being asked makes of it.
    ghost takes: { Self → Asked → Self → Type 0 };

    /// A call of a CPU was made: the records of the parts that it uses and of the CPU before and after it. They are still
    /// held.
    fn judged(&mut self, pre: &Ghost, cpu: u64, step: &Step, reply: &Reply, post: &Ghost)
        requires cpu { cpu < pre.now.layout.config.cpus }
        requires generation { HasNextGeneration ((contents_in pre.now).cpu cpu).ticket step.now }
        ensures { takes self.old (shown cpu step.now reply.now pre.now post.now) self.new };

    /// A call of a CPU was made, and memory was refused to a record.
    fn unjudged(&mut self, cpu: u64, step: &Step, reply: &Reply)
        ensures { takes self.old (unshown cpu step.now reply.now) self.new };
}

/// Makes the step of a call, records what it uses before and after it, and asks a judge.
#[derive(Drop)]
pub(crate) struct Recorder {
    pub(crate) global: Global,
}

/// The VM part that lies in a slot.
fn vms_lent<A: Allocator>(slot: &Slot<A>) -> Option<&VmPart>
    ensures { option_copied result ≡ lent_vms slot.now }
{
    match slot {
        Slot::Vm(part) => Some(part),
        _ => None,
    }
}

/// The Shared part that lies in a slot.
fn shared_lent<A: Allocator>(slot: &Slot<A>) -> Option<&SharedPart<A>>
    ensures { option_copied result ≡ lent_shared slot.now }
{
    match slot {
        Slot::Shared(part) => Some(part),
        _ => None,
    }
}

/// The Guest part that lies in a slot, beside the guest's slot.
fn guest_lent<A: Allocator>(slot: &Slot<A>, v: u64) -> Option<(u64, &GuestPart<A>)>
    ensures given { option_map (λ g. (g.0, g.1.now)) result ≡ lent_guest v slot.now }
    ensures number { IfSome result (λ g. g.0 ≡ v) }
    ensures part { IfSome result (λ g. slot.now ≡ Slot.Guest g.1.now) }
{
    match slot {
        Slot::Guest(part) => Some((v, part)),
        _ => None,
    }
}

/// A record of the CPU's own state alone.
fn record_own<A: Allocator>(
    global: Global,
    layout: &Layout,
    cpu: &CpuState,
) -> Result<Ghost, AllocError>
    requires known { cpu.now.id < layout.now.config.cpus }
    requires low { CanRecord {A = A} none_at cpu.now }
    ensures { IfOk result (IsRecordOf {A = A} (layout_of layout.now) none_at cpu.now) }
{
    let reads = &mut Reads::new();
    let lists = record::<Global>(global, layout, None, None, None, cpu, reads)?;
    Ok(Ghost::of_kept(lists))
}

/// A record of the part k and of the CPU's own state.
fn record_part<A: Allocator>(
    global: Global,
    layout: &Layout,
    slot: &Slot<A>,
    k: u64,
    cpu: &CpuState,
) -> Result<Ghost, AllocError>
    requires known { cpu.now.id < layout.now.config.cpus }
    requires part { k < parts }
    requires low { CanRecord (only_at k slot.now) cpu.now }
    ensures { IfOk result (IsRecordOf (layout_of layout.now) (only_at k slot.now) cpu.now) }
{
    let vms = vms_lent(slot);
    let shared = shared_lent(slot);
    let guest = guest_lent(slot, k.saturating_sub(2));
    let reads = &mut Reads::new();
    let lists = record(global, layout, vms, shared, guest, cpu, reads)?;
    Ok(Ghost::of_kept(lists))
}

/// A record of the Shared part, of the guest of slot v and of the CPU's own state.
fn record_both<A: Allocator>(
    global: Global,
    layout: &Layout,
    shared: &Slot<A>,
    guest: &Slot<A>,
    v: u64,
    cpu: &CpuState,
) -> Result<Ghost, AllocError>
    requires known { cpu.now.id < layout.now.config.cpus }
    requires part { v + 2 < parts }
    requires low { CanRecord (pair_at v shared.now guest.now) cpu.now }
    ensures { IfOk result (IsRecordOf (layout_of layout.now) (pair_at v shared.now guest.now) cpu.now) }
{
    let lists = record(
        global,
        layout,
        None,
        shared_lent(shared),
        guest_lent(guest, v),
        cpu,
        &mut Reads::new(),
    )?;
    Ok(Ghost::of_kept(lists))
}

/// Asks a judge of a call, by both records.
fn ask<J: Judge>(
    judge: &mut J,
    pre: &Result<Ghost, AllocError>,
    call: &Call,
    post: &Result<Ghost, AllocError>,
)
    requires cpu { IfOk pre.now (λ a. call.now.cpu < a.layout.config.cpus) }
    requires generation { IfOk pre.now
        (λ a. HasNextGeneration ((contents_in a).cpu call.now.cpu).ticket call.now.step) }
    ensures { J.takes judge.old
        (record {
          cpu = call.now.cpu;
          step = call.now.step;
          reply = call.now.reply;
          states = both_in pre.now post.now;
        }) judge.new }
{
    match (pre, post) {
        (Ok(pre), Ok(post)) => judge.judged(pre, call.cpu, &call.step, &call.reply, post),
        _ => judge.unjudged(call.cpu, &call.step, &call.reply),
    }
}

impl<J: Judge, G: Gate> Maker<J, G> for Recorder {
    ghost tells = { λ l before own call after owned from to. AsksOnce J.takes l before own call after owned
        from to };

    fn idle<A: Allocator + Copy>(
        &self,
        _gate: &TryGate<G>,
        layout: &Layout,
        cpu: &mut CpuState,
        step: Step,
        told: &mut J,
    ) -> Call {
        let pre = record_own::<A>(self.global, layout, cpu);
        let call = part_table::idle::<A>(layout, cpu, step);
        let post = record_own::<A>(self.global, layout, cpu);
        ask(told, &pre, &call, &post);
        call
    }

    fn alone<A: Allocator + Copy>(
        &self,
        _gate: &TryGate<G>,
        alloc: A,
        layout: &Layout,
        slot: Slot<A>,
        k: u64,
        cpu: &mut CpuState,
        step: Step,
        told: &mut J,
    ) -> (Slot<A>, Call)
        requires can { CanMake layout.now cpu.old step (k ∷ []) (only_at k slot) }
        requires part { k < parts }
        ensures call { IsCalled cpu.old.id cpu.old step result.1 }
        ensures does { Does (layout_of layout.now) result.1 (only_at k slot) cpu.old (only_at k result.0) cpu.new }
        ensures told { AsksOnce J.takes layout.now (only_at k slot) cpu.old result.1
            (only_at k result.0) cpu.new told.old told.new }
    {
        let pre = record_part(self.global, layout, &slot, k, cpu);
        let (slot, call) = part_table::alone(alloc, layout, slot, k, cpu, step);
        let post = record_part(self.global, layout, &slot, k, cpu);
        ask(told, &pre, &call, &post);
        (slot, call)
    }

    fn both<A: Allocator + Copy>(
        &self,
        _gate: &TryGate<G>,
        alloc: A,
        layout: &Layout,
        shared: Slot<A>,
        guest: Slot<A>,
        v: u64,
        cpu: &mut CpuState,
        step: Step,
        told: &mut J,
    ) -> (Slot<A>, Slot<A>, Call)
        requires can { CanMake layout.now cpu.old step (1 ∷ (v + 2) ∷ []) (pair_at v shared guest) }
        requires part { v + 2 < parts }
        ensures call { IsCalled cpu.old.id cpu.old step result.2 }
        ensures does { Does (layout_of layout.now) result.2 (pair_at v shared guest) cpu.old
            (pair_at v result.0 result.1) cpu.new }
        ensures told { AsksOnce J.takes layout.now (pair_at v shared guest) cpu.old result.2
            (pair_at v result.0 result.1) cpu.new told.old told.new }
    {
        let pre = record_both(self.global, layout, &shared, &guest, v, cpu);
        let (shared, guest, call) = part_table::both(alloc, layout, shared, guest, v, cpu, step);
        let post = record_both(self.global, layout, &shared, &guest, v, cpu);
        ask(told, &pre, &call, &post);
        (shared, guest, call)
    }
}

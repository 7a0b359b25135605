//! Judges a call: its reply and the whole state after it against the model's. Rooms of logs aren't compared.
ghost use Rattle.std.specs.Prelude.{◌≡◌, ◌<◌, ◌↔◌, None, IfOk, IfSome, IsTrue, get_or, length, map};
ghost use Rattle.reference_model.specs.model.Rules.{may_grow as may_grow_of};
ghost use Rattle.reference_model.specs.model.State.{no_cpu};
ghost use Rattle.ghost_spec.specs.Kept.{HasNextGeneration};
ghost use Rattle.ghost_spec.specs.States.{contents_in, IsKept};
ghost use Rattle.ghost_spec.specs.Used.{guests_in, vms_in};
ghost use Rattle.ghost_spec.specs.Views.{cpu_in, shared_in_lists};
ghost use Rattle.ghost_judge.specs.Audits.{AuditAgrees, MapsAgree};
ghost use Rattle.ghost_judge.specs.Judgements.{told_of, GuestsAgree, IsFirstJudged, IsFirstOfState, JudgeAgrees, PoolAgrees, SlotsAgree, WantsMemory};
ghost use Rattle.ghost_judge.specs.PartDifferences.{without_map, IsSamePool};
ghost use Rattle.ghost_judge.specs.inner.Found.{IsFound, IsGuestPart, IsSharedPart};
ghost use Rattle.ghost_judge.specs.inner.Parted.{IsFoundApart};

use crate::audit::{in_guests, in_rows, in_trees};
use crate::disagreement::{Disagreement, TreeOf};
use crate::pools::{in_guest, in_shared};
use crate::same::{is_same_guest, is_same_pool, is_same_slot};
use call_table::{Refusal, Reply, Step};
use ghost_spec::cpu::GhostCpu;
use ghost_spec::lists::GhostLists;
use ghost_spec::parts::{GhostGuest, GhostSlot};
use ghost_spec::shared::Shared;
use ghost_spec::state::{Ghost, predict_last};
use std::alloc::{AllocError, Global};

/// The first slot whose guests differ in more than their maps.
fn guest_apart(post: &[GhostGuest], spec: &[GhostGuest]) -> Option<usize>
    requires post { length post.now ≡ 64 }
    requires spec { length spec.now ≡ 64 }
    ensures apart { IsFoundApart (λ v. without_map (guests_in post.now v))
        (λ v. without_map (guests_in spec.now v)) result }
    ensures slot { IfSome result (λ v. v < 64) }
{
    for v in 0..64usize {
        if !is_same_guest(&post[v], &spec[v]) {
            return Some(v);
        }
    }
    None
}

/// The first slot that differs.
fn slot_apart(post: &[GhostSlot], spec: &[GhostSlot]) -> Option<u64>
    requires post { length post.now ≡ 64 }
    requires spec { length spec.now ≡ 64 }
    ensures { IsFoundApart (vms_in post.now).slot (vms_in spec.now).slot result }
{
    for v in 0..64usize {
        if !is_same_slot(&post[v], &spec[v]) {
            return Some(v as u64);
        }
    }
    None
}

/// A CPU's own state; past the list's end it has nothing.
fn cpu_at(cpus: &[GhostCpu], cpu: usize) -> GhostCpu
    ensures { cpu_in result ≡ get_or (map cpu_in cpus.now) cpu no_cpu }
{
    if cpu < cpus.len() {
        cpus[cpu]
    } else {
        GhostCpu::NONE
    }
}

/// The first CPU that differs.
fn cpu_apart(post: &[GhostCpu], spec: &[GhostCpu]) -> Option<u64>
    ensures { IsFoundApart (λ c. get_or (map cpu_in post.now) c no_cpu)
        (λ c. get_or (map cpu_in spec.now) c no_cpu) result }
{
    for c in 0..post.len().max(spec.len()) {
        if cpu_at(post, c) != cpu_at(spec, c) {
            return Some(c as u64);
        }
    }
    None
}

/// The first CPU that differs, if all else is equal.
fn in_cpus(post: &GhostLists, spec: &GhostLists) -> Option<Disagreement>
    requires { SlotsAgree (contents_in post.now) (contents_in spec.now) }
    ensures { IsFound (contents_in post.now ≡ contents_in spec.now)
        (IsFirstOfState (contents_in post.now) (contents_in spec.now)) result }
{
    match cpu_apart(post.cpus.as_slice(), spec.cpus.as_slice()) {
        Some(cpu) => Some(Disagreement::Cpu(cpu)),
        None => None,
    }
}

/// The first slot or CPU that differs, if all before is equal.
fn in_slots(post: &GhostLists, spec: &GhostLists) -> Option<Disagreement>
    requires post { IsKept post.now }
    requires spec { IsKept spec.now }
    requires guests { GuestsAgree (contents_in post.now) (contents_in spec.now) }
    ensures { IsFound (contents_in post.now ≡ contents_in spec.now)
        (IsFirstOfState (contents_in post.now) (contents_in spec.now)) result }
{
    match slot_apart(post.vms.as_slice(), spec.vms.as_slice()) {
        Some(slot) => Some(Disagreement::Vm(slot)),
        None => in_cpus(post, spec),
    }
}

/// The first difference of the guests of a slot.
fn in_guest_of(slot: usize, post: &[GhostGuest], spec: &[GhostGuest]) -> Option<Disagreement>
    requires slot { slot < 64 }
    requires post { length post.now ≡ 64 }
    requires spec { length spec.now ≡ 64 }
    ensures { IsFound (without_map (guests_in post.now slot) ≡ without_map (guests_in spec.now slot))
        (IsGuestPart slot (guests_in post.now slot) (guests_in spec.now slot)) result }
{
    match in_guest(slot as u64, &post[slot], &spec[slot]) {
        Some(part) => Some(Disagreement::GuestPart(slot as u64, part)),
        None => None,
    }
}

/// The first difference of two Shared parts, maps and rows apart.
fn in_pool(post: &Shared, spec: &Shared) -> Option<Disagreement>
    ensures { IsFound (IsSamePool (shared_in_lists post.now) (shared_in_lists spec.now))
        (IsSharedPart (shared_in_lists post.now) (shared_in_lists spec.now)) result }
{
    match in_shared(post, spec) {
        Some(part) => Some(Disagreement::SharedPart(part)),
        None => None,
    }
}

/// The first guest, slot or CPU that differs, if all before is equal.
fn in_parts(post: &GhostLists, spec: &GhostLists) -> Option<Disagreement>
    requires post { IsKept post.now }
    requires spec { IsKept spec.now }
    requires pool { PoolAgrees (contents_in post.now) (contents_in spec.now) }
    ensures { IsFound (contents_in post.now ≡ contents_in spec.now)
        (IsFirstOfState (contents_in post.now) (contents_in spec.now)) result }
{
    match guest_apart(post.guests.as_slice(), spec.guests.as_slice()) {
        Some(slot) => in_guest_of(slot, post.guests.as_slice(), spec.guests.as_slice()),
        None => in_slots(post, spec),
    }
}

/// The first difference, if all maps and rows are equal.
fn in_rest(post: &GhostLists, spec: &GhostLists) -> Option<Disagreement>
    requires post { IsKept post.now }
    requires spec { IsKept spec.now }
    requires audit { AuditAgrees (contents_in post.now) (contents_in spec.now) }
    ensures { IsFound (contents_in post.now ≡ contents_in spec.now)
        (IsFirstOfState (contents_in post.now) (contents_in spec.now)) result }
{
    if !is_same_pool(&post.shared, &spec.shared) {
        return in_pool(&post.shared, &spec.shared);
    }
    in_parts(post, spec)
}

/// The first difference of the maps.
fn in_maps(post: &GhostLists, spec: &GhostLists) -> Option<Disagreement>
    requires post { IsKept post.now }
    requires spec { IsKept spec.now }
    ensures { IsFound (MapsAgree (contents_in post.now) (contents_in spec.now))
        (IsFirstOfState (contents_in post.now) (contents_in spec.now)) result }
{
    let host = in_trees(TreeOf::Host, &post.shared.host, &spec.shared.host);
    if host.is_some() {
        return host;
    }
    let hyp = in_trees(TreeOf::Hyp, &post.shared.hyp, &spec.shared.hyp);
    if hyp.is_some() {
        return hyp;
    }
    in_guests(post.guests.as_slice(), spec.guests.as_slice())
}

/// The first difference of two states.
fn in_states(post: &GhostLists, spec: &GhostLists) -> Option<Disagreement>
    requires post { IsKept post.now }
    requires spec { IsKept spec.now }
    ensures { IsFound (contents_in post.now ≡ contents_in spec.now)
        (IsFirstOfState (contents_in post.now) (contents_in spec.now)) result }
{
    let maps = in_maps(post, spec);
    if maps.is_some() {
        return maps;
    }
    let rows = in_rows(&post.shared.rows, &spec.shared.rows);
    if rows.is_some() {
        return rows;
    }
    in_rest(post, spec)
}

/// The first difference of two states in the host's map, the hypervisor's, those of the guests by slot, the owner rows,
/// the shared pool and the tables of its trees, all of each guest but its map, the slots, and the CPUs; None if all is
/// equal. Layouts aren't compared.
pub fn differs(post: &Ghost, spec: &Ghost) -> Option<Disagreement>
    ensures none { (result ≡ None) ↔ (contents_in post.now ≡ contents_in spec.now) }
    ensures first { IfSome result (IsFirstOfState (contents_in post.now) (contents_in spec.now)) }
{
    in_states(post.lists(), spec.lists())
}

/// Whether a step can be refused for lack of memory.
fn may_grow(step: Step) -> bool
    ensures { result ≡ may_grow_of step }
{
    match step {
        Step::HostTranslate { .. }
        | Step::HypTranslate { .. }
        | Step::OwnerOf { .. }
        | Step::GuestTranslate { .. }
        | Step::MarkDying
        | Step::VmReserve { .. }
        | Step::VmOpen
        | Step::VcpuLoad { .. }
        | Step::VcpuPut
        | Step::Teardown { .. }
        | Step::VmRelease => false,
        _ => true,
    }
}

/// Whether a step that the model makes, and that may allocate, was refused with NoMemory.
fn wants_memory(step: Step, reply: Reply, told: Reply) -> bool
    ensures { IsTrue result ↔ WantsMemory step reply told }
{
    matches!(reply, Reply::Refused(Refusal::NoMemory))
        && may_grow(step)
        && matches!(told, Reply::Done(_))
}

/// If the reply is NoMemory, the first difference from the state before; else None.
fn changed_since(pre: &Ghost, reply: Reply, post: &Ghost) -> Option<Disagreement>
    ensures none { reply ≡ Reply.Refused Refusal.NoMemory
        → (result ≡ None) ↔ (contents_in post.now ≡ contents_in pre.now) }
    ensures first { reply ≡ Reply.Refused Refusal.NoMemory
        → IfSome result (IsFirstOfState (contents_in post.now) (contents_in pre.now)) }
{
    match reply {
        Reply::Refused(Refusal::NoMemory) => differs(post, pre),
        _ => None,
    }
}

/// As `judge`, for a caller that no longer needs the state before: it becomes the model's next state, and no copy is
/// made.
pub fn judge_last(
    alloc: Global,
    pre: Ghost,
    cpu: u64,
    step: Step,
    reply: &Reply,
    post: &Ghost,
) -> Result<Option<Disagreement>, AllocError>
    requires cpu { cpu < pre.layout.config.cpus }
    requires generation { HasNextGeneration ((contents_in pre).cpu cpu).ticket step }
    ensures none { IfOk result
        (λ o. (o ≡ None)
        ↔ JudgeAgrees (contents_in pre) step reply.now (contents_in post.now)
        (told_of pre cpu step)) }
    ensures first { IfOk result
        (λ o. IfSome o
        (IsFirstJudged (contents_in pre) step reply.now (contents_in post.now)
        (told_of pre cpu step))) }
{
    let changed = changed_since(&pre, *reply, post);
    let (told, spec) = predict_last(alloc, pre, cpu, step)?;
    let differs = differs(post, &spec);
    drop(spec);
    if wants_memory(step, *reply, told) {
        return Ok(changed);
    }
    if *reply != told {
        return Ok(Some(Disagreement::Reply {
            said: *reply,
            spec: told,
        }));
    }
    Ok(differs)
}

/// Judges a call of a CPU by the state before it, its reply and the state after it: None if the reply and the state are
/// the model's, or if a step that the model makes, and that may allocate, was refused with NoMemory and changed
/// nothing. Else the first difference. The layout is that of the state before. Err if the allocator refuses memory to
/// the judge.
pub fn judge(
    alloc: Global,
    pre: &Ghost,
    cpu: u64,
    step: Step,
    reply: &Reply,
    post: &Ghost,
) -> Result<Option<Disagreement>, AllocError>
    requires cpu { cpu < pre.now.layout.config.cpus }
    requires generation { HasNextGeneration ((contents_in pre.now).cpu cpu).ticket step }
    ensures none { IfOk result
        (λ o. (o ≡ None)
        ↔ JudgeAgrees (contents_in pre.now) step reply.now (contents_in post.now)
        (told_of pre.now cpu step)) }
    ensures first { IfOk result
        (λ o. IfSome o
        (IsFirstJudged (contents_in pre.now) step reply.now (contents_in post.now)
        (told_of pre.now cpu step))) }
{
    let again = pre.copied(alloc)?;
    judge_last(alloc, again, cpu, step, reply, post)
}

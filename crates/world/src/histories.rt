//! The logs of a world, copied.
ghost use Rattle.std.specs.Prelude.{◌≡◌, IfOk, length, map};
ghost use Rattle.hypercalls.specs.Stands.{kept_of, parts_layout};
ghost use Rattle.world.specs.Merges.{AreLogsOf};

use crate::merge::Histories;
use call_table::Call;
use hypercalls::Parts;
use part_types::{CpuState, GuestPart};
use std::alloc::{AllocError, Allocator, Global};

/// The logs of guests, by slot.
fn guest_logs<A: Allocator>(
    global: Global,
    guests: &[GuestPart<A>],
) -> Result<Vec<Vec<Call>>, AllocError>
    ensures { IfOk result (λ v. map (λ calls. calls.items) v.items ≡ map (λ g. g.log.calls) guests.now) }
{
    let mut logs = Vec::with_capacity(global, guests.len())?;
    for guest in guests {
        logs.push(Vec::from_slice(global, guest.log.calls())?)?;
    }
    Ok(logs)
}

/// The CPUs' own lists, by the CPU's number.
fn cpu_logs(global: Global, cpus: &[CpuState]) -> Result<Vec<Vec<Call>>, AllocError>
    ensures { IfOk result (λ v. map (λ calls. calls.items) v.items ≡ map (λ k. k.log.calls) cpus.now) }
{
    let mut logs = Vec::with_capacity(global, cpus.len())?;
    for cpu in cpus {
        logs.push(Vec::from_slice(global, cpu.log.calls())?)?;
    }
    Ok(logs)
}

/// The logs of all parts and CPUs.
pub(crate) fn histories<A: Allocator>(
    global: Global,
    parts: &Parts<A>,
) -> Result<Histories, AllocError>
    ensures logs { IfOk result (λ h. AreLogsOf h (parts_layout parts.now) (kept_of parts.now)) }
    ensures lists { IfOk result
        (λ h. (length h.guests.items ≡ 64)
        × (length h.cpus.items ≡ parts.now.layout.config.cpus)) }
{
    Ok(Histories {
        vms: Vec::from_slice(global, parts.vms.log.calls())?,
        shared: Vec::from_slice(global, parts.shared.log.calls())?,
        guests: guest_logs(global, parts.guests.as_slice())?,
        cpus: cpu_logs(global, parts.cpus.as_slice())?,
    })
}

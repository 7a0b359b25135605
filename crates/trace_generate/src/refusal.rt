//! Calls that are likely to be refused in a state.
ghost use Rattle.std.specs.Prelude.{◌≡◌};

use crate::chance::below;
use crate::seen::{
    SLOTS, guest_of, own_state, picked_hosts, picked_open, picked_page, picked_rights, picked_rows,
};
use call_table::{Step, VmId, VmKind};
use ghost_spec::cpu::GhostCpu;
use ghost_spec::lists::GhostLists;
use ghost_spec::parts::GhostPhase;
use page_state::PageRange;
use rand_pcg::Pcg32;
use reference_model::{Loaded, Stage};

/// A page of no region and of no tree.
const NO_PAGE: u64 = 0xffff_ffff_ffff_ffff;

/// The first page of guests' memory.
const GUEST_PAGE: u64 = 0x8_0000;

/// A call that is always refused: a frame that is no page of memory.
pub(crate) fn refused() -> Step
    ensures { result ≡ Step.ShareHyp 0xffff_ffff_ffff_ffff }
{
    Step::ShareHyp { pfn: NO_PAGE }
}

/// A call that is likely to be refused: out of turn, on the wrong page or VM, on what is in use, with a number past a
/// limit, or with a guest's pool that runs out.
pub(crate) fn unlikely(
    lists: &GhostLists,
    memory: PageRange,
    cpu: u64,
    chance: &mut Pcg32,
) -> Step {
    let own = own_state(lists, cpu);
    match below(chance, 12) {
        0 => out_of_turn(chance),
        1 | 2 => on_any_frame(lists, memory, chance),
        3 => on_wrong_vm(chance),
        4 | 5 => past_a_limit(memory, chance),
        6 => on_no_vcpu(memory, chance),
        7..=9 => in_wrong_state(lists, memory, own, chance),
        10 => in_use(lists, own, chance),
        _ => far_away(lists, memory, own, chance),
    }
}

/// A call that takes all from its CPU.
fn out_of_turn(chance: &mut Pcg32) -> Step {
    match below(chance, 7) {
        0 => Step::Unfund,
        1 => Step::Install,
        2 => Step::FinishGuest,
        3 => Step::MarkDying,
        4 => Step::VmOpen,
        5 => Step::VcpuPut,
        _ => Step::VmRelease,
    }
}

/// A call on a frame, whoever has it.
fn on_any_frame(lists: &GhostLists, memory: PageRange, chance: &mut Pcg32) -> Step {
    let pfn = any_frame(lists, memory, chance);
    let n = below(chance, 4).saturating_add(1);
    match below(chance, 6) {
        0 => Step::ShareHyp { pfn },
        1 => Step::UnshareHyp { pfn },
        2 => Step::DonateHyp { pfn, n },
        3 => Step::HypDonateHost { pfn, n },
        4 => Step::HostAbort { page: pfn },
        _ => Step::Fund { pfn, n },
    }
}

/// A frame, more often of a short run.
fn any_frame(lists: &GhostLists, memory: PageRange, chance: &mut Pcg32) -> u64 {
    match picked_rows(lists, chance) {
        Some(run) => picked_page(run.pages, chance),
        None => picked_page(memory, chance),
    }
}

/// A page of guests' memory.
fn any_guest_page(chance: &mut Pcg32) -> u64 {
    GUEST_PAGE.saturating_add(below(chance, 96))
}

/// A call on a VM that is unlikely to exist.
fn on_wrong_vm(chance: &mut Pcg32) -> Step {
    let vm = VmId {
        slot: below(chance, SLOTS),
        generation: below(chance, 3),
    };
    on_vm(vm, any_guest_page(chance), below(chance, 4), chance)
}

/// A call on a VM.
fn on_vm(vm: VmId, gfn: u64, vcpu: u64, chance: &mut Pcg32) -> Step {
    match below(chance, 7) {
        0 => Step::Topup { vm },
        1 => Step::ReclaimPool { vm },
        2 => Step::ReclaimPage { vm, gfn },
        3 => Step::UnshareGuest { vm, gfn },
        4 => Step::GuestTranslate { vm, gfn },
        5 => Step::Teardown { vm },
        _ => Step::VcpuLoad { vm, vcpu },
    }
}

/// A number at or past a limit.
fn picked_limit(chance: &mut Pcg32) -> u64 {
    match below(chance, 8) {
        0 => 0,
        1 => 513,
        2 => 0x400_0000,
        3 => 0x800_0000,
        4 => 0x10_0000_0000,
        5 => 0x10_0000_0000_0000,
        6 => 0x8000_0000_0000_0000,
        _ => NO_PAGE,
    }
}

/// A call with a number at or past a limit.
fn past_a_limit(memory: PageRange, chance: &mut Pcg32) -> Step {
    let limit = picked_limit(chance);
    let pfn = picked_page(memory, chance);
    match below(chance, 18) {
        0 => Step::ShareHyp { pfn: limit },
        1 => Step::DonateHyp { pfn, n: limit },
        2 => Step::Fund { pfn, n: limit },
        3 => Step::HypDonateHost { pfn: limit, n: 1 },
        4 => Step::HostAbort { page: limit },
        5 => Step::HostTranslate { page: limit },
        6 => Step::HypTranslate { page: limit },
        7 => Step::OwnerOf { pfn: limit },
        8 => Step::UnshareHyp { pfn: limit },
        9 => Step::VmReserve {
            kind: VmKind::Plain,
            vcpus: below(chance, 2).saturating_mul(9),
        },
        10..=13 => {
            let vm = VmId {
                slot: 64,
                generation: below(chance, 3),
            };
            on_vm(vm, any_guest_page(chance), 0, chance)
        }
        14 => Step::VcpuLoad {
            vm: VmId {
                slot: below(chance, SLOTS),
                generation: 1,
            },
            vcpu: 8,
        },
        _ => of_guest(pfn, limit, 1, chance),
    }
}

/// A call of a guest, or on a guest's pages, of a CPU that has a vCPU loaded.
fn of_guest(pfn: u64, gfn: u64, n: u64, chance: &mut Pcg32) -> Step {
    match below(chance, 5) {
        0 => Step::ShareGuest {
            pfn,
            gfn,
            prot: picked_rights(chance),
            n,
        },
        1 => Step::DonateGuest { pfn, gfn, n },
        2 => Step::GuestShareHost { gfn },
        3 => Step::GuestUnshareHost { gfn },
        _ => Step::GuestRelax {
            gfn,
            prot: picked_rights(chance),
        },
    }
}

/// A call of a guest, from a CPU that is unlikely to have a vCPU loaded or such a page mapped.
fn on_no_vcpu(memory: PageRange, chance: &mut Pcg32) -> Step {
    let pfn = picked_page(memory, chance);
    let gfn = any_guest_page(chance);
    of_guest(pfn, gfn, 1, chance)
}

/// A call that the CPU may make, on pages, frames or vCPUs that aren't in the state for it.
fn in_wrong_state(
    lists: &GhostLists,
    memory: PageRange,
    own: GhostCpu,
    chance: &mut Pcg32,
) -> Step {
    if let Some(ticket) = own.ticket {
        match ticket.stage {
            Stage::Booked if own.hand.is_none() => return Step::Install,
            Stage::Dying if below(chance, 2) == 0 => return Step::FinishGuest,
            Stage::Dying => return Step::ReclaimPool { vm: ticket.vm },
            _ => {}
        }
    }
    if let Some(loaded) = own.loaded {
        return on_wrong_page(lists, memory, loaded, chance);
    }
    if let Some(vm) = dying(lists) {
        if below(chance, 2) == 0 {
            return match below(chance, 2) {
                0 => Step::ReclaimPool { vm },
                _ => Step::ReclaimPage {
                    vm,
                    gfn: any_guest_page(chance),
                },
            };
        }
    }
    match picked_open(lists, chance) {
        Some(vm) => match below(chance, 3) {
            0 => Step::VcpuLoad { vm, vcpu: 7 },
            1 => Step::Topup { vm },
            _ => Step::UnshareGuest {
                vm,
                gfn: any_guest_page(chance),
            },
        },
        None => Step::Unfund,
    }
}

/// A call of a CPU with a vCPU loaded, on a page of its guest, whatever that is.
fn on_wrong_page(
    lists: &GhostLists,
    memory: PageRange,
    loaded: Loaded,
    chance: &mut Pcg32,
) -> Step {
    let pfn = any_frame(lists, memory, chance);
    let gfn = match guest_of(lists, loaded.vm) {
        Some(guest) => match guest.tree.runs.first() {
            Some(run) if below(chance, 2) == 0 => picked_page(run.pages, chance),
            _ => any_guest_page(chance),
        },
        None => any_guest_page(chance),
    };
    of_guest(pfn, gfn, 1, chance)
}

/// A VM whose guest is Dying.
fn dying(lists: &GhostLists) -> Option<VmId> {
    for slot in 0..SLOTS {
        let guest = lists.guests.get(slot as usize)?;
        if guest.phase == GhostPhase::Dying {
            return Some(VmId {
                slot,
                generation: guest.generation,
            });
        }
    }
    None
}

/// A call on an object in use.
fn in_use(lists: &GhostLists, own: GhostCpu, chance: &mut Pcg32) -> Step {
    if own.ticket.is_some() && below(chance, 2) == 0 {
        return Step::VmReserve {
            kind: VmKind::Protected,
            vcpus: 1,
        };
    }
    if let Some(loaded) = own.loaded {
        return match below(chance, 2) {
            0 => Step::Teardown { vm: loaded.vm },
            _ => Step::VcpuLoad {
                vm: loaded.vm,
                vcpu: 0,
            },
        };
    }
    if own.hand.is_some() && below(chance, 2) == 0 {
        return match picked_hosts(lists, chance) {
            Some(run) => Step::Fund {
                pfn: run.first.0,
                n: 1,
            },
            None => Step::VmOpen,
        };
    }
    match picked_open(lists, chance) {
        Some(vm) => Step::Teardown { vm },
        None => Step::VcpuPut,
    }
}

/// A frame for a guest's page that is far from its others, so that it needs tables, of which the guest's pool may have too few.
fn far_away(lists: &GhostLists, memory: PageRange, own: GhostCpu, chance: &mut Pcg32) -> Step {
    let Some(loaded) = own.loaded else {
        return on_no_vcpu(memory, chance);
    };
    let (Some(guest), Some(run)) = (guest_of(lists, loaded.vm), picked_hosts(lists, chance)) else {
        return Step::VmOpen;
    };
    let pfn = run.first.0;
    let gfn = below(chance, 64).saturating_mul(0x4_0000);
    match guest.kind {
        VmKind::Plain => Step::ShareGuest {
            pfn,
            gfn,
            prot: picked_rights(chance),
            n: 1,
        },
        VmKind::Protected => Step::DonateGuest { pfn, gfn, n: 1 },
    }
}

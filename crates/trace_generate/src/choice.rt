//! Calls that are likely to be made in a state.
ghost use Rattle.std.specs.Prelude.{◌≡◌};

use crate::chance::below;
use crate::options::FIRST_PAGE;
use crate::seen::{
    SLOTS, guest_of, own_state, picked_hosts, picked_open, picked_page, picked_part, picked_rights,
    picked_rows, picked_run, vm_of,
};
use crate::wanting::{Made, wanting};
use call_table::{Step, VmId, VmKind};
use ghost_spec::cpu::GhostCpu;
use ghost_spec::lists::GhostLists;
use ghost_spec::parts::{GhostGuest, GhostStand};
use page_state::{Lent, Owner, PageRange, State, Target, Usage};
use rand_pcg::Pcg32;
use reference_model::{Loaded, Stage, Ticket};

/// The first page of guests' memory.
const GUEST_PAGE: u64 = 0x8_0000;

/// The pages of guests' memory.
const GUEST_PAGES: u64 = 96;

/// The hypervisor's page of frame 0.
const HYP_PAGE: u64 = 0x400_0000;

/// A call that is likely to be made: of the life of a VM, on pages of the host, or one that looks. Half of them lead to
/// those that the trace hasn't made yet.
pub(crate) fn likely(
    lists: &GhostLists,
    memory: PageRange,
    cpu: u64,
    made: Made,
    chance: &mut Pcg32,
) -> Step {
    let own = own_state(lists, cpu);
    if below(chance, 2) == 0 {
        if let Some(step) = wanting(lists, memory, own, made, chance) {
            return step;
        }
    }
    match below(chance, 16) {
        0..=8 => of_life(lists, memory, own, chance),
        9..=14 => of_pages(lists, memory, own, chance),
        _ => looking(lists, memory, chance),
    }
}

/// A call that looks.
fn looking(lists: &GhostLists, memory: PageRange, chance: &mut Pcg32) -> Step {
    let page = picked_page(memory, chance);
    match below(chance, 4) {
        0 => Step::HostTranslate { page },
        1 => Step::HypTranslate {
            page: page.saturating_add(HYP_PAGE),
        },
        2 => Step::OwnerOf { pfn: page },
        _ => match picked_open(lists, chance) {
            Some(vm) => Step::GuestTranslate {
                vm,
                gfn: picked_guest_page(chance),
            },
            None => Step::HostTranslate { page },
        },
    }
}

/// A page of guests' memory.
fn picked_guest_page(chance: &mut Pcg32) -> u64 {
    GUEST_PAGE.saturating_add(below(chance, GUEST_PAGES))
}

/// A call of a VM's life, by the CPU's ticket and loaded vCPU.
fn of_life(lists: &GhostLists, memory: PageRange, own: GhostCpu, chance: &mut Pcg32) -> Step {
    match (own.ticket, own.loaded) {
        (Some(ticket), _) => with_ticket(lists, memory, own, ticket, chance),
        (None, Some(loaded)) => with_loaded(lists, memory, loaded, chance),
        (None, None) => with_nothing(lists, memory, own, chance),
    }
}

/// The next call for a VM that the CPU is making or ending.
pub(crate) fn with_ticket(
    lists: &GhostLists,
    memory: PageRange,
    own: GhostCpu,
    ticket: Ticket,
    chance: &mut Pcg32,
) -> Step {
    match ticket.stage {
        Stage::Booked if own.hand.is_some() => Step::Install,
        Stage::Booked if below(chance, 24) == 0 => Step::VmRelease,
        Stage::Booked => funding(lists, memory, 12, chance),
        Stage::Installed => Step::VmOpen,
        Stage::Closing => Step::MarkDying,
        Stage::Dying => dismantling(lists, ticket.vm, chance),
        Stage::Finished => Step::VmRelease,
    }
}

/// Frames into the CPU's hand, at most `most`.
pub(crate) fn funding(
    lists: &GhostLists,
    memory: PageRange,
    most: u64,
    chance: &mut Pcg32,
) -> Step {
    match picked_hosts(lists, chance) {
        Some(run) => {
            let part = picked_part(run, most, chance);
            Step::Fund {
                pfn: part.first.0,
                n: part.count,
            }
        }
        None => looking(lists, memory, chance),
    }
}

/// The next call that takes a Dying guest apart.
fn dismantling(lists: &GhostLists, vm: VmId, chance: &mut Pcg32) -> Step {
    let Some(guest) = guest_of(lists, vm) else {
        return Step::FinishGuest;
    };
    if let Some(run) = picked_run(guest, chance) {
        return Step::ReclaimPage {
            vm,
            gfn: picked_page(run.pages, chance),
        };
    }
    if guest.free.is_empty() {
        return Step::FinishGuest;
    }
    Step::ReclaimPool { vm }
}

/// A call of a CPU that has a vCPU loaded.
fn with_loaded(lists: &GhostLists, memory: PageRange, loaded: Loaded, chance: &mut Pcg32) -> Step {
    let Some(guest) = guest_of(lists, loaded.vm) else {
        return Step::VcpuPut;
    };
    match below(chance, 10) {
        0 => Step::VcpuPut,
        1..=5 => onto_guest(lists, memory, guest, chance),
        _ => on_guest(loaded.vm, guest, chance),
    }
}

/// Frames of the host for a guest: shared with a plain VM, donated to a protected one.
pub(crate) fn onto_guest(
    lists: &GhostLists,
    memory: PageRange,
    guest: &GhostGuest,
    chance: &mut Pcg32,
) -> Step {
    let Some(run) = picked_hosts(lists, chance) else {
        return looking(lists, memory, chance);
    };
    let most = if below(chance, 4) == 0 { 16 } else { 2 };
    let part = picked_part(run, most, chance);
    let gfn = picked_guest_page(chance);
    match guest.kind {
        VmKind::Plain => Step::ShareGuest {
            pfn: part.first.0,
            gfn,
            prot: picked_rights(chance),
            n: part.count,
        },
        VmKind::Protected => Step::DonateGuest {
            pfn: part.first.0,
            gfn,
            n: part.count,
        },
    }
}

/// A call on a page that a guest has mapped.
fn on_guest(vm: VmId, guest: &GhostGuest, chance: &mut Pcg32) -> Step {
    let Some(run) = picked_run(guest, chance) else {
        return Step::VcpuPut;
    };
    let gfn = picked_page(run.pages, chance);
    match run.target {
        Target::Leaf {
            state: State::Owned,
            ..
        } => Step::GuestShareHost { gfn },
        Target::Leaf {
            state: State::SharedOwned,
            ..
        } => Step::GuestUnshareHost { gfn },
        Target::Leaf {
            state: State::SharedBorrowed,
            ..
        } if below(chance, 3) == 0 => Step::GuestRelax {
            gfn,
            prot: picked_rights(chance),
        },
        Target::Leaf {
            state: State::SharedBorrowed,
            ..
        } => Step::UnshareGuest { vm, gfn },
        _ => Step::GuestTranslate { vm, gfn },
    }
}

/// A call of a CPU that has neither a ticket nor a vCPU.
fn with_nothing(lists: &GhostLists, memory: PageRange, own: GhostCpu, chance: &mut Pcg32) -> Step {
    if own.hand.is_some() && below(chance, 2) == 0 {
        return match picked_open(lists, chance) {
            Some(vm) => Step::Topup { vm },
            None => Step::Unfund,
        };
    }
    let slot = below(chance, SLOTS);
    let Some(entry) = lists.vms.get(slot as usize) else {
        return looking(lists, memory, chance);
    };
    match entry.stand {
        GhostStand::Vacant => Step::VmReserve {
            kind: picked_kind(chance),
            vcpus: below(chance, 4).saturating_add(1),
        },
        GhostStand::Opened if below(chance, 5) == 0 => Step::Teardown {
            vm: vm_of(slot, entry),
        },
        GhostStand::Opened => Step::VcpuLoad {
            vm: vm_of(slot, entry),
            vcpu: below(chance, entry.vcpus.max(1)),
        },
        GhostStand::Reserved | GhostStand::Closing => looking(lists, memory, chance),
    }
}

/// A kind of VMs.
pub(crate) fn picked_kind(chance: &mut Pcg32) -> VmKind {
    if below(chance, 2) == 0 {
        VmKind::Protected
    } else {
        VmKind::Plain
    }
}

/// A call on pages of the host or the hypervisor, by what their owner row allows.
fn of_pages(lists: &GhostLists, memory: PageRange, own: GhostCpu, chance: &mut Pcg32) -> Step {
    let Some(run) = picked_rows(lists, chance) else {
        return looking(lists, memory, chance);
    };
    let page = picked_page(run.pages, chance);
    let row = run.value;
    match (row.owner, row.lent, row.usage) {
        (Owner(0), None, Usage::Plain) => of_hosts(lists, memory, run.pages, own, chance),
        (
            Owner(0),
            Some(
                Lent {
                    owner: Owner(1),
                    ..
                },
            ),
            _,
        ) => Step::UnshareHyp { pfn: page },
        (Owner(0), Some(lent), _) => {
            let distance = page.saturating_sub(run.pages.first.0);
            of_borrower(lists, lent, distance)
        }
        (Owner(1), _, Usage::Plain) => {
            let part = picked_part(run.pages, 8, chance);
            Step::HypDonateHost {
                pfn: part.first.0,
                n: part.count,
            }
        }
        _ => looking(lists, memory, chance),
    }
}

/// The end of a loan to a guest.
fn of_borrower(lists: &GhostLists, lent: Lent, distance: u64) -> Step {
    let slot = lent.owner.0.saturating_sub(2);
    let generation = match lists.vms.get(slot as usize) {
        Some(entry) => entry.generation,
        None => 0,
    };
    Step::UnshareGuest {
        vm: VmId { slot, generation },
        gfn: lent.page.saturating_add(distance),
    }
}

/// A call on frames that are the host's.
fn of_hosts(
    lists: &GhostLists,
    memory: PageRange,
    run: PageRange,
    own: GhostCpu,
    chance: &mut Pcg32,
) -> Step {
    let part = picked_part(run, 8, chance);
    let pfn = part.first.0;
    match below(chance, 12) {
        0..=3 => Step::ShareHyp { pfn },
        4 | 5 => Step::DonateHyp { pfn, n: part.count },
        6 => Step::HypTranslate {
            page: pfn.saturating_add(HYP_PAGE),
        },
        7..=9 => Step::HostAbort { page: pfn },
        10 if own.hand.is_some() => Step::Unfund,
        10 => funding(lists, memory, 8, chance),
        _ => {
            let whole = picked_part(run, 512, chance);
            Step::DonateHyp {
                pfn: whole.first.0,
                n: whole.count,
            }
        }
    }
}

/// A call that always answers ok: who owns the first frame of memory.
pub(crate) fn sure() -> Step
    ensures { result ≡ Step.OwnerOf 0x40000 }
{
    Step::OwnerOf { pfn: FIRST_PAGE }
}

//! Calls that lead to those which a trace hasn't made yet.
use crate::chance::below;
use crate::choice::{funding, onto_guest, picked_kind, with_ticket};
use crate::seen::{SLOTS, guest_of, picked_page, picked_rights, vm_of};
use call_table::{Step, VmId, VmKind};
use ghost_spec::cpu::GhostCpu;
use ghost_spec::lists::GhostLists;
use ghost_spec::parts::{GhostSlot, GhostStand};
use page_state::{PageRange, State, Target};
use rand_pcg::Pcg32;
use reference_model::Loaded;

/// The calls of a trace that it is of use to lead to, those that others come before: a flag for each that was made.
#[derive(Clone, Copy)]
pub(crate) struct Made {
    unfund: bool,
    topup: bool,
    share_guest: bool,
    relax: bool,
    unshare_guest: bool,
    donate_guest: bool,
    share_host: bool,
    unshare_host: bool,
    reclaim_page: bool,
    reclaim_pool: bool,
    finish: bool,
    release: bool,
}

impl Made {
    pub(crate) const NONE: Made = Made {
        unfund: false,
        topup: false,
        share_guest: false,
        relax: false,
        unshare_guest: false,
        donate_guest: false,
        share_host: false,
        unshare_host: false,
        reclaim_page: false,
        reclaim_pool: false,
        finish: false,
        release: false,
    };

    /// Each flag by chance: a call is then sought among those that aren't flagged.
    pub(crate) fn picked(chance: &mut Pcg32) -> Made {
        Made {
            unfund: below(chance, 2) == 0,
            topup: below(chance, 2) == 0,
            share_guest: below(chance, 2) == 0,
            relax: below(chance, 2) == 0,
            unshare_guest: below(chance, 2) == 0,
            donate_guest: below(chance, 2) == 0,
            share_host: below(chance, 2) == 0,
            unshare_host: below(chance, 2) == 0,
            reclaim_page: below(chance, 2) == 0,
            reclaim_pool: below(chance, 2) == 0,
            finish: below(chance, 2) == 0,
            release: below(chance, 2) == 0,
        }
    }

    /// Notes a call.
    pub(crate) fn note(&mut self, step: Step) {
        match step {
            Step::Unfund => self.unfund = true,
            Step::Topup { .. } => self.topup = true,
            Step::ShareGuest { .. } => self.share_guest = true,
            Step::GuestRelax { .. } => self.relax = true,
            Step::UnshareGuest { .. } => self.unshare_guest = true,
            Step::DonateGuest { .. } => self.donate_guest = true,
            Step::GuestShareHost { .. } => self.share_host = true,
            Step::GuestUnshareHost { .. } => self.unshare_host = true,
            Step::ReclaimPage { .. } => self.reclaim_page = true,
            Step::ReclaimPool { .. } => self.reclaim_pool = true,
            Step::FinishGuest => self.finish = true,
            Step::VmRelease => self.release = true,
            _ => {}
        }
    }

    /// Whether all calls on guests of a kind were made.
    fn has_all_of(self, kind: VmKind) -> bool {
        match kind {
            VmKind::Plain => self.share_guest && self.relax && self.unshare_guest,
            VmKind::Protected => self.donate_guest && self.share_host && self.unshare_host,
        }
    }

    /// Whether all calls that end a VM were made.
    fn has_all_ends(self) -> bool {
        self.reclaim_page && self.reclaim_pool && self.finish && self.release
    }
}

/// A call that leads to one which wasn't made yet. None if the CPU can't get nearer to any.
pub(crate) fn wanting(
    lists: &GhostLists,
    memory: PageRange,
    own: GhostCpu,
    made: Made,
    chance: &mut Pcg32,
) -> Option<Step> {
    match (own.ticket, own.loaded) {
        (Some(ticket), _) => Some(with_ticket(lists, memory, own, ticket, chance)),
        (None, Some(loaded)) => with_loaded(lists, memory, loaded, made, chance),
        (None, None) => with_nothing(lists, memory, own, made, chance),
    }
}

/// The call of a CPU that has neither a ticket nor a vCPU.
fn with_nothing(
    lists: &GhostLists,
    memory: PageRange,
    own: GhostCpu,
    made: Made,
    chance: &mut Pcg32,
) -> Option<Step> {
    if own.hand.is_some() && !made.unfund {
        return Some(Step::Unfund);
    }
    if own.hand.is_some() && !made.topup {
        let vm = any_open(lists)?;
        return Some(Step::Topup { vm });
    }
    if own.hand.is_none() && (!made.unfund || !made.topup) && below(chance, 3) == 0 {
        return Some(funding(lists, memory, 2, chance));
    }
    let first = picked_kind(chance);
    if !made.has_all_of(first) {
        return toward(lists, first, chance);
    }
    let second = other(first);
    if !made.has_all_of(second) {
        return toward(lists, second, chance);
    }
    if made.has_all_ends() {
        return None;
    }
    if let Some(vm) = used_open(lists) {
        return Some(Step::Teardown { vm });
    }
    toward(lists, VmKind::Protected, chance)
}

fn other(kind: VmKind) -> VmKind {
    match kind {
        VmKind::Plain => VmKind::Protected,
        VmKind::Protected => VmKind::Plain,
    }
}

/// A vCPU of an open VM of a kind, or a VM of the kind.
fn toward(lists: &GhostLists, kind: VmKind, chance: &mut Pcg32) -> Option<Step> {
    if let Some((vm, vcpus)) = open_of(lists, kind) {
        let vcpu = below(chance, vcpus.max(1));
        return Some(Step::VcpuLoad { vm, vcpu });
    }
    if !has_vacant(lists) {
        return None;
    }
    let vcpus = below(chance, 4).saturating_add(1);
    Some(Step::VmReserve { kind, vcpus })
}

/// The call of a CPU that has a vCPU loaded: the next step on a page of its guest, which is mapped first.
fn with_loaded(
    lists: &GhostLists,
    memory: PageRange,
    loaded: Loaded,
    made: Made,
    chance: &mut Pcg32,
) -> Option<Step> {
    let guest = guest_of(lists, loaded.vm)?;
    if guest.tree.runs.is_empty() {
        return Some(onto_guest(lists, memory, guest, chance));
    }
    if made.has_all_of(guest.kind) {
        return Some(Step::VcpuPut);
    }
    for run in guest.tree.runs.iter() {
        let gfn = picked_page(run.pages, chance);
        if let Some(step) = on_page(loaded.vm, run.target, gfn, made, chance) {
            return Some(step);
        }
    }
    Some(onto_guest(lists, memory, guest, chance))
}

/// A call on a guest's page that wasn't made yet.
fn on_page(vm: VmId, target: Target, gfn: u64, made: Made, chance: &mut Pcg32) -> Option<Step> {
    let Target::Leaf { state, .. } = target else {
        return None;
    };
    match state {
        State::Owned if !made.share_host => Some(Step::GuestShareHost { gfn }),
        State::SharedOwned if !made.unshare_host => Some(Step::GuestUnshareHost { gfn }),
        State::Owned if !made.unshare_host => Some(Step::GuestShareHost { gfn }),
        State::SharedBorrowed if !made.relax => Some(Step::GuestRelax {
            gfn,
            prot: picked_rights(chance),
        }),
        State::SharedBorrowed if !made.unshare_guest => Some(Step::UnshareGuest { vm, gfn }),
        _ => None,
    }
}

/// An open VM, of those of the slots that are used.
fn any_open(lists: &GhostLists) -> Option<VmId> {
    for slot in 0..SLOTS {
        let entry = lists.vms.get(slot as usize)?;
        if entry.stand == GhostStand::Opened {
            return Some(vm_of(slot, entry));
        }
    }
    None
}

/// One of a kind, and the number of its vCPUs.
fn open_of(lists: &GhostLists, kind: VmKind) -> Option<(VmId, u64)> {
    for slot in 0..SLOTS {
        let entry = lists.vms.get(slot as usize)?;
        if entry.stand == GhostStand::Opened && entry.kind == kind {
            return Some((vm_of(slot, entry), entry.vcpus));
        }
    }
    None
}

/// One whose guest has a page, and of which no vCPU is loaded.
fn used_open(lists: &GhostLists) -> Option<VmId> {
    for slot in 0..SLOTS {
        let entry = lists.vms.get(slot as usize)?;
        let vm = vm_of(slot, entry);
        if entry.stand == GhostStand::Opened && is_idle(entry) && is_mapped(lists, vm) {
            return Some(vm);
        }
    }
    None
}

/// Whether no vCPU of a VM is loaded.
fn is_idle(entry: &GhostSlot) -> bool {
    entry.loaded.iter().all(|by| by.is_none())
}

/// Whether a VM's guest has a page.
fn is_mapped(lists: &GhostLists, vm: VmId) -> bool {
    match guest_of(lists, vm) {
        Some(guest) => !guest.tree.runs.is_empty(),
        None => false,
    }
}

/// Whether one of the slots that are used is vacant.
fn has_vacant(lists: &GhostLists) -> bool {
    for slot in 0..SLOTS {
        if let Some(entry) = lists.vms.get(slot as usize) {
            if entry.stand == GhostStand::Vacant {
                return true;
            }
        }
    }
    false
}
